//! Numbers by chance, which a seed determines.
ghost use Rattle.std.specs.Prelude.{◌<◌};

use rand_xoshiro::SplitMix64;
use rand_xoshiro::rand_core::{Rng, SeedableRng};

/// A source of numbers.
#[derive(Drop)]
pub struct Chance {
    generator: SplitMix64,
}

impl Chance {
    /// The numbers that follow from a seed.
    pub fn new(seed: u64) -> Chance {
        Chance {
            generator: SplitMix64::seed_from_u64(seed),
        }
    }

    /// Any number of 64 bits.
    pub fn number(&mut self) -> u64 {
        self.generator.next_u64()
    }

    /// A number below the limit.
    pub fn below(&mut self, limit: u64) -> u64
        requires { 0 < limit }
        ensures { result < limit }
    {
        self.number() % limit
    }

    /// A place below the length.
    pub fn place(&mut self, len: usize) -> usize
        requires { 0 < len }
        ensures { result < len }
    {
        self.below(len as u64) as usize
    }

    /// Whether one case of so many has come.
    pub fn once_in(&mut self, many: u64) -> bool
        requires { 0 < many }
    {
        self.below(many) == 0
    }
}
