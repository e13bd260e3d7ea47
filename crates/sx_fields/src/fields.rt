//! Lists of numbers of a fixed width.
ghost use Rattle.std.specs.Prelude.{◌≡◌, ◌+◌, ◌<◌, ◌≤◌, ◌^◌, ℕ, List, All, length, slice_index, slice_set};

use std::sync::ledger::Ledger;
use sx_steps::Steps;

/// A list of numbers, each below 2 to its width, that are read at a bounded cost.
pub trait Fields {
    ghost items: { Self → List ℕ };

    ghost bits: { Self → ℕ };

    ghost ticks: { Self → ℕ };

    /// How many numbers there are.
    fn len(&self) -> usize
        ensures { result ≡ length (items self.now) };

    /// How many bits each number has, at most 64.
    fn width(&self) -> u32
        ensures width { result ≡ bits self.now }
        ensures narrow { result ≤ 64 }
        ensures fit { All (λ x. x < 2 ^ bits self.now) (items self.now) };

    /// How many ticks a read takes at most.
    fn cost(&self) -> u64
        ensures { result ≡ ticks self.now };

    /// Number `i`, in at most `cost` ticks.
    fn get<L: Ledger>(&self, i: usize, steps: &mut Steps<L>) -> u64
        requires { i < length (items self.now) }
        ensures value { result ≡ slice_index (items self.now) i }
        ensures counted { steps.old ≤ steps.new }
        ensures cost { steps.new ≤ steps.old + ticks self.now };
}

/// A list of numbers that may be changed, one at a time.
pub trait FieldsMut: Fields {
    /// Makes number `i` equal to `v`. All else stays.
    fn set(&mut self, i: usize, v: u64)
        requires within { i < length (Self.items self.old) }
        requires fits { v < 2 ^ Self.bits self.old }
        ensures items { Self.items self.new ≡ slice_set (Self.items self.old) i v }
        ensures width { Self.bits self.new ≡ Self.bits self.old }
        ensures cost { Self.ticks self.new ≡ Self.ticks self.old };
}
