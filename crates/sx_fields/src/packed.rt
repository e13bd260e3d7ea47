//! Fields in words of a bank.
ghost use Rattle.std.specs.Prelude.{◌≡◌, ◌+◌, ◌*◌, ◌<◌, ◌≤◌, ◌^◌, All, drop, length, slice_index};
ghost use Rattle.sx_spec.specs.Fields.{fields, words_for};

use crate::bank::WordBank;
use crate::fields::Fields;
use crate::place::{across, inside};
use std::alloc::AllocError;
use std::sync::ledger::Ledger;
use sx_steps::Steps;

/// Numbers of `width` bits in the words of a bank from a word on, without gaps, the lowest bits first.
#[derive(Copy)]
pub struct Packed<B: WordBank + Copy> {
    bank: B,
    first: usize,
    len: usize,
    width: u32,
    ghost narrow: { width ≤ 64 },
    ghost short: { len ≤ 2 ^ 32 },
    ghost within: { first + words_for (len * width) ≤ length (B.words_of bank) },
    ghost long: { length (B.words_of bank) < 2 ^ 64 },
    ghost small: { All (λ w. w < 2 ^ 64) (B.words_of bank) },
}

impl<B: WordBank + Copy> Clone for Packed<B> {
    ghost is_clone = { λ x y. y ≡ x };

    fn clone(&self) -> Result<Self, AllocError> {
        Ok(*self)
    }
}

impl<B: WordBank + Copy> Packed<B> {
    /// The `len` fields of `width` bits from word `first` on.
    pub fn new(bank: B, first: usize, len: usize, width: u32) -> Self
        requires narrow { width ≤ 64 }
        requires short { len ≤ 2 ^ 32 }
        requires within { first + words_for (len * width) ≤ length (B.words_of bank) }
        ensures items { ⟦<Packed<B> as Fields>⟧.items result
            ≡ fields width len (drop first (B.words_of bank)) }
        ensures len { length (⟦<Packed<B> as Fields>⟧.items result) ≡ len }
        ensures width { ⟦<Packed<B> as Fields>⟧.bits result ≡ width }
        ensures cost { ⟦<Packed<B> as Fields>⟧.ticks result ≡ 2 }
    {
        let _words = bank.words();
        Packed {
            bank,
            first,
            len,
            width,
        }
    }

    /// Number `i`, in at most two ticks.
    pub fn read<L: Ledger>(&self, i: usize, steps: &mut Steps<L>) -> u64
        requires { i < length (⟦<Packed<B> as Fields>⟧.items self.now) }
        ensures value { result ≡ slice_index (⟦<Packed<B> as Fields>⟧.items self.now) i }
        ensures counted { steps.old ≤ steps.new }
        ensures cost { steps.new ≤ steps.old + 2 }
    {
        if self.width == 0 {
            return 0;
        }
        let at = i * self.width as usize;
        let word = self.first + at / 64;
        let shift = (at % 64) as u32;
        let low = self.bank.word(word, steps);
        if shift + self.width <= 64 {
            return inside(low, shift, self.width);
        }
        let high = self.bank.word(word + 1, steps);
        across(low, high, shift, self.width)
    }
}

impl<B: WordBank + Copy> Fields for Packed<B> {
    ghost items = { λ p. fields p.width p.len (drop p.first (B.words_of p.bank)) };

    ghost bits = { λ p. p.width };

    ghost ticks = { λ _. 2 };

    fn len(&self) -> usize {
        self.len
    }

    fn width(&self) -> u32 {
        self.width
    }

    fn cost(&self) -> u64 {
        2
    }

    fn get<L: Ledger>(&self, i: usize, steps: &mut Steps<L>) -> u64 {
        self.read(i, steps)
    }
}
