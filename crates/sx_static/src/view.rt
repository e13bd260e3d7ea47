//! A function read from a bank of words.

ghost use Rattle.std.specs.Prelude.{◌≡◌, ◌+◌, ◌≤◌, ◌<◌, ◌^◌, length};
ghost use Rattle.sx_spec.specs.Chunks.{chunk_bits as chunk_bits_of, chunk_count as chunk_count_of};
ghost use Rattle.sx_spec.specs.StaticFunction.{value_of};
ghost use Rattle.sx_static.specs.Viewing.{IsViewed, viewed};

use crate::Signature;
use crate::section::{chunk_count, start_of, try_of};
use std::alloc::AllocError;
use std::sync::ledger::Ledger;
use sx_fields::bank::WordBank;
use sx_fields::packed::Packed;
use sx_sig::{chunk_bits, chunk_of, places};
use sx_steps::Steps;

/// A function whose chunk table and cells stand in a bank from word `first` on.
#[derive(Copy)]
pub struct FuncView<B: WordBank + Copy> {
    pub bank: B,
    pub first: usize,
    /// How many bits a cell has.
    pub width: u32,
    /// How many pairs the function was built from.
    pub pairs: u32,
    /// How many bits number the chunks.
    bits: u32,
    /// The first word of the cells.
    cells: usize,
    ghost stands: { IsViewed (B.words_of bank) first width pairs },
    ghost numbered: { bits ≡ chunk_bits_of pairs },
    ghost few: { bits ≤ 22 },
    ghost behind: { cells ≡ first + chunk_count_of pairs + 1 },
    ghost far: { length (B.words_of bank) < 2 ^ 64 },
}

impl<B: WordBank + Copy> Clone for FuncView<B> {
    ghost is_clone = { λ x y. y ≡ x };

    fn clone(&self) -> Result<Self, AllocError> {
        Ok(*self)
    }
}

impl<B: WordBank + Copy> FuncView<B> {
    /// The function of `pairs` pairs whose chunk table stands from word `first` on, with its cells of
    /// `width` bits, at most 64, behind it.
    pub fn new(bank: B, first: usize, width: u32, pairs: u32) -> FuncView<B>
        requires stands { IsViewed (B.words_of bank) first width pairs }
        ensures bank { result.bank ≡ bank }
        ensures first { result.first ≡ first }
        ensures width { result.width ≡ width }
        ensures pairs { result.pairs ≡ pairs }
    {
        // a bank says that it has fewer than 2^64 words, so no place in it overflows
        let _ = bank.words();
        let bits = chunk_bits(pairs);
        let cells = first + chunk_count(pairs) + 1;
        FuncView {
            bank,
            first,
            width,
            pairs,
            bits,
            cells,
        }
    }

    /// The value of a signature, in at most eight reads of words: for a signature that the function
    /// was built from its value, for any other whatever the cells give.
    #[inline(always)]
    pub fn answer<L: Ledger>(&self, sig: &Signature, steps: &mut Steps<L>) -> u64
        ensures value { result ≡ value_of (viewed (B.words_of self.now.bank) self.now.first
            self.now.width self.now.pairs) sig.now }
        ensures counted { steps.old ≤ steps.new }
        ensures cost { steps.new ≤ steps.old + 8 }
    {
        // the chunk of a first word of 64 bits is one of the table's
        prove!(sig.w0 <= u64::MAX);
        let at = self.first + chunk_of(sig, self.bits) as usize;
        let here = self.bank.word(at, steps);
        let next = self.bank.word(at + 1, steps);
        let start = start_of(here);
        let end = start_of(next);
        let segment = ((end - start) / 3) as u32;
        if segment == 0 {
            return 0;
        }
        let edge = places(sig, try_of(here), segment);
        let cells = Packed::new(self.bank, self.cells, end as usize, self.width);
        let start = start as usize;
        cells.read(start + edge.a as usize, steps)
            ^ cells.read(start + edge.b as usize, steps)
            ^ cells.read(start + edge.c as usize, steps)
    }
}
