//! Packed numbers that own their words.
ghost use Rattle.std.specs.Prelude.{◌≡◌, ◌*◌, ◌+◌, ◌<◌, ◌≤◌, ◌^◌, All, IfOk, length, replicate};
ghost use Rattle.sx_spec.specs.Fields.{packed};

use crate::bank::Words;
use crate::fields::{Fields, FieldsMut};
use crate::packed::Packed;
use crate::place::put;
use std::alloc::{AllocError, Global};
use std::marker::Model;
use std::sync::ledger::Ledger;
use sx_steps::Steps;

/// Numbers of one width from 0 to 64 bits, packed into 64-bit words without gaps, the lowest bits first.
///
/// In contracts it is the width and the numbers.
#[derive(Drop)]
pub struct PackedBuf {
    words: Vec<u64>,
    len: usize,
    width: u32,
}

impl Model for PackedBuf {
    ghost use Rattle.std.specs.Prelude.{◌≡◌, ◌*◌, ◌<◌, ◌≤◌, ◌^◌, All, length, true};
    ghost use Rattle.sx_spec.specs.Fields.{fields, words_for, is_zero_after};
    ghost use Rattle.sx_fields.specs.Numbers.{Numbers};

    ghost Value = { Numbers };

    ghost view = { λ p. record { width = p.width; items = fields p.width p.len p.words.items } };

    ghost invariant = { λ p.
        (p.width ≤ 64)
        × (p.len ≤ 2 ^ 32)
        × (length p.words.items ≡ words_for (p.len * p.width))
        × All (λ w. w < 2 ^ 64) p.words.items
        × (is_zero_after (p.len * p.width) p.words.items ≡ true) };
}

impl PackedBuf {
    /// As many zeros as `len`, of `width` bits. No other call takes memory.
    ///
    /// # Errors
    /// Only for want of memory.
    pub fn zeroed(alloc: Global, len: usize, width: u32) -> Result<PackedBuf, AllocError>
        requires narrow { width ≤ 64 }
        requires short { len ≤ 2 ^ 32 }
        ensures width { IfOk result (λ p. p.width ≡ width) }
        ensures items { IfOk result (λ p. p.items ≡ replicate len 0) }
    {
        let bits = len * width as usize;
        let words = vec![in alloc; 0u64; bits.div_ceil(64)]?;
        Ok(PackedBuf { words, len, width })
    }

    /// The words, as many as the numbers need. The bits after the last number are zero.
    pub fn words(&self) -> &[u64]
        ensures words { result.now ≡ packed self.now.width self.now.items }
        ensures small { All (λ w. w < 2 ^ 64) result.now }
    {
        self.words.as_slice()
    }

    /// The words themselves.
    pub fn into_words(self) -> Vec<u64>
        ensures { result.items ≡ packed self.width self.items }
    {
        self.words
    }
}

impl Fields for PackedBuf {
    ghost items = { λ p. p.items };

    ghost bits = { λ p. p.width };

    ghost ticks = { λ _. 2 };

    fn len(&self) -> usize {
        self.len
    }

    fn width(&self) -> u32 {
        self.width
    }

    fn cost(&self) -> u64 {
        2
    }

    fn get<L: Ledger>(&self, i: usize, steps: &mut Steps<L>) -> u64 {
        let words = Words::new(self.words.as_slice());
        Packed::new(words, 0, self.len, self.width).get(i, steps)
    }
}

impl FieldsMut for PackedBuf {
    fn set(&mut self, i: usize, v: u64) {
        put(&mut self.words, i, self.width, v);
    }
}
