//! The distributor that reads a string's offset, and the length of its block's prefix by a two-step
//! code.

ghost use Rattle.std.specs.Prelude.{◌≡◌, ◌+◌, ◌≤◌, ◌<◌, ◌^◌, None};
ghost use Rattle.sx_fields.specs.declared.fields.Fields.{Ghosts as FieldGhosts};
ghost use Rattle.sx_spec_strings.specs.Bits.{tagged};
ghost use Rattle.sx_spec_kinds.specs.Blocks.{block_size};
ghost use Rattle.sx_spec_kinds.specs.Lcp.{lcp2_reply};
ghost use Rattle.sx_bits.specs.Views.{bits_of};
ghost use Rattle.sx_spec.specs.Signature.{signature};
ghost use Rattle.sx_spec.specs.StaticFunction.{value_of};
ghost use Rattle.sx_lcp.specs.Views.{length_by};
ghost use Rattle.sx_static.specs.Reading.{answers_by, function_read};

use crate::reply::{block_by_prefix, place_in};
use std::alloc::AllocError;
use std::sync::ledger::Ledger;
use sx_bits::BitView;
use sx_fields::bank::WordBank;
use sx_fields::fields::Fields;
use sx_fields::packed::Packed;
use sx_sig::Signature;
use sx_static::FuncView;
use sx_steps::Steps;

/// A distributor by two-step codes of the lengths of common prefixes, that answers from a bank of words.
#[derive(Copy)]
pub struct Lcp2View<B: WordBank + Copy> {
    /// Gives a key its offset in its block.
    pub offsets: FuncView<B>,
    /// Gives a key the code of the length of its block's prefix.
    pub codes: FuncView<B>,
    /// The lengths that have codes of their own.
    pub table: Packed<B>,
    /// Gives a key with an escaped length this length.
    pub escaped: FuncView<B>,
    /// Gives the prefix of a block the number of the block.
    pub prefixes: FuncView<B>,
    /// How many keys there are.
    pub keys: u64,
    /// The binary logarithm of the number of keys of a block.
    pub log_bucket: u32,
    ghost few: { keys < 2 ^ 32 },
    ghost bucket: { log_bucket ≤ 12 },
}

impl<B: WordBank + Copy> Clone for Lcp2View<B> {
    ghost is_clone = { λ x y. y ≡ x };

    fn clone(&self) -> Result<Self, AllocError> {
        Ok(*self)
    }
}

impl<B: WordBank + Copy> Lcp2View<B> {
    /// The distributor of fewer than 2 to the power 32 keys in blocks of 2 to the power
    /// `log_bucket`, which is at most 12.
    pub fn new(
        offsets: FuncView<B>,
        codes: FuncView<B>,
        table: Packed<B>,
        escaped: FuncView<B>,
        prefixes: FuncView<B>,
        keys: u64,
        log_bucket: u32,
    ) -> Lcp2View<B>
        requires few { keys < 2 ^ 32 }
        requires bucket { log_bucket ≤ 12 }
        ensures offsets { result.offsets ≡ offsets }
        ensures codes { result.codes ≡ codes }
        ensures table { result.table ≡ table }
        ensures escaped { result.escaped ≡ escaped }
        ensures prefixes { result.prefixes ≡ prefixes }
        ensures keys { result.keys ≡ keys }
        ensures bucket { result.log_bucket ≡ log_bucket }
    {
        Lcp2View {
            offsets,
            codes,
            table,
            escaped,
            prefixes,
            keys,
            log_bucket,
        }
    }

    /// The reply to a string under a seed, with so many bits of a signature, at most 192, and with its
    /// own signature: the rank of a key, and for any other string a number below the number of keys or
    /// none. At most 34 words are read.
    #[inline(always)]
    pub fn answer<L: Ledger>(
        &self,
        view: &BitView<'_>,
        sig: &Signature,
        seed: u64,
        sig_bits: u32,
        steps: &mut Steps<L>,
    ) -> Option<u64>
        requires kept { sig_bits ≤ 192 }
        requires signed { sig.now ≡ signature seed sig_bits (tagged None (bits_of view.now)) }
        ensures value { result ≡ lcp2_reply self.now.keys (block_size self.now.log_bucket)
            (answers_by self.now.offsets seed sig_bits) (answers_by self.now.codes seed sig_bits)
            (⟦<Packed<B> as Fields>⟧.items self.now.table)
            (answers_by self.now.escaped seed sig_bits)
            (answers_by self.now.prefixes seed sig_bits) (bits_of view.now) }
        ensures counted { steps.old ≤ steps.new }
        ensures cost { steps.new ≤ steps.old + 34 }
    {
        let offset = self.offsets.answer(sig, steps);
        let len = self.length_of(sig, steps);
        let block = block_by_prefix(&self.prefixes, len, view, seed, sig_bits, steps)?;
        place_in(block, offset, self.keys, self.log_bucket)
    }

    /// The length that the code of a signature stands for. At most 16 words are read.
    #[inline(always)]
    fn length_of<L: Ledger>(&self, sig: &Signature, steps: &mut Steps<L>) -> u64
        ensures value { result ≡ length_by (⟦<Packed<B> as Fields>⟧.items self.now.table)
            (value_of (function_read self.now.codes) sig.now)
            (value_of (function_read self.now.escaped) sig.now) }
        ensures counted { steps.old ≤ steps.new }
        ensures cost { steps.new ≤ steps.old + 16 }
    {
        let code = self.codes.answer(sig, steps);
        if code < self.table.len() as u64 {
            self.table.read(code as usize, steps)
        } else {
            self.escaped.answer(sig, steps)
        }
    }
}
