//! The distributor that reads one number for a string, which gives its offset and the length of its
//! block's prefix.

ghost use Rattle.std.specs.Prelude.{◌≡◌, ◌+◌, ◌≤◌, ◌<◌, ◌^◌, None};
ghost use Rattle.sx_spec_strings.specs.Bits.{tagged};
ghost use Rattle.sx_spec_kinds.specs.Blocks.{block_size};
ghost use Rattle.sx_spec_kinds.specs.Lcp.{lcp_reply};
ghost use Rattle.sx_spec.specs.Signature.{signature};
ghost use Rattle.sx_bits.specs.Views.{bits_of};
ghost use Rattle.sx_static.specs.Reading.{answers_by};

use crate::reply::{block_by_prefix, place_in};
use std::alloc::AllocError;
use std::sync::ledger::Ledger;
use sx_bits::BitView;
use sx_fields::bank::WordBank;
use sx_sig::Signature;
use sx_static::FuncView;
use sx_steps::Steps;

/// A distributor by the lengths of common prefixes that answers from a bank of words.
#[derive(Copy)]
pub struct LcpView<B: WordBank + Copy> {
    /// Gives a key its offset in its block and, times the size of a block, the length of the block's prefix.
    pub lengths: FuncView<B>,
    /// Gives the prefix of a block the number of the block.
    pub prefixes: FuncView<B>,
    /// How many keys there are.
    pub keys: u64,
    /// The binary logarithm of the number of keys of a block.
    pub log_bucket: u32,
    ghost few: { keys < 2 ^ 32 },
    ghost bucket: { log_bucket ≤ 12 },
}

impl<B: WordBank + Copy> Clone for LcpView<B> {
    ghost is_clone = { λ x y. y ≡ x };

    fn clone(&self) -> Result<Self, AllocError> {
        Ok(*self)
    }
}

impl<B: WordBank + Copy> LcpView<B> {
    /// The distributor of fewer than 2 to the power 32 keys in blocks of 2 to the power
    /// `log_bucket`, which is at most 12.
    pub fn new(
        lengths: FuncView<B>,
        prefixes: FuncView<B>,
        keys: u64,
        log_bucket: u32,
    ) -> LcpView<B>
        requires few { keys < 2 ^ 32 }
        requires bucket { log_bucket ≤ 12 }
        ensures lengths { result.lengths ≡ lengths }
        ensures prefixes { result.prefixes ≡ prefixes }
        ensures keys { result.keys ≡ keys }
        ensures bucket { result.log_bucket ≡ log_bucket }
    {
        LcpView {
            lengths,
            prefixes,
            keys,
            log_bucket,
        }
    }

    /// The reply to a string under a seed, with so many bits of a signature, at most 192, and with its
    /// own signature: the rank of a key, and for any other string a number below the number of keys or
    /// none. At most 16 words are read.
    #[inline(always)]
    pub fn answer<L: Ledger>(
        &self,
        view: &BitView<'_>,
        sig: &Signature,
        seed: u64,
        sig_bits: u32,
        steps: &mut Steps<L>,
    ) -> Option<u64>
        requires kept { sig_bits ≤ 192 }
        requires signed { sig.now ≡ signature seed sig_bits (tagged None (bits_of view.now)) }
        ensures value { result ≡ lcp_reply self.now.keys (block_size self.now.log_bucket)
            (answers_by self.now.lengths seed sig_bits)
            (answers_by self.now.prefixes seed sig_bits) (bits_of view.now) }
        ensures counted { steps.old ≤ steps.new }
        ensures cost { steps.new ≤ steps.old + 16 }
    {
        let number = self.lengths.answer(sig, steps);
        let len = number >> self.log_bucket;
        let offset = number % (1 << self.log_bucket);
        let block = block_by_prefix(&self.prefixes, len, view, seed, sig_bits, steps)?;
        place_in(block, offset, self.keys, self.log_bucket)
    }
}
