//! The distributor that reads a string's offset, and its block by fat binary search.

ghost use Rattle.std.specs.Prelude.{◌≡◌, ◌+◌, ◌*◌, ◌≤◌, None, length};
ghost use Rattle.sx_spec_strings.specs.Bits.{tagged};
ghost use Rattle.sx_spec_strings.specs.Numbers.{binary_digits};
ghost use Rattle.sx_spec_kinds.specs.Blocks.{block_size};
ghost use Rattle.sx_spec_kinds.specs.Zfast.{zfast_reply};
ghost use Rattle.sx_spec.specs.Signature.{signature};
ghost use Rattle.sx_bits.specs.Views.{bits_of};
ghost use Rattle.sx_static.specs.Reading.{answers_by};
ghost use Rattle.sx_zfast.specs.Maps.{map_read};
ghost use Rattle.sx_zfast.specs.Views.{corrected_by, nodes_read};

use std::sync::ledger::Ledger;
use sx_bits::BitView;
use sx_fields::bank::WordBank;
use sx_lcp::place_in;
use sx_sig::Signature;
use sx_static::FuncView;
use sx_steps::Steps;
use sx_zfast::ZfastView;

/// A distributor by fat binary search, that answers from a bank of words.
#[derive(Drop)]
pub struct ZfastDistributor<B: WordBank + Copy> {
    /// Gives a key its offset in its block.
    pub offsets: FuncView<B>,
    /// Gives a string its block.
    pub blocks: ZfastView<B>,
    /// How many keys there are.
    pub keys: u64,
    /// The binary logarithm of the number of keys of a block.
    pub log_bucket: u32,
    ghost bucket: { log_bucket ≤ 12 },
}

impl<B: WordBank + Copy> ZfastDistributor<B> {
    /// The distributor of so many keys in blocks of 2 to the power `log_bucket`, which is at most 12.
    pub fn new(
        offsets: FuncView<B>,
        blocks: ZfastView<B>,
        keys: u64,
        log_bucket: u32,
    ) -> ZfastDistributor<B>
        requires { log_bucket ≤ 12 }
        ensures offsets { result.offsets ≡ offsets }
        ensures blocks { result.blocks ≡ blocks }
        ensures keys { result.keys ≡ keys }
        ensures bucket { result.log_bucket ≡ log_bucket }
    {
        ZfastDistributor {
            offsets,
            blocks,
            keys,
            log_bucket,
        }
    }

    /// The reply to a string under a seed, with so many bits of a signature, at most 192, and with its
    /// own signature: the rank of a key, and for any other string a number below the number of keys or
    /// none. At most 12 words are read for each binary digit of the string's length, 3 for each of the
    /// number of corrections, and 32.
    pub fn answer<L: Ledger>(
        &self,
        view: &BitView<'_>,
        sig: &Signature,
        seed: u64,
        sig_bits: u32,
        steps: &mut Steps<L>,
    ) -> Option<u64>
        requires few { sig_bits ≤ 192 }
        requires signed { sig.now ≡ signature seed sig_bits (tagged None (bits_of view.now)) }
        ensures value { result ≡ zfast_reply self.now.keys (block_size self.now.log_bucket)
            (answers_by self.now.offsets seed sig_bits) self.now.blocks.delimiters
            (nodes_read self.now.blocks) (map_read self.now.blocks.map seed sig_bits)
            (answers_by self.now.blocks.codes seed sig_bits)
            (corrected_by self.now.blocks.corrections seed sig_bits) (bits_of view.now) }
        ensures counted { steps.old ≤ steps.new }
        ensures cost { steps.new ≤ steps.old + (12 * binary_digits (length (bits_of view.now))
            + 3 * binary_digits self.now.blocks.corrections.count + 32) }
    {
        let block = self.blocks.block(view, sig, seed, sig_bits, steps)?;
        let offset = self.offsets.answer(sig, steps);
        place_in(block, offset, self.keys, self.log_bucket)
    }
}
