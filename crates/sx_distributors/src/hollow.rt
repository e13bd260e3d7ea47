//! The distributor that reads a string's offset, and its block by a hollow trie of delimiters.

ghost use Rattle.std.specs.Prelude.{◌≡◌, ◌+◌, ◌*◌, ◌≤◌, None, length};
ghost use Rattle.sx_spec_strings.specs.Bits.{tagged};
ghost use Rattle.sx_spec_kinds.specs.Blocks.{block_size};
ghost use Rattle.sx_spec_kinds.specs.HollowDistributor.{hollow_dist_reply};
ghost use Rattle.sx_spec.specs.Reply.{gaps};
ghost use Rattle.sx_spec.specs.Signature.{signature};
ghost use Rattle.sx_bits.specs.Views.{bits_of};
ghost use Rattle.sx_static.specs.Reading.{answers_by};
ghost use Rattle.sx_hollow.specs.Views.{sums_read};

use std::sync::ledger::Ledger;
use sx_bits::BitView;
use sx_fields::bank::WordBank;
use sx_hollow::HollowDistView;
use sx_lcp::place_in;
use sx_sig::Signature;
use sx_static::FuncView;
use sx_steps::Steps;

/// A distributor by a hollow trie of delimiters, that answers from a bank of words.
#[derive(Drop)]
pub struct HollowDistributor<B: WordBank + Copy, D: WordBank> {
    /// Gives a key its offset in its block.
    pub offsets: FuncView<B>,
    /// Gives a string its block.
    pub blocks: HollowDistView<B, D>,
    /// How many keys there are.
    pub keys: u64,
    /// The binary logarithm of the number of keys of a block.
    pub log_bucket: u32,
    ghost bucket: { log_bucket ≤ 12 },
}

impl<B: WordBank + Copy, D: WordBank> HollowDistributor<B, D> {
    /// The distributor of so many keys in blocks of 2 to the power `log_bucket`, which is at most 12.
    pub fn new(
        offsets: FuncView<B>,
        blocks: HollowDistView<B, D>,
        keys: u64,
        log_bucket: u32,
    ) -> HollowDistributor<B, D>
        requires { log_bucket ≤ 12 }
        ensures offsets { result.offsets ≡ offsets }
        ensures blocks { result.blocks ≡ blocks }
        ensures keys { result.keys ≡ keys }
        ensures bucket { result.log_bucket ≡ log_bucket }
    {
        HollowDistributor {
            offsets,
            blocks,
            keys,
            log_bucket,
        }
    }

    /// The reply to a string of at least eight bits under a seed, with so many bits of a signature, at
    /// most 192, and with its own signature: the rank of a key, and for any other string a number below
    /// the number of keys or none. At most 170 words for each bit of the string and 16 are read.
    pub fn answer<L: Ledger>(
        &self,
        view: &BitView<'_>,
        sig: &Signature,
        seed: u64,
        sig_bits: u32,
        steps: &mut Steps<L>,
    ) -> Option<u64>
        requires whole { 8 ≤ length (bits_of view.now) }
        requires few { sig_bits ≤ 192 }
        requires signed { sig.now ≡ signature seed sig_bits (tagged None (bits_of view.now)) }
        ensures value { result ≡ hollow_dist_reply self.now.keys (block_size self.now.log_bucket)
            (gaps (sums_read self.now.blocks.left)) (gaps (sums_read self.now.blocks.skip))
            (answers_by self.now.offsets seed sig_bits)
            (answers_by self.now.blocks.turns seed sig_bits) self.now.blocks.delimiters
            (bits_of view.now) }
        ensures counted { steps.old ≤ steps.new }
        ensures cost { steps.new ≤ steps.old + (170 * length (bits_of view.now) + 16) }
    {
        let block = self.blocks.block(view, seed, sig_bits, steps)?;
        let offset = self.offsets.answer(sig, steps);
        place_in(block, offset, self.keys, self.log_bucket)
    }
}
