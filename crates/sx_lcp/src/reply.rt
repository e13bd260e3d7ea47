//! The end of a reply: the block of a string's prefix, and the place of an offset in the block.

ghost use Rattle.std.specs.Prelude.{◌≡◌, ◌+◌, ◌≤◌, ◌<◌, ◌^◌};
ghost use Rattle.sx_spec_kinds.specs.Blocks.{block_size, place};
ghost use Rattle.sx_bits.specs.Views.{bits_of};
ghost use Rattle.sx_lcp.specs.Views.{block_at};
ghost use Rattle.sx_static.specs.Reading.{answers_by};

use std::sync::ledger::Ledger;
use sx_bits::BitView;
use sx_fields::bank::WordBank;
use sx_sig::sign;
use sx_static::FuncView;
use sx_steps::Steps;

/// The number that `prefixes` gives the first `len` bits of a string, or none where the string is
/// shorter. At most eight words are read.
#[inline(always)]
pub(crate) fn block_by_prefix<B: WordBank + Copy, L: Ledger>(
    prefixes: &FuncView<B>,
    len: u64,
    view: &BitView<'_>,
    seed: u64,
    sig_bits: u32,
    steps: &mut Steps<L>,
) -> Option<u64>
    requires { sig_bits ≤ 192 }
    ensures value { result ≡ block_at (answers_by prefixes.now seed sig_bits) len
        (bits_of view.now) }
    ensures counted { steps.old ≤ steps.new }
    ensures cost { steps.new ≤ steps.old + 8 }
{
    if u64::from(view.len()) < len {
        return None;
    }
    let sig = sign(seed, &view.prefix(len as u32), None, sig_bits);
    Some(prefixes.answer(&sig, steps))
}

/// The place of an offset in a block of 2 to the power `log_bucket` keys, at most 12, or none where it
/// isn't below the number of keys.
#[inline(always)]
pub fn place_in(block: u64, offset: u64, keys: u64, log_bucket: u32) -> Option<u64>
    requires { log_bucket ≤ 12 }
    ensures { result ≡ place keys (block_size log_bucket) block offset }
{
    // a string that is no key may have any block, and then the product wants more than 64 bits
    let rank = (u128::from(block) << log_bucket) + u128::from(offset);
    if rank < u128::from(keys) {
        Some(rank as u64)
    } else {
        None
    }
}
