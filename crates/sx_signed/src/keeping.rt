//! The numbers that are kept of signatures.

ghost use Rattle.std.specs.Prelude.{◌≡◌, ◌<◌, ◌≤◌, ◌^◌, IfOk, length};
ghost use Rattle.sx_signed.specs.Keeping.{AreKept, ArePlaces};

use std::alloc::{AllocError, Global};
use sx_fields::fields::FieldsMut;
use sx_fields::packed_buf::PackedBuf;
use sx_sig::top_bits;
use sx_spec::Signature;

/// The first `width` bits, at most 64, of the last word of each signature, kept at its place. The
/// places are the numbers below the count of signatures, each once.
///
/// # Errors
///
/// Want of memory.
pub fn keep(
    alloc: Global,
    sigs: &[Signature],
    places: &[u32],
    width: u32,
) -> Result<PackedBuf, AllocError>
    requires narrow { width ≤ 64 }
    requires few { length sigs.now < 2 ^ 32 }
    requires count { length places.now ≡ length sigs.now }
    requires places { ArePlaces places.now }
    ensures width { IfOk result (λ list. list.width ≡ width) }
    ensures kept { IfOk result (λ list. AreKept width sigs.now places.now list.items) }
{
    let mut list = PackedBuf::zeroed(alloc, sigs.len(), width)?;
    for i in 0..sigs.len() {
        let sig = &sigs[i];
        // the highest bits of a word of 64 bits fit in the width
        prove!(sig.w2 <= u64::MAX);
        list.set(places[i] as usize, top_bits(sig, width));
    }
    Ok(list)
}
