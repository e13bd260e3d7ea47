//! The numbers that a signed dump keeps of its keys, behind the sections of its kind.

ghost use Rattle.std.specs.Prelude.{◌≡◌, ◌≢◌, ◌<◌, ◌≤◌, ◌^◌, IfOk, length, map};
ghost use Rattle.sx_spec.specs.Reply.{top_bits};
ghost use Rattle.sx_bits.specs.KeyLists.{IsKeyList};
ghost use Rattle.sx_parts.specs.Assembling.{key_signature};
ghost use Rattle.sx_parts.specs.Sectioning.{AreSigned};

use crate::layout::SectionBuf;
use crate::numbers::members_to;
use crate::signatures::sign_keys;
use std::alloc::{AllocError, Global};
use sx_bits::KeyList;
use sx_fields::packed_buf::PackedBuf;
use sx_sig::{Plan, Signature};
use sx_signed::keep;

/// The first `width` bits of the last word of each signature, in the order of the signatures. The
/// places, 4 bytes a key, are let go before the list is handed on.
pub fn signature_list(
    alloc: Global,
    sigs: &[Signature],
    width: u32,
) -> Result<PackedBuf, AllocError>
    requires narrow { width ≤ 64 }
    requires few { length sigs.now < 2 ^ 32 }
    ensures width { IfOk result (λ list. list.width ≡ width) }
    ensures items { IfOk result (λ list. list.items ≡ map (top_bits width) sigs.now) }
{
    let places = members_to(alloc, sigs.len() as u32)?;
    keep(alloc, sigs, &places, width)
}

/// The sections, and behind them a list of `width` bits of each key's signature; the sections alone
/// where the width is 0.
pub fn with_signatures(
    alloc: Global,
    mut sections: Vec<SectionBuf>,
    sigs: &[Signature],
    width: u32,
) -> Result<Vec<SectionBuf>, AllocError>
    requires narrow { width ≤ 64 }
    requires few { length sigs.now < 2 ^ 32 }
    ensures { IfOk result (λ all. AreSigned width sigs.now sections.items all.items) }
{
    if width == 0 {
        return Ok(sections);
    }
    sections.push(SectionBuf::Numbers(signature_list(alloc, sigs, width)?))?;
    Ok(sections)
}

/// The same for a kind that needs no signatures itself: keys are signed only where the plan is.
pub fn with_key_signatures(
    alloc: Global,
    sections: Vec<SectionBuf>,
    keys: &KeyList,
    plan: &Plan,
    seed: u64,
) -> Result<Vec<SectionBuf>, AllocError>
    requires bits { plan.now.sig_bits ≤ 192 }
    requires narrow { plan.now.signed ≤ 64 }
    ensures { IfOk result (λ all. AreSigned plan.now.signed
        (map (key_signature seed plan.now.sig_bits) keys.now.lines) sections.items all.items) }
{
    if plan.signed == 0 {
        return Ok(sections);
    }
    let sigs = sign_keys(alloc, keys, seed, plan.sig_bits)?;
    with_signatures(alloc, sections, &sigs, plan.signed)
}
