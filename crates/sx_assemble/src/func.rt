//! Dumps of static functions.

ghost use Rattle.std.specs.Prelude.{◌≡◌, ◌≢◌, IfOk, MatchResult, length};
ghost use Rattle.sx_spec.specs.Parts.{least_width as least_width_of, parts_of};
ghost use Rattle.sx_spec.specs.Values.{plain_values};
ghost use Rattle.sx_parts.specs.Assembling.{IsAssembled, IsFuncPlan};
ghost use Rattle.sx_parts.specs.Sectioning.{AreSectionsOf, StopsParts};

use std::alloc::{AllocError, Global};
use sx_bits::KeyList;
use sx_parts::layout::SectionBuf;
use sx_parts::parts::{Stop, build_least};
use sx_parts::signatures::sign_keys;
use sx_parts::signed::with_signatures;
use sx_parts::{Assembled, finished, header_of};
use sx_sig::Plan;

/// The sections of the kind `func`: the static function that gives each key its value, and what a
/// signed dump keeps of the keys. A value takes as many bits as the greatest has.
fn func_sections(
    alloc: Global,
    keys: &KeyList,
    values: &[u64],
    plan: &Plan,
    seed: u64,
) -> Result<Vec<SectionBuf>, Stop>
    requires plan { IsFuncPlan plan.now }
    requires values { length values.now ≡ length keys.now.lines }
    ensures { let parts = parts_of plan.now (least_width_of values.now) keys.now.lines values.now in
        MatchResult result (λ s. AreSectionsOf plan.now keys.now.lines seed parts s.items)
        (StopsParts plan.now seed parts) }
{
    let sigs = sign_keys(alloc, keys, seed, plan.sig_bits)?;
    let function = build_least(alloc, 0, &sigs, values, plan.method)?;
    let sections = vec![in alloc; SectionBuf::Function(function)]?;
    Ok(with_signatures(alloc, sections, &sigs, plan.signed)?)
}

/// Builds the static function that gives each key its value, and lays out its dump in words, or
/// tells why the seed doesn't work. The plan is one of `func` with signatures of at most 192 bits, and
/// there are as many values as keys, which are the keys' numbers where the plan is signed. A value
/// takes as many bits as the greatest has.
///
/// # Errors
///
/// Want of memory.
pub(crate) fn assemble_func(
    alloc: Global,
    keys: &KeyList,
    values: &[u64],
    plan: &Plan,
    seed: u64,
) -> Result<Assembled, AllocError>
    requires plan { IsFuncPlan plan.now }
    requires values { length values.now ≡ length keys.now.lines }
    requires ranks { plan.now.signed ≢ 0
        → values.now ≡ plain_values (length keys.now.lines) }
    ensures { IfOk result (IsAssembled keys.now.lines values.now plan.now seed) }
{
    let sections = func_sections(alloc, keys, values, plan, seed);
    finished(alloc, &header_of(keys, plan, seed), sections)
}
