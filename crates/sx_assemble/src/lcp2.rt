//! Dumps of distributors by longest common prefixes whose lengths have two-step codes.

ghost use Rattle.std.specs.Prelude.{◌≡◌, ◌<◌, ◌≤◌, ◌^◌, [], All, IfOk, MatchResult, length, map, slice_index};
ghost use Rattle.sx_spec_kinds.specs.declared.Kind.TheVariants.{Lcp2};
ghost use Rattle.sx_spec.specs.declared.Method.TheVariants.{Mwhc};
ghost use Rattle.sx_spec_kinds.specs.Blocks.{block_size};
ghost use Rattle.sx_spec.specs.Parts.{least_width as least_width_of, parts_of};
ghost use Rattle.sx_static.specs.Answer.{IsDone, entries_of};
ghost use Rattle.sx_parts.specs.Assembling.{tries};
ghost use Rattle.sx_parts.specs.Ranking.{IsBlockPlan, IsRanked, offset_numbers as offset_numbers_of, signature_at};
ghost use Rattle.sx_parts.specs.Sectioning.{AreSectionsOf, StopsPart, StopsParts};
ghost use Rattle.sx_assemble.specs.KeyFunctions.{AreKeyFunctions, StopsKeyFunctions};

use crate::lcp::prefixes_function;
use std::alloc::{AllocError, Global};
use sx_bits::KeyList;
use sx_fields::packed_buf::PackedBuf;
use sx_lcp::{TwoStep, lcp_parts, two_step};
use sx_parts::layout::{SectionBuf, packed_list};
use sx_parts::numbers::{
    length_numbers, narrow_width, numbers_at, offset_numbers, offset_width, widened,
};
use sx_parts::parts::{Stop, build_least, build_part, failed};
use sx_parts::signatures::{sign_keys, signatures_at};
use sx_parts::signed::with_signatures;
use sx_parts::{Assembled, PartCause, finished, header_of};
use sx_sig::{Method, Plan, Signature};
use sx_static::{Both, FuncBuf, build_both};

/// The function of part 0, which gives each key its offset in its block.
pub(crate) fn offsets_function(
    alloc: Global,
    sigs: &[Signature],
    plan: &Plan,
) -> Result<FuncBuf, Stop>
    requires bucket { plan.now.log_bucket ≤ 12 }
    requires few { length sigs.now ≤ 2 ^ 27 }
    ensures built { let b = block_size plan.now.log_bucket in
        let numbers = offset_numbers_of b (length sigs.now) in
        MatchResult result
        (IsDone plan.now.method tries (least_width_of numbers) (entries_of sigs.now numbers))
        (StopsPart 0 plan.now.method (entries_of sigs.now numbers)) }
    ensures narrow { IfOk result (λ f. f.width ≤ 64) }
{
    let numbers = offset_numbers(alloc, sigs.len() as u32, plan.log_bucket)?;
    build_least(alloc, 0, sigs, &numbers, plan.method)
}

/// The function of part 1, which gives each key its code, in as many bits as a code has.
fn codes_function(
    alloc: Global,
    sigs: &[Signature],
    codes: &TwoStep,
    method: Method,
) -> Result<FuncBuf, Stop>
    requires numbers { length codes.now.codes.items ≡ length sigs.now }
    requires few { length sigs.now ≤ 2 ^ 27 }
    requires fit { All (λ c. c < 2 ^ codes.now.bits) codes.now.codes.items }
    requires narrow { codes.now.bits ≤ 64 }
    ensures { let entries = entries_of sigs.now codes.now.codes.items in
        MatchResult result (IsDone method tries codes.now.bits entries)
        (StopsPart 1 method entries) }
{
    let numbers = widened(alloc, &codes.codes)?;
    build_part(alloc, 1, sigs, &numbers, codes.bits, method)
}

/// The functions that give each key a number.
#[derive(Drop)]
pub(crate) struct KeyFunctions {
    /// The function of part 0.
    offsets: FuncBuf,
    /// The function of part 1.
    codes: FuncBuf,
}

/// The functions of parts 0 and 1. Where edges are peeled, these are taken away once for both.
fn key_functions(
    alloc: Global,
    sigs: &[Signature],
    codes: &TwoStep,
    plan: &Plan,
) -> Result<KeyFunctions, Stop>
    requires bucket { plan.now.log_bucket ≤ 12 }
    requires numbers { length codes.now.codes.items ≡ length sigs.now }
    requires few { length sigs.now ≤ 2 ^ 27 }
    requires fit { All (λ c. c < 2 ^ codes.now.bits) codes.now.codes.items }
    requires narrow { codes.now.bits ≤ 32 }
    ensures { let numbers = offset_numbers_of (block_size plan.now.log_bucket) (length sigs.now) in
        MatchResult result
        (AreKeyFunctions plan.now.method sigs.now numbers codes.now.codes.items codes.now.bits)
        (StopsKeyFunctions plan.now.method sigs.now numbers codes.now.codes.items) }
{
    match plan.method {
        Method::Mwhc => peeled_functions(alloc, sigs, codes, plan.log_bucket),
        Method::Gov3 => {
            let offsets = offsets_function(alloc, sigs, plan)?;
            let codes = codes_function(alloc, sigs, codes, plan.method)?;
            Ok(KeyFunctions { offsets, codes })
        }
    }
}

/// The functions of parts 0 and 1, built at once. A signature's number has its offset in the low bits, and above them its code.
fn peeled_functions(
    alloc: Global,
    sigs: &[Signature],
    codes: &TwoStep,
    log_bucket: u32,
) -> Result<KeyFunctions, Stop>
    requires bucket { log_bucket ≤ 12 }
    requires numbers { length codes.now.codes.items ≡ length sigs.now }
    requires few { length sigs.now ≤ 2 ^ 27 }
    requires fit { All (λ c. c < 2 ^ codes.now.bits) codes.now.codes.items }
    requires narrow { codes.now.bits ≤ 32 }
    ensures { let numbers = offset_numbers_of (block_size log_bucket) (length sigs.now) in
        MatchResult result
        (AreKeyFunctions Mwhc sigs.now numbers codes.now.codes.items codes.now.bits)
        (StopsKeyFunctions Mwhc sigs.now numbers codes.now.codes.items) }
{
    let numbers = length_numbers(alloc, &codes.codes, log_bucket)?;
    let low = offset_width(sigs.len() as u32, log_bucket);
    match build_both(alloc, sigs, &numbers, low, log_bucket, codes.bits)? {
        Both::Done { low, high } => Ok(KeyFunctions {
            offsets: low,
            codes: high,
        }),
        Both::Twins { first, second } => Err(failed(0, PartCause::Twins { first, second })),
        Both::Stuck { chunk, witnesses } => {
            Err(failed(0, PartCause::Stuck { chunk, witnesses }))
        }
    }
}

/// The function of part 2, which gives the keys of these numbers the lengths.
fn escaped_function(
    alloc: Global,
    sigs: &[Signature],
    lengths: &[u32],
    escaped: &[u32],
    method: Method,
) -> Result<FuncBuf, Stop>
    requires few { length escaped.now ≤ 2 ^ 27 }
    requires signed { All (λ i. i < length sigs.now) escaped.now }
    requires within { All (λ i. i < length lengths.now) escaped.now }
    ensures built { let numbers = map (λ i. slice_index lengths.now i) escaped.now in
        let entries = entries_of (map (signature_at sigs.now) escaped.now) numbers in
        MatchResult result (IsDone method tries (least_width_of numbers) entries)
        (StopsPart 2 method entries) }
    ensures narrow { IfOk result (λ f. f.width ≤ 64) }
{
    let chosen = signatures_at(alloc, sigs, escaped)?;
    let numbers = numbers_at(alloc, lengths, escaped)?;
    build_least(alloc, 2, &chosen, &numbers, method)
}

/// The table of the lengths that have codes, as wide as the greatest of all lengths.
fn table_list(alloc: Global, lengths: &[u32], table: &[u32]) -> Result<PackedBuf, AllocError>
    requires few { length table.now < 2 ^ 32 }
    requires fit { All (λ v. v < 2 ^ least_width_of lengths.now) table.now }
    ensures width { IfOk result (λ list. list.width ≡ least_width_of lengths.now) }
    ensures items { IfOk result (λ list. list.items ≡ table.now) }
{
    let width = narrow_width(lengths);
    packed_list(alloc, &widened(alloc, table)?, width)
}

/// The sections of the kind `lcp2`, and what a signed dump keeps of the keys.
fn lcp2_sections(
    alloc: Global,
    keys: &KeyList,
    plan: &Plan,
    seed: u64,
) -> Result<Vec<SectionBuf>, Stop>
    requires { IsBlockPlan Lcp2 plan.now }
    ensures { let parts = parts_of plan.now 0 keys.now.lines [] in
        MatchResult result (λ s. AreSectionsOf plan.now keys.now.lines seed parts s.items)
        (StopsParts plan.now seed parts) }
{
    let sigs = sign_keys(alloc, keys, seed, plan.sig_bits)?;
    let parts = lcp_parts(alloc, keys, plan.log_bucket)?;
    let coded = two_step(alloc, &parts.lengths)?;
    let functions = key_functions(alloc, &sigs, &coded, plan)?;
    let escaped = escaped_function(alloc, &sigs, &parts.lengths, &coded.escaped, plan.method)?;
    let prefixes = prefixes_function(alloc, 3, keys, &parts.prefixes, plan, seed)?;
    let table = table_list(alloc, &parts.lengths, &coded.table)?;
    let sections = vec![in alloc;
        SectionBuf::Function(functions.offsets),
        SectionBuf::Function(functions.codes),
        SectionBuf::Numbers(table),
        SectionBuf::Function(escaped),
        SectionBuf::Function(prefixes),
    ]?;
    Ok(with_signatures(alloc, sections, &sigs, plan.signed)?)
}

/// Builds the functions and the table of the kind `lcp2`, by which each key is answered its number,
/// and lays out their dump in words, or tells why the seed doesn't work. The plan is one of
/// `lcp2` with blocks of at most 2 to the power 12 keys and signatures of at most 192 bits.
/// Values of keys don't count.
///
/// # Errors
///
/// Want of memory.
pub(crate) fn assemble_lcp2(
    alloc: Global,
    keys: &KeyList,
    plan: &Plan,
    seed: u64,
) -> Result<Assembled, AllocError>
    requires { IsBlockPlan Lcp2 plan.now }
    ensures { IfOk result (IsRanked keys.now.lines plan.now seed) }
{
    let sections = lcp2_sections(alloc, keys, plan, seed);
    finished(alloc, &header_of(keys, plan, seed), sections)
}
