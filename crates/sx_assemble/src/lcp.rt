//! Dumps of distributors by longest common prefixes.

ghost use Rattle.std.specs.Prelude.{◌≡◌, ◌≤◌, ◌^◌, [], IfOk, MatchResult, length, map};
ghost use Rattle.std.specs.List.{AllByRecursion};
ghost use Rattle.sx_spec_strings.specs.Bits.{key_bits};
ghost use Rattle.sx_spec_kinds.specs.declared.Kind.TheVariants.{Lcp};
ghost use Rattle.sx_spec_kinds.specs.Blocks.{block_size};
ghost use Rattle.sx_spec_kinds.specs.Lcp.{block_prefixes};
ghost use Rattle.sx_spec_kinds.specs.Pairs.{prefixes_pairs};
ghost use Rattle.sx_spec.specs.Parts.{least_part, least_width as least_width_of, parts_of};
ghost use Rattle.sx_spec.specs.StaticFunction.{part_entries};
ghost use Rattle.sx_bits.specs.Pieces.{IsPiece, piece_string};
ghost use Rattle.sx_static.specs.Answer.{IsDone, entries_of};
ghost use Rattle.sx_parts.specs.Assembling.{tries};
ghost use Rattle.sx_parts.specs.Ranking.{IsBlockPlan, IsRanked, length_numbers as length_numbers_of};
ghost use Rattle.sx_parts.specs.Sectioning.{AreSectionsOf, IsPartDone, StopsPart, StopsParts};

use std::alloc::{AllocError, Global};
use sx_bits::{KeyList, Piece};
use sx_lcp::{LcpParts, lcp_parts};
use sx_parts::layout::SectionBuf;
use sx_parts::numbers::{length_numbers, numbers_to};
use sx_parts::parts::{Stop, build_least};
use sx_parts::signatures::{sign_keys, sign_pieces};
use sx_parts::signed::with_signatures;
use sx_parts::{Assembled, finished, header_of};
use sx_sig::{Plan, Signature};
use sx_static::FuncBuf;

/// The function that gives the prefix of each block, a piece of the keys, the number of the block. It
/// is part number `part`.
pub(crate) fn prefixes_function(
    alloc: Global,
    part: u32,
    keys: &KeyList,
    pieces: &[Piece],
    plan: &Plan,
    seed: u64,
) -> Result<FuncBuf, Stop>
    requires bits { plan.now.sig_bits ≤ 192 }
    requires few { length keys.now.lines ≤ 4194304 }
    requires pieces { AllByRecursion (IsPiece keys.now.lines) pieces.now }
    requires prefixes { map (piece_string keys.now.lines) pieces.now
        ≡ block_prefixes (block_size plan.now.log_bucket) (map key_bits keys.now.lines) }
    ensures built { let b = block_size plan.now.log_bucket in
        let prefixes = least_part (prefixes_pairs b (map key_bits keys.now.lines)) in
        MatchResult result (IsPartDone plan.now seed prefixes)
        (StopsPart part plan.now.method (part_entries plan.now.sig_bits seed prefixes)) }
    ensures narrow { IfOk result (λ f. f.width ≤ 64) }
{
    let sigs = sign_pieces(alloc, keys, pieces, seed, plan.sig_bits)?;
    let numbers = numbers_to(alloc, sigs.len() as u32)?;
    build_least(alloc, part, &sigs, &numbers, plan.method)
}

/// The function of part 0, which gives each key its offset in its block and, times the size of a
/// block, the length of the block's prefix. The lengths are let go before the function is built.
fn lengths_function(
    alloc: Global,
    sigs: &[Signature],
    lengths: Vec<u32>,
    plan: &Plan,
) -> Result<FuncBuf, Stop>
    requires bucket { plan.now.log_bucket ≤ 12 }
    requires numbers { length lengths.items ≡ length sigs.now }
    requires few { length sigs.now ≤ 2 ^ 27 }
    ensures built { let b = block_size plan.now.log_bucket in
        let numbers = length_numbers_of b lengths.items in
        MatchResult result
        (IsDone plan.now.method tries (least_width_of numbers) (entries_of sigs.now numbers))
        (StopsPart 0 plan.now.method (entries_of sigs.now numbers)) }
    ensures narrow { IfOk result (λ f. f.width ≤ 64) }
{
    let numbers = length_numbers(alloc, &lengths, plan.log_bucket)?;
    drop(lengths);
    build_least(alloc, 0, sigs, &numbers, plan.method)
}

/// The sections of the kind `lcp`, and what a signed dump keeps of the keys.
fn lcp_sections(
    alloc: Global,
    keys: &KeyList,
    plan: &Plan,
    seed: u64,
) -> Result<Vec<SectionBuf>, Stop>
    requires { IsBlockPlan Lcp plan.now }
    ensures { let parts = parts_of plan.now 0 keys.now.lines [] in
        MatchResult result (λ s. AreSectionsOf plan.now keys.now.lines seed parts s.items)
        (StopsParts plan.now seed parts) }
{
    let sigs = sign_keys(alloc, keys, seed, plan.sig_bits)?;
    let LcpParts { lengths, prefixes } = lcp_parts(alloc, keys, plan.log_bucket)?;
    let lengths = lengths_function(alloc, &sigs, lengths, plan)?;
    let prefixes = prefixes_function(alloc, 1, keys, &prefixes, plan, seed)?;
    let sections = vec![in alloc;
        SectionBuf::Function(lengths),
        SectionBuf::Function(prefixes),
    ]?;
    Ok(with_signatures(alloc, sections, &sigs, plan.signed)?)
}

/// Builds the functions of the kind `lcp`, by which each key is answered its number, and lays out
/// their dump in words, or tells why the seed doesn't work. The plan is one of `lcp` with blocks of at most 2 to the power 12 keys and signatures of at most 192 bits. Values of keys
/// don't count.
///
/// # Errors
///
/// Want of memory.
pub(crate) fn assemble_lcp(
    alloc: Global,
    keys: &KeyList,
    plan: &Plan,
    seed: u64,
) -> Result<Assembled, AllocError>
    requires { IsBlockPlan Lcp plan.now }
    ensures { IfOk result (IsRanked keys.now.lines plan.now seed) }
{
    let sections = lcp_sections(alloc, keys, plan, seed);
    finished(alloc, &header_of(keys, plan, seed), sections)
}
