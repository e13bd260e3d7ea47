//! Dumps of distributors by the hollow trie of delimiters. What a step needs of keys, pairs or
//! signatures is gone when the next step begins.

ghost use Rattle.std.specs.Prelude.{◌≡◌, ◌<◌, ◌≤◌, [], IfOk, MatchResult, length, map};
ghost use Rattle.std.specs.List.{AllByRecursion};
ghost use Rattle.sx_spec_strings.specs.Bits.{key_bits};
ghost use Rattle.sx_spec_kinds.specs.declared.Kind.TheVariants.{HollowDist};
ghost use Rattle.sx_spec_kinds.specs.Blocks.{block_size, delimiters_of};
ghost use Rattle.sx_spec_kinds.specs.Hollow.{left_counts, skips};
ghost use Rattle.sx_spec_kinds.specs.Pairs.{offsets_pairs, turns_pairs};
ghost use Rattle.sx_spec.specs.Built.{sums_list};
ghost use Rattle.sx_spec.specs.Parts.{least_part, parts_of};
ghost use Rattle.sx_spec.specs.StaticFunction.{part_entries};
ghost use Rattle.sx_bits.specs.KeyLists.{IsKeyList};
ghost use Rattle.sx_bits.specs.Pieces.{IsPiece};
ghost use Rattle.sx_pairs.specs.Pairs.{string_turn, turn_number};
ghost use Rattle.sx_parts.specs.Ranking.{IsBlockPlan, IsRanked};
ghost use Rattle.sx_parts.specs.Sectioning.{AreSectionsOf, IsPartDone, IsWhole, StopsPart, StopsParts, piece_signature, section_built};

use crate::delimiters::delimiter_numbers;
use crate::hollow::{TrieSums, trie_sums};
use crate::lcp2::offsets_function;
use std::alloc::{AllocError, Global};
use sx_bits::KeyList;
use sx_hollow::hollow_lists;
use sx_pairs::{NodePair, Turn, pairs};
use sx_parts::layout::SectionBuf;
use sx_parts::parts::{Stop, build_least};
use sx_parts::signatures::sign_keys;
use sx_parts::signed::with_key_signatures;
use sx_parts::{Assembled, finished, header_of};
use sx_sig::{Plan, Signature, sign};
use sx_static::FuncBuf;

/// The sums of the trie of the delimiters.
fn delimiter_sums(alloc: Global, keys: &KeyList, log_bucket: u32) -> Result<TrieSums, AllocError>
    requires { log_bucket ≤ 12 }
    ensures left { let b = block_size log_bucket in
        let delimiters = delimiters_of b (map key_bits keys.now.lines) in
        IfOk result (λ s. section_built s.left ≡ sums_list (left_counts delimiters)) }
    ensures skip { let b = block_size log_bucket in
        let delimiters = delimiters_of b (map key_bits keys.now.lines) in
        IfOk result (λ s. section_built s.skip ≡ sums_list (skips delimiters)) }
    ensures whole_left { IfOk result (λ s. IsWhole s.left) }
    ensures whole_skip { IfOk result (λ s. IsWhole s.skip) }
{
    let numbers = delimiter_numbers(alloc, keys, log_bucket)?;
    let lists = hollow_lists(alloc, keys, &numbers)?;
    trie_sums(alloc, &lists)
}

/// The pairs of the trie of the delimiters.
fn delimiter_pairs(
    alloc: Global,
    keys: &KeyList,
    log_bucket: u32,
) -> Result<Vec<NodePair>, AllocError>
    requires { log_bucket ≤ 12 }
    ensures strings { let b = block_size log_bucket in
        let strings = map key_bits keys.now.lines in
        IfOk result (λ pairs. map (string_turn keys.now.lines) pairs.items
        ≡ turns_pairs strings (delimiters_of b strings)) }
    ensures pieces { IfOk result
        (λ pairs. AllByRecursion (λ p. IsPiece keys.now.lines p.piece) pairs.items) }
    ensures few { IfOk result (λ pairs. length pairs.items ≤ 8388608) }
{
    let numbers = delimiter_numbers(alloc, keys, log_bucket)?;
    pairs(alloc, keys, &numbers)
}

/// The signature of each pair's string.
fn sign_pairs(
    alloc: Global,
    keys: &KeyList,
    pairs: &[NodePair],
    seed: u64,
    sig_bits: u32,
) -> Result<Vec<Signature>, AllocError>
    requires few { sig_bits ≤ 192 }
    requires pieces { AllByRecursion (λ p. IsPiece keys.now.lines p.piece) pairs.now }
    ensures { IfOk result (λ sigs. sigs.items
        ≡ map (λ p. piece_signature seed sig_bits keys.now.lines p.piece) pairs.now) }
{
    let mut sigs = Vec::with_capacity(alloc, pairs.len())?;
    for pair in pairs {
        sigs.push(sign(seed, &keys.piece(&pair.piece), pair.piece.tag, sig_bits))?;
    }
    Ok(sigs)
}

/// The turn of each pair.
fn turns_of(alloc: Global, pairs: &[NodePair]) -> Result<Vec<Turn>, AllocError>
    ensures { IfOk result (λ turns. turns.items ≡ map (λ p. p.turn) pairs.now) }
{
    let mut turns = Vec::with_capacity(alloc, pairs.len())?;
    for pair in pairs {
        turns.push(pair.turn)?;
    }
    Ok(turns)
}

/// The numbers of turns.
fn turn_numbers(alloc: Global, turns: &[Turn]) -> Result<Vec<u64>, AllocError>
    ensures { IfOk result (λ numbers. numbers.items ≡ map turn_number turns.now) }
{
    let mut numbers = Vec::with_capacity(alloc, turns.len())?;
    for turn in turns {
        numbers.push(turn.number())?;
    }
    Ok(numbers)
}

/// The function of part 0, which gives each key its offset in its block.
fn key_offsets(alloc: Global, keys: &KeyList, plan: &Plan, seed: u64) -> Result<FuncBuf, Stop>
    requires bucket { plan.now.log_bucket ≤ 12 }
    requires bits { plan.now.sig_bits ≤ 192 }
    ensures built { let b = block_size plan.now.log_bucket in
        let offsets = least_part (offsets_pairs b (map key_bits keys.now.lines)) in
        MatchResult result (IsPartDone plan.now seed offsets)
        (StopsPart 0 plan.now.method (part_entries plan.now.sig_bits seed offsets)) }
    ensures narrow { IfOk result (λ f. f.width ≤ 64) }
    ensures keys { IsKeyList keys.now }
{
    let sigs = sign_keys(alloc, keys, seed, plan.sig_bits)?;
    offsets_function(alloc, &sigs, plan)
}

/// The function of part 1, which gives each fragment at a node of the trie its turn. Turns have one
/// byte each beside the pairs and their signatures, and are widened when the pairs are let go.
fn turns_function(alloc: Global, keys: &KeyList, plan: &Plan, seed: u64) -> Result<FuncBuf, Stop>
    requires bucket { plan.now.log_bucket ≤ 12 }
    requires bits { plan.now.sig_bits ≤ 192 }
    ensures built { let strings = map key_bits keys.now.lines in
        let delimiters = delimiters_of (block_size plan.now.log_bucket) strings in
        let turns = least_part (turns_pairs strings delimiters) in
        MatchResult result (IsPartDone plan.now seed turns)
        (StopsPart 1 plan.now.method (part_entries plan.now.sig_bits seed turns)) }
    ensures narrow { IfOk result (λ f. f.width ≤ 64) }
{
    let pairs = delimiter_pairs(alloc, keys, plan.log_bucket)?;
    let turns = turns_of(alloc, &pairs)?;
    let sigs = sign_pairs(alloc, keys, &pairs, seed, plan.sig_bits)?;
    drop(pairs);
    let numbers = turn_numbers(alloc, &turns)?;
    build_least(alloc, 1, &sigs, &numbers, plan.method)
}

/// The sections of the kind `hollowdist`, and what a signed dump keeps of the keys. For that the
/// keys are signed anew, so that their signatures aren't held while the turns are built.
fn hollow_dist_sections(
    alloc: Global,
    keys: &KeyList,
    plan: &Plan,
    seed: u64,
) -> Result<Vec<SectionBuf>, Stop>
    requires { IsBlockPlan HollowDist plan.now }
    ensures { let parts = parts_of plan.now 0 keys.now.lines [] in
        MatchResult result (λ s. AreSectionsOf plan.now keys.now.lines seed parts s.items)
        (StopsParts plan.now seed parts) }
{
    let offsets = key_offsets(alloc, keys, plan, seed)?;
    let TrieSums { left, skip } = delimiter_sums(alloc, keys, plan.log_bucket)?;
    let turns = turns_function(alloc, keys, plan, seed)?;
    let sections = vec![in alloc;
        SectionBuf::Function(offsets),
        left,
        skip,
        SectionBuf::Function(turns),
    ]?;
    Ok(with_key_signatures(alloc, sections, keys, plan, seed)?)
}

/// Builds the functions and the trie of the kind `hollowdist`, by which each key is answered its
/// number, and lays out their dump in words, or tells why the seed doesn't work. The plan is one of
/// `hollowdist` with blocks of at most 2 to the power 12 keys and signatures of at most 192 bits.
/// Values of keys don't count.
///
/// # Errors
///
/// Want of memory.
pub(crate) fn assemble_hollow_dist(
    alloc: Global,
    keys: &KeyList,
    plan: &Plan,
    seed: u64,
) -> Result<Assembled, AllocError>
    requires { IsBlockPlan HollowDist plan.now }
    ensures { IfOk result (IsRanked keys.now.lines plan.now seed) }
{
    let sections = hollow_dist_sections(alloc, keys, plan, seed);
    finished(alloc, &header_of(keys, plan, seed), sections)
}
