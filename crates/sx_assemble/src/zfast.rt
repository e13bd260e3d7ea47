//! Dumps of distributors by fat binary search among the handles of a trie of delimiters.

ghost use Rattle.std.specs.Prelude.{◌≡◌, ◌<◌, ◌≤◌, ◌^◌, ◌++◌, [], All, IfOk, MatchResult, length, map};
ghost use Rattle.std.specs.List.{AllByRecursion};
ghost use Rattle.sx_spec_strings.specs.Bits.{key_bits};
ghost use Rattle.sx_spec_strings.specs.Ordered.{in_order};
ghost use Rattle.sx_spec_kinds.specs.Zfast.{corrections_of};
ghost use Rattle.sx_spec.specs.Built.{entry_before};
ghost use Rattle.sx_spec.specs.Fields.{packed};
ghost use Rattle.sx_spec.specs.Parts.{least_width as least_width_of, parts_of};
ghost use Rattle.sx_spec.specs.StaticFunction.{AllDiffer, part_entries};
ghost use Rattle.sx_bits.specs.KeyLists.{IsKeyList};
ghost use Rattle.sx_bits.specs.Pieces.{IsPiece, piece_string};
ghost use Rattle.sx_static.specs.Answer.{IsDone, entries_of};
ghost use Rattle.sx_trie.specs.Tries.{node_of};
ghost use Rattle.sx_zfast.specs.Corrected.{corrected_as};
ghost use Rattle.sx_assemble.specs.Handling.{AreCorrections, AreFunctions, AreHandles, AreNodeLists, ArePartsFor, IsBuilt, IsLeastList, IsZfastPlan, RiseFrom, delimiters_for, entry_for, field_of, handles_for, handles_part, map_for, number_of, ranks_of};
ghost use Rattle.sx_parts.specs.Assembling.{key_signature, tries};
ghost use Rattle.sx_parts.specs.Ranking.{IsRanked};
ghost use Rattle.sx_parts.specs.Sectioning.{AreSectionsOf, StopsPart, StopsParts, held_words};

use crate::delimiters::delimiter_numbers;
use crate::lcp2::offsets_function;
use std::alloc::{AllocError, Global};
use std::sync::ledger::Ledger;
use sx_bits::{KeyList, Piece};
use sx_fields::bank::Words;
use sx_fields::fields::Fields;
use sx_fields::packed::Packed;
use sx_fields::packed_buf::PackedBuf;
use sx_handles::{ZfastParts, zfast_parts};
use sx_parts::layout::{SectionBuf, least_list};
use sx_parts::numbers::{numbers_to, widened};
use sx_parts::parts::{Stop, build_least};
use sx_parts::signatures::{sign_keys, sign_pieces};
use sx_parts::signed::{signature_list, with_signatures};
use sx_parts::{Assembled, finished, header_of};
use sx_sig::{Method, Plan, Signature};
use sx_signed::SignedView;
use sx_static::{FuncBuf, FuncView};
use sx_steps::Steps;
use sx_trie::{Node, Trie};
use sx_zfast::{Corrected, corrections};

/// A number of an inner node.
#[derive(Clone, Copy)]
pub(crate) enum Field {
    Extent,
    First,
    Middle,
    After,
}

/// The number of a node.
fn number_in(node: &Node, field: Field) -> u32
    ensures value { result ≡ field_of field node.now }
    ensures of_node { result ≡ number_of field (node_of node.now) }
{
    match field {
        Field::Extent => node.extent,
        Field::First => node.first,
        Field::Middle => node.middle,
        Field::After => node.after,
    }
}

/// The list of a number of each inner node, as wide as the greatest.
fn node_list(alloc: Global, trie: &Trie, of: Field) -> Result<PackedBuf, AllocError>
    ensures { IfOk result (IsLeastList (map (number_of of) trie.now.nodes)) }
{
    let count = trie.nodes();
    let mut numbers = Vec::with_capacity(alloc, count as usize)?;
    for i in 0..count {
        numbers.push(u64::from(number_in(&trie.node(i), of)))?;
    }
    least_list(alloc, &numbers)
}

/// The lists of the numbers of the inner nodes.
#[derive(Drop)]
pub(crate) struct NodeLists {
    pub(crate) extents: PackedBuf,
    pub(crate) firsts: PackedBuf,
    pub(crate) middles: PackedBuf,
    pub(crate) afters: PackedBuf,
}

/// The lists of the extents of the inner nodes and of the leaves under them.
fn node_lists(alloc: Global, trie: &Trie) -> Result<NodeLists, AllocError>
    ensures { IfOk result (AreNodeLists trie.now.nodes) }
{
    Ok(NodeLists {
        extents: node_list(alloc, trie, Field::Extent)?,
        firsts: node_list(alloc, trie, Field::First)?,
        middles: node_list(alloc, trie, Field::Middle)?,
        afters: node_list(alloc, trie, Field::After)?,
    })
}

/// The delimiters, their trie, and the handles and codes.
#[derive(Drop)]
pub(crate) struct Built {
    pub(crate) delimiters: Vec<u32>,
    pub(crate) trie: Trie,
    pub(crate) parts: ZfastParts,
}

/// The trie of the delimiters, and what is built by it.
fn trie_and_parts(alloc: Global, keys: &KeyList, log_bucket: u32) -> Result<Built, AllocError>
    requires { log_bucket ≤ 12 }
    ensures built { IfOk result (IsBuilt log_bucket keys.now.lines) }
    ensures keys { IsKeyList keys.now }
{
    let delimiters = delimiter_numbers(alloc, keys, log_bucket)?;
    let trie = Trie::build(alloc, keys, &delimiters)?;
    let parts = zfast_parts(alloc, keys, &delimiters, &trie)?;
    Ok(Built {
        delimiters,
        trie,
        parts,
    })
}

/// The function of part 1, which gives each handle the number of its node less one, and the bits that
/// are kept of the handles' signatures.
#[derive(Drop)]
pub(crate) struct HandlesBuf {
    pub(crate) function: FuncBuf,
    pub(crate) marks: PackedBuf,
}

/// The function of the handles, and their marks.
fn handles_buf(
    alloc: Global,
    keys: &KeyList,
    handles: &[Piece],
    plan: &Plan,
    seed: u64,
) -> Result<HandlesBuf, Stop>
    requires bits { plan.now.sig_bits ≤ 192 }
    requires narrow { plan.now.handle_bits ≤ 64 }
    requires few { length handles.now ≤ 4194304 }
    requires pieces { AllByRecursion (IsPiece keys.now.lines) handles.now }
    requires strings { map (piece_string keys.now.lines) handles.now
        ≡ handles_for plan.now keys.now.lines }
    ensures { let handles = handles_part plan.now keys.now.lines in
        MatchResult result (AreHandles plan.now keys.now.lines seed)
        (StopsPart 1 plan.now.method (part_entries plan.now.sig_bits seed handles)) }
{
    let sigs = sign_pieces(alloc, keys, handles, seed, plan.sig_bits)?;
    let places = numbers_to(alloc, sigs.len() as u32)?;
    let function = build_least(alloc, 1, &sigs, &places, plan.method)?;
    let marks = signature_list(alloc, &sigs, plan.handle_bits)?;
    Ok(HandlesBuf { function, marks })
}

/// The function of part 2, which gives each key its code.
fn codes_function(
    alloc: Global,
    sigs: &[Signature],
    codes: &[u32],
    method: Method,
) -> Result<FuncBuf, Stop>
    requires codes { length codes.now ≡ length sigs.now }
    requires few { length sigs.now ≤ 2 ^ 27 }
    ensures built { MatchResult result
        (IsDone method tries (least_width_of codes.now) (entries_of sigs.now codes.now))
        (StopsPart 2 method (entries_of sigs.now codes.now)) }
    ensures narrow { IfOk result (λ f. f.width ≤ 64) }
{
    build_least(alloc, 2, sigs, &widened(alloc, codes)?, method)
}

/// The functions of the three parts.
#[derive(Drop)]
pub(crate) struct ZfastFunctions {
    pub(crate) offsets: FuncBuf,
    pub(crate) handles: HandlesBuf,
    pub(crate) codes: FuncBuf,
}

/// The functions of the offsets, the handles and the codes.
fn zfast_functions(
    alloc: Global,
    keys: &KeyList,
    sigs: &[Signature],
    parts: &ZfastParts,
    plan: &Plan,
    seed: u64,
) -> Result<ZfastFunctions, Stop>
    requires plan { IsZfastPlan plan.now }
    requires keys { IsKeyList keys.now }
    requires signed { sigs.now ≡ map (key_signature seed plan.now.sig_bits) keys.now.lines }
    requires parts { ArePartsFor plan.now keys.now.lines parts.now }
    ensures { MatchResult result (AreFunctions plan.now keys.now.lines seed)
        (StopsParts plan.now seed (parts_of plan.now 0 keys.now.lines [])) }
{
    let offsets = offsets_function(alloc, sigs, plan)?;
    let handles = handles_buf(alloc, keys, &parts.handles, plan, seed)?;
    let codes = codes_function(alloc, sigs, &parts.codes, plan.method)?;
    Ok(ZfastFunctions {
        offsets,
        handles,
        codes,
    })
}

/// The words of a function: its chunk table and its cells.
fn function_words(alloc: Global, function: &FuncBuf) -> Result<Vec<u64>, AllocError>
    requires { length (held_words (SectionBuf.Function function.now)) < 2 ^ 32 }
    ensures { IfOk result (λ words. words.items ≡ function.now.table.items
        ++ packed function.now.cells.width function.now.cells.items) }
{
    let count = function.table.len() + function.cells.words().len();
    let mut words = Vec::with_capacity(alloc, count)?;
    words.extend_from_slice(&function.table)?;
    words.extend_from_slice(function.cells.words())?;
    Ok(words)
}

/// The keys that a search by the handles misleads.
fn misled<L: Ledger>(
    alloc: Global,
    keys: &KeyList,
    trie: &Built,
    handles: &HandlesBuf,
    plan: &Plan,
    seed: u64,
    steps: &mut Steps<L>,
) -> Result<Vec<Corrected>, AllocError>
    requires plan { IsZfastPlan plan.now }
    requires keys { IsKeyList keys.now }
    requires built { IsBuilt plan.now.log_bucket keys.now.lines trie.now }
    requires handles { AreHandles plan.now keys.now.lines seed handles.now }
    ensures value { IfOk result (λ list. map corrected_as list.items
        ≡ corrections_of (map_for plan.now keys.now.lines seed handles.now)
        (delimiters_for plan.now keys.now.lines) (map key_bits keys.now.lines)) }
    ensures counted { steps.old ≤ steps.new }
{
    let words = function_words(alloc, &handles.function)?;
    let function = FuncView::new(
        Words::new(&words),
        0,
        handles.function.width,
        handles.function.pairs,
    );
    let kept = Packed::new(
        Words::new(handles.marks.words()),
        0,
        handles.marks.len(),
        handles.marks.width(),
    );
    let map = SignedView::new(function, kept);
    corrections(
        alloc,
        keys,
        &trie.delimiters,
        &trie.trie,
        &trie.parts,
        &map,
        seed,
        plan.sig_bits,
        steps,
    )
}

/// The signatures of these keys with their blocks, in the order of the signatures.
fn sorted_entries(
    alloc: Global,
    sigs: &[Signature],
    corrected: &[Corrected],
) -> Result<Vec<(Signature, u32)>, AllocError>
    requires inside { All (λ c. c.rank < length sigs.now) corrected.now }
    requires rise { RiseFrom 0 (ranks_of corrected.now) }
    requires differ { AllDiffer sigs.now }
    ensures { IfOk result (λ entries. entries.items
        ≡ in_order entry_before (map (entry_for sigs.now) corrected.now)) }
{
    let mut entries = Vec::with_capacity(alloc, corrected.len())?;
    for one in corrected {
        entries.push((sigs[one.rank as usize], one.block))?;
    }
    entries.sort_unstable();
    Ok(entries)
}

/// The signatures of entries.
fn signatures_in(alloc: Global, entries: &[(Signature, u32)]) -> Result<Vec<Signature>, AllocError>
    ensures { IfOk result (λ sigs. sigs.items ≡ map (λ e. e.0) entries.now) }
{
    let mut sigs = Vec::with_capacity(alloc, entries.len())?;
    for entry in entries {
        sigs.push(entry.0)?;
    }
    Ok(sigs)
}

/// The list of the blocks of entries, as wide as the greatest.
fn block_list(alloc: Global, entries: &[(Signature, u32)]) -> Result<PackedBuf, AllocError>
    requires { length entries.now < 2 ^ 32 }
    ensures { IfOk result (IsLeastList (map (λ e. e.1) entries.now)) }
{
    let mut blocks = Vec::with_capacity(alloc, entries.len())?;
    for entry in entries {
        blocks.push(u64::from(entry.1))?;
    }
    least_list(alloc, &blocks)
}

/// The signatures of the keys that are misled, and the list of their blocks.
#[derive(Drop)]
pub(crate) struct CorrectionLists {
    pub(crate) sigs: Vec<Signature>,
    pub(crate) blocks: PackedBuf,
}

/// The signatures of these keys in their order, and the list of their blocks.
fn correction_lists(
    alloc: Global,
    sigs: &[Signature],
    corrected: &[Corrected],
) -> Result<CorrectionLists, AllocError>
    requires few { length corrected.now < 2 ^ 32 }
    requires inside { All (λ c. c.rank < length sigs.now) corrected.now }
    requires rise { RiseFrom 0 (ranks_of corrected.now) }
    requires differ { AllDiffer sigs.now }
    ensures { IfOk result
        (AreCorrections (in_order entry_before (map (entry_for sigs.now) corrected.now))) }
{
    let entries = sorted_entries(alloc, sigs, corrected)?;
    Ok(CorrectionLists {
        sigs: signatures_in(alloc, &entries)?,
        blocks: block_list(alloc, &entries)?,
    })
}

/// The sections of the kind `zfast`, and what a signed dump keeps of the keys.
fn zfast_sections<L: Ledger>(
    alloc: Global,
    keys: &KeyList,
    plan: &Plan,
    seed: u64,
    steps: &mut Steps<L>,
) -> Result<Vec<SectionBuf>, Stop>
    requires { IsZfastPlan plan.now }
    ensures sections { let parts = parts_of plan.now 0 keys.now.lines [] in
        MatchResult result (λ s. AreSectionsOf plan.now keys.now.lines seed parts s.items)
        (StopsParts plan.now seed parts) }
    ensures counted { steps.old ≤ steps.new }
{
    let built = trie_and_parts(alloc, keys, plan.log_bucket)?;
    let sigs = sign_keys(alloc, keys, seed, plan.sig_bits)?;
    let functions = zfast_functions(alloc, keys, &sigs, &built.parts, plan, seed)?;
    let corrected = misled(alloc, keys, &built, &functions.handles, plan, seed, steps)?;
    let corrections = correction_lists(alloc, &sigs, &corrected)?;
    let nodes = node_lists(alloc, &built.trie)?;
    let ZfastFunctions {
        offsets,
        handles,
        codes,
    } = functions;
    let sections = vec![in alloc;
        SectionBuf::Function(offsets),
        SectionBuf::Numbers(nodes.extents),
        SectionBuf::Numbers(nodes.firsts),
        SectionBuf::Numbers(nodes.middles),
        SectionBuf::Numbers(nodes.afters),
        SectionBuf::Function(handles.function),
        SectionBuf::Numbers(handles.marks),
        SectionBuf::Function(codes),
        SectionBuf::Corrections(corrections.sigs),
        SectionBuf::Numbers(corrections.blocks),
    ]?;
    Ok(with_signatures(alloc, sections, &sigs, plan.signed)?)
}

/// Builds the functions, the trie and the corrections of the kind `zfast`, by which each key is
/// answered its number, and lays out their dump in words, or tells why the seed doesn't work. The
/// plan is one of `zfast` with blocks of at most 2 to the power 12 keys, at most 64 bits kept of each
/// handle, and signatures of at most 192 bits. Values of keys don't count. The words of the handles'
/// function and marks are read at steps.
///
/// # Errors
///
/// Want of memory.
pub(crate) fn assemble_zfast<L: Ledger>(
    alloc: Global,
    keys: &KeyList,
    plan: &Plan,
    seed: u64,
    steps: &mut Steps<L>,
) -> Result<Assembled, AllocError>
    requires { IsZfastPlan plan.now }
    ensures ranked { IfOk result (IsRanked keys.now.lines plan.now seed) }
    ensures counted { steps.old ≤ steps.new }
{
    let sections = zfast_sections(alloc, keys, plan, seed, steps);
    finished(alloc, &header_of(keys, plan, seed), sections)
}
