//! Dumps of hollow tries.

ghost use Rattle.std.specs.Prelude.{◌≡◌, ◌≤◌, ◌<◌, ◌^◌, IfOk, length, map};
ghost use Rattle.sx_spec_strings.specs.Bits.{key_bits};
ghost use Rattle.sx_spec_kinds.specs.Hollow.{left_counts, skips};
ghost use Rattle.sx_spec.specs.Built.{sums_from, sums_list};
ghost use Rattle.sx_bits.specs.KeyLists.{IsKeyList};
ghost use Rattle.sx_assemble.specs.Hollowing.{AreHollow, IsHollowPlan};
ghost use Rattle.sx_parts.specs.Ranking.{IsRanked};
ghost use Rattle.sx_parts.specs.Sectioning.{IsWhole, section_built};

use std::alloc::{AllocError, Global};
use sx_bits::KeyList;
use sx_ef::view::EliasFano;
use sx_hollow::{HollowLists, hollow_lists};
use sx_parts::layout::SectionBuf;
use sx_parts::numbers::members_to;
use sx_parts::signed::with_key_signatures;
use sx_parts::{Assembled, finished, header_of};
use sx_sig::Plan;

/// The sections of the sums of a trie's lists: of the counts of leaves, and of the bits that are
/// skipped.
#[derive(Drop)]
pub(crate) struct TrieSums {
    pub(crate) left: SectionBuf,
    pub(crate) skip: SectionBuf,
}

/// The lists of the trie of all keys.
fn key_lists(alloc: Global, keys: &KeyList) -> Result<HollowLists, AllocError>
    ensures left { IfOk result (λ h. h.left.items ≡ left_counts (map key_bits keys.now.lines)) }
    ensures skip { IfOk result (λ h. h.skip.items ≡ skips (map key_bits keys.now.lines)) }
    ensures keys { IsKeyList keys.now }
{
    let members = members_to(alloc, keys.len())?;
    hollow_lists(alloc, keys, &members)
}

/// The sums of the first numbers, of none to all of them.
fn sums_to(alloc: Global, numbers: &[u32]) -> Result<Vec<u64>, AllocError>
    requires { length numbers.now ≤ 4194304 }
    ensures { IfOk result (λ sums. sums.items ≡ sums_from 0 numbers.now) }
{
    let mut sums = Vec::with_capacity(alloc, numbers.len() + 1)?;
    let mut sum = 0u64;
    for number in numbers {
        sums.push(sum)?;
        sum += u64::from(*number);
    }
    sums.push(sum)?;
    Ok(sums)
}

/// The section of the sums of the first numbers.
fn sums_section(alloc: Global, numbers: &[u32]) -> Result<SectionBuf, AllocError>
    requires { length numbers.now ≤ 4194304 }
    ensures built { IfOk result (λ s. section_built s ≡ sums_list numbers.now) }
    ensures whole { IfOk result IsWhole }
{
    let sums = sums_to(alloc, numbers)?;
    Ok(SectionBuf::Sums(EliasFano::encode(alloc, &sums)?))
}

/// The sections of the sums of a trie's lists. The first sums are gone when the next are made.
pub(crate) fn trie_sums(alloc: Global, lists: &HollowLists) -> Result<TrieSums, AllocError>
    requires left { length lists.now.left.items ≤ 4194304 }
    requires skip { length lists.now.skip.items ≤ 4194304 }
    ensures left { IfOk result (λ s. section_built s.left ≡ sums_list lists.now.left.items) }
    ensures skip { IfOk result (λ s. section_built s.skip ≡ sums_list lists.now.skip.items) }
    ensures whole_left { IfOk result (λ s. IsWhole s.left) }
    ensures whole_skip { IfOk result (λ s. IsWhole s.skip) }
{
    let left = sums_section(alloc, &lists.left)?;
    let skip = sums_section(alloc, &lists.skip)?;
    Ok(TrieSums { left, skip })
}

/// The sections of the kind `hollow`. The trie is gone when the sums are made.
fn hollow_sections(alloc: Global, keys: &KeyList) -> Result<Vec<SectionBuf>, AllocError>
    ensures { IfOk result (λ s. AreHollow keys.now.lines s.items) }
{
    let lists = key_lists(alloc, keys)?;
    let TrieSums { left, skip } = trie_sums(alloc, &lists)?;
    Ok(vec![in alloc; left, skip]?)
}

/// Builds the hollow trie of the keys, by which each key is answered its number, and lays out its
/// dump in words. The plan is one of `hollow` with signatures of at most 192 bits, of which there are
/// none but for a signed dump: no seed fails. Values of keys don't count.
///
/// # Errors
///
/// Want of memory.
pub(crate) fn assemble_hollow(
    alloc: Global,
    keys: &KeyList,
    plan: &Plan,
    seed: u64,
) -> Result<Assembled, AllocError>
    requires { IsHollowPlan plan.now }
    ensures { IfOk result (IsRanked keys.now.lines plan.now seed) }
{
    let sections = hollow_sections(alloc, keys)?;
    let sections = with_key_signatures(alloc, sections, keys, plan, seed)?;
    finished(alloc, &header_of(keys, plan, seed), Ok(sections))
}
