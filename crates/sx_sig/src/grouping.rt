//! The numbers of signatures by chunk, and equal signatures.

ghost use Rattle.std.specs.Prelude.{◌≡◌, ◌⊎◌, ℕ, ◌+◌, ◌^◌, ◌<◌, ◌≤◌, All, IfOk, MatchBool, MatchOption, OnOk, [], ◌∷◌, ◌++◌, length, map, replicate, slice_index_or, slice_set};
ghost use Rattle.std.specs.List.{range_with_len};
ghost use Rattle.sx_spec.specs.Chunks.{chunk_of as chunk_of_signature};
ghost use Rattle.sx_spec.specs.StaticFunction.{AllDiffer, AreTwins};
ghost use Rattle.sx_sig.specs.Grouping.{Follows, GathersEqual, IsNeighbour, IsFound, IsLeastFound, chunk_numbers, numbered};

use crate::chunks::first_bits_of;
use std::alloc::{AllocError, Global};
use sx_spec::Signature;

/// Two equal signatures, by their numbers.
#[derive(Clone, Copy, PartialEq, Eq, Debug)]
pub struct Twins {
    /// The lesser number.
    pub first: u32,
    /// The greater number.
    pub second: u32,
}

/// A signature with its number.
type Numbered = (Signature, u32);

/// The numbers of the signatures of each chunk, in rising order, for fewer than 2 to the power 32 signatures and 2 to the
/// power `c` chunks, where `c` is at most 32. Equal signatures lie in one chunk.
///
/// # Errors
///
/// Want of memory.
pub fn chunks_of(alloc: Global, sigs: &[Signature], c: u32) -> Result<Vec<Vec<u32>>, AllocError>
    requires few { length sigs.now < 2 ^ 32 }
    requires bits { c ≤ 32 }
    ensures lists { IfOk result (λ v. map (λ u. u.items) v.items
        ≡ map (chunk_numbers c sigs.now) (range_with_len 0 (2 ^ c))) }
    ensures gathers { IfOk result (λ v. GathersEqual sigs.now (map (λ u. u.items) v.items)) }
{
    let mut chunks = empty_lists(alloc, 1 << c, sigs.len() >> c)?;
    for (number, sig) in sigs.iter().enumerate() {
        put(&mut chunks, chunk_index(sig, c), number as u32)?;
    }
    Ok(chunks)
}

/// The first two equal ones of fewer than 2 to the power 32 signatures: `second` is the least number with an equal
/// signature before it, and `first` the least such. Equal ones have their numbers in one of the lists, as those of chunks.
///
/// # Errors
///
/// Want of memory.
pub fn first_twins(
    alloc: Global,
    sigs: &[Signature],
    lists: &[Vec<u32>],
) -> Result<Option<Twins>, AllocError>
    requires few { length sigs.now < 2 ^ 32 }
    requires gathers { GathersEqual sigs.now (map (λ u. u.items) lists.now) }
    ensures { IfOk result (λ r. MatchOption r (AllDiffer sigs.now)
        (λ twins. AreTwins sigs.now twins.first twins.second)) }
{
    let found = least_pair(alloc, sigs, lists)?;
    if (found.second as usize) < sigs.len() {
        return Ok(Some(found));
    }
    Ok(None)
}

/// Whether two of fewer than 2 to the power 32 signatures are equal.
///
/// # Errors
///
/// Want of memory.
pub fn has_twins(alloc: Global, sigs: &[Signature]) -> Result<bool, AllocError>
    requires few { length sigs.now < 2 ^ 32 }
    ensures { IfOk result (λ r. MatchBool r (AllDiffer sigs.now → ⊥) (AllDiffer sigs.now)) }
{
    let all = chunks_of(alloc, sigs, 0)?;
    Ok(first_twins(alloc, sigs, &all)?.is_some())
}

/// The chunk of a signature among 2 to the power `c`, as an index.
#[inline(always)]
fn chunk_index(sig: &Signature, c: u32) -> usize
    requires { c ≤ 32 }
    ensures value { result ≡ chunk_of_signature sig.now c }
    ensures within { result < 2 ^ c }
{
    first_bits_of(sig.w0, c) as usize
}

/// So many empty lists, each with room for an eighth more than so many numbers on average.
fn empty_lists(alloc: Global, count: usize, average: usize) -> Result<Vec<Vec<u32>>, AllocError>
    ensures { IfOk result (λ v. map (λ u. u.items) v.items ≡ replicate count []) }
{
    let room = average.saturating_add(average / 8);
    let mut lists = Vec::with_capacity(alloc, count)?;
    for _list in 0..count {
        lists.push(Vec::with_capacity(alloc, room)?)?;
    }
    Ok(lists)
}

/// Puts a number last into a list.
#[inline(always)]
fn put(lists: &mut Vec<Vec<u32>>, place: usize, number: u32) -> Result<(), AllocError>
    requires { place < length lists.old.items }
    ensures { OnOk result (map (λ u. u.items) lists.new.items
        ≡ slice_set (map (λ u. u.items) lists.old.items) place
        (slice_index_or (map (λ u. u.items) lists.old.items) place [] ++ number ∷ [])) }
{
    lists[place].push(number)?;
    Ok(())
}

/// Among the pairs of equal signatures of one list, one with the least second number. Where there is none, `second` is the
/// number of all signatures.
fn least_pair(alloc: Global, sigs: &[Signature], lists: &[Vec<u32>]) -> Result<Twins, AllocError>
    requires few { length sigs.now < 2 ^ 32 }
    requires inside { All (λ v. All (λ n. n < length sigs.now) v.items) lists.now }
    ensures found { IfOk result (λ r. IsFound sigs.now r.first r.second) }
    ensures least { IfOk result
        (λ r. IsLeastFound sigs.now (map (λ v. v.items) lists.now) r.second) }
{
    let mut found = Twins {
        first: 0,
        second: sigs.len() as u32,
    };
    let mut ordered = Vec::new(alloc);
    for numbers in lists {
        fill(&mut ordered, sigs, numbers)?;
        ordered.sort_unstable();
        found = least_neighbours(&ordered, found);
    }
    Ok(found)
}

/// Fills a vector with the signatures of these numbers.
fn fill(ordered: &mut Vec<Numbered>, sigs: &[Signature], numbers: &[u32]) -> Result<(), AllocError>
    requires { All (λ n. n < length sigs.now) numbers.now }
    ensures { OnOk result (ordered.new.items ≡ map (numbered sigs.now) numbers.now) }
{
    ordered.clear();
    ordered.reserve(numbers.len())?;
    for number in numbers {
        ordered.push((sigs[*number as usize], *number))?;
    }
    Ok(())
}

/// The pair that was found, or a pair of equal neighbours with a lesser second number: the least.
fn least_neighbours(ordered: &[Numbered], mut found: Twins) -> Twins
    ensures either { (result ≡ found) ⊎ IsNeighbour ordered.now result.first result.second }
    ensures before { result.second ≤ found.second }
    ensures least { (first second : ℕ) → IsNeighbour ordered.now first second
        → result.second ≤ second }
{
    for place in 1..ordered.len() {
        found = nearer(ordered[place - 1], ordered[place], found);
    }
    found
}

/// The pair that was found, or the numbers of these two if they are equal and the second is lesser.
#[inline(always)]
fn nearer(left: Numbered, right: Numbered, found: Twins) -> Twins
    ensures either { (result ≡ found) ⊎ Follows left right result.first result.second }
    ensures before { result.second ≤ found.second }
    ensures least { (first second : ℕ) → Follows left right first second → result.second ≤ second }
{
    if left.0 == right.0 && left.1 < right.1 && right.1 < found.second {
        return Twins {
            first: left.1,
            second: right.1,
        };
    }
    found
}
