//! The tries at one chunk, until one works.

ghost use Rattle.std.specs.Prelude.{◌≡◌, ◌<◌, ◌≤◌, ◌^◌, All, IfOk, length, map, slice_index};
ghost use Rattle.sx_spec.specs.Chunks.{segment as segment_of};
ghost use Rattle.sx_spec.specs.Systems.{chosen};
ghost use Rattle.sx_static.specs.Answer.{IsWitnessOf, witness_numbers};
ghost use Rattle.sx_static.specs.Tries.{IsTried};

use crate::tries::{Try, make_try};
use crate::{Method, Signature, Witness};
use std::alloc::{AllocError, Global};
use sx_sig::{has_twins, segment};

/// The number of the try after which equal signatures are looked for. About every second chunk needs a second try, and
/// few need a fifth.
const LOOKS_AT: u32 = 3;

/// What the tries at a chunk come to.
#[derive(Drop)]
pub(crate) enum Tried {
    /// The least number of a try that works, and its cells.
    Works { number: u32, cells: Vec<u64> },
    /// A witness for each try, by the numbers of pairs; or of fewer tries, where two signatures are equal.
    Fails(Vec<Witness>),
}

/// Tries the pairs of these numbers until a try works.
pub(crate) fn build_chunk(
    alloc: Global,
    sigs: &[Signature],
    values: &[u64],
    method: Method,
    numbers: &[u32],
) -> Result<Tried, AllocError>
    requires values { length values.now ≡ length sigs.now }
    requires within { All (λ i. i < length sigs.now) numbers.now }
    requires few { length numbers.now ≤ 2 ^ 27 }
    ensures { IfOk result (λ r. IsTried method (segment_of method (length numbers.now))
        (chosen sigs.now numbers.now) (chosen values.now numbers.now) numbers.now r) }
{
    let own_sigs = signatures_at(alloc, sigs, numbers)?;
    let own_values = values_at(alloc, values, numbers)?;
    make_tries(alloc, &own_sigs, &own_values, method, numbers)
}

/// Makes one try after the other until one works. Where the first few don't, and two signatures are equal, no more are
/// made: no try peels equal edges.
fn make_tries(
    alloc: Global,
    sigs: &[Signature],
    values: &[u64],
    method: Method,
    numbers: &[u32],
) -> Result<Tried, AllocError>
    requires values { length values.now ≡ length sigs.now }
    requires numbers { length numbers.now ≡ length sigs.now }
    requires few { length sigs.now ≤ 2 ^ 27 }
    ensures { IfOk result (λ r. IsTried method (segment_of method (length sigs.now)) sigs.now
        values.now numbers.now r) }
{
    let s = segment(method, sigs.len() as u32);
    let mut witnesses = Vec::new(alloc);
    for number in 0..64 {
        match make_try(alloc, sigs, values, method, s, number)? {
            Try::Works(cells) => return Ok(Tried::Works { number, cells }),
            Try::Fails(witness) => witnesses.push(of_pairs(alloc, &witness, numbers)?)?,
        }
        if number == LOOKS_AT && has_twins(alloc, sigs)? {
            return Ok(Tried::Fails(witnesses));
        }
    }
    Ok(Tried::Fails(witnesses))
}

/// The witness by the numbers of pairs, which stand at its places.
fn of_pairs(alloc: Global, witness: &Witness, numbers: &[u32]) -> Result<Witness, AllocError>
    requires within { All (λ k. k < length numbers.now) (witness_numbers witness.now) }
    ensures numbers { IfOk result
        (λ w. witness_numbers w ≡ map (slice_index numbers.now) (witness_numbers witness.now)) }
    ensures kind { IfOk result
        (λ w. (method : Method) → IsWitnessOf method witness.now → IsWitnessOf method w) }
{
    match witness {
        Witness::Core(places) => Ok(Witness::Core(numbers_at(alloc, numbers, places)?)),
        Witness::Sum(places) => Ok(Witness::Sum(numbers_at(alloc, numbers, places)?)),
    }
}

/// The numbers at these places.
fn numbers_at(alloc: Global, numbers: &[u32], places: &[u32]) -> Result<Vec<u32>, AllocError>
    requires within { All (λ k. k < length numbers.now) places.now }
    ensures { IfOk result (λ v. v.items ≡ map (slice_index numbers.now) places.now) }
{
    let mut found = Vec::with_capacity(alloc, places.len())?;
    for place in places {
        found.push(numbers[*place as usize])?;
    }
    Ok(found)
}

/// The signatures of these numbers.
fn signatures_at(
    alloc: Global,
    sigs: &[Signature],
    numbers: &[u32],
) -> Result<Vec<Signature>, AllocError>
    requires within { All (λ i. i < length sigs.now) numbers.now }
    ensures { IfOk result (λ v. v.items ≡ chosen sigs.now numbers.now) }
{
    let mut found = Vec::with_capacity(alloc, numbers.len())?;
    for number in numbers {
        found.push(sigs[*number as usize])?;
    }
    Ok(found)
}

/// The values of these numbers.
fn values_at(alloc: Global, values: &[u64], numbers: &[u32]) -> Result<Vec<u64>, AllocError>
    requires within { All (λ i. i < length values.now) numbers.now }
    ensures { IfOk result (λ v. v.items ≡ chosen values.now numbers.now) }
{
    let mut found = Vec::with_capacity(alloc, numbers.len())?;
    for number in numbers {
        found.push(values[*number as usize])?;
    }
    Ok(found)
}
