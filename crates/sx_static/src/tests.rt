//! Builds at worked rows, and of two chunks.

ghost use Rattle.std.specs.Prelude.{◌≡◌, ◌≤◌, ◌^◌, length};

use super::*;
use std::test::Fail;
use sx_sig::{chunk_of, places};

fn signature(w0: u64) -> Signature {
    Signature { w0, w1: 0, w2: 0 }
}

fn has_its_value(alloc: Global, method: Method) -> Result<bool, AllocError> {
    match build(alloc, &[signature(0)], &[5], 3, method)? {
        Built::Done(function) => {
            let whole = function.table.as_slice() == [0, 6].as_slice();
            let word = function.cells.words().first().copied().unwrap_or(0);
            Ok(whole && (word >> 3 ^ word >> 9 ^ word >> 15) & 7 == 5)
        }
        Built::Twins { .. } | Built::Stuck { .. } => Ok(false),
    }
}

#[test]
fn one_signature_has_its_value(rt: HostRuntime) -> Result<(), Fail> {
    assert!(rt; has_its_value(rt.alloc(), Method::Mwhc)?);
    assert!(rt; has_its_value(rt.alloc(), Method::Gov3)?);
    Ok(())
}

fn stuck_witnesses(alloc: Global, method: Method) -> Result<Vec<Witness>, AllocError> {
    let sigs = [signature(0), signature(1), signature(2), signature(3)];
    match build(alloc, &sigs, &[0, 1, 2, 3], 2, method)? {
        Built::Stuck {
            chunk: 0,
            witnesses,
        } => Ok(witnesses),
        Built::Stuck { .. } | Built::Twins { .. } | Built::Done(_) => Ok(Vec::new(alloc)),
    }
}

#[test]
fn four_edges_on_few_cells_have_cores(rt: HostRuntime) -> Result<(), Fail> {
    let witnesses = stuck_witnesses(rt.alloc(), Method::Mwhc)?;
    assert_eq!(rt; witnesses.len(), 64);
    for witness in &witnesses {
        assert!(rt; matches!(witness, Witness::Core(_)));
    }
    Ok(())
}

#[test]
fn four_equations_on_few_cells_have_sums(rt: HostRuntime) -> Result<(), Fail> {
    let witnesses = stuck_witnesses(rt.alloc(), Method::Gov3)?;
    assert_eq!(rt; witnesses.len(), 64);
    for witness in &witnesses {
        assert!(rt; matches!(witness, Witness::Sum(_)));
    }
    Ok(())
}

#[test]
fn equal_signatures_are_twins(rt: HostRuntime) -> Result<(), Fail> {
    let sigs = [signature(7), signature(0), signature(0)];
    match build(rt.alloc(), &sigs, &[1, 2, 3], 2, Method::Mwhc)? {
        Built::Twins { first, second } => {
            assert_eq!(rt; first, 1);
            assert_eq!(rt; second, 2);
        }
        Built::Done(_) | Built::Stuck { .. } => assert!(rt; false, "no twins"),
    }
    Ok(())
}

fn mixed(n: u64) -> u64 {
    let x = n.wrapping_mul(0x9E37_79B9_7F4A_7C15);
    let y = (x ^ (x >> 30)).wrapping_mul(0xBF58_476D_1CE4_E5B9);
    y ^ (y >> 27)
}

/// What words of 64-bit cells answer a signature.
fn answer(table: &[u64], words: &[u64], sig: &Signature) -> Option<u64> {
    let chunk = chunk_of(sig, 1) as usize;
    let word = *table.get(chunk)?;
    let end = *table.get(chunk + 1)? % (1 << 58);
    let start = word % (1 << 58);
    let segment = end.checked_sub(start)? / 3;
    if segment == 0 || segment > 10_000 {
        return None;
    }
    let at = places(sig, (word >> 58) as u32, segment as u32);
    let a = *words.get((start + u64::from(at.a)) as usize)?;
    let b = *words.get((start + u64::from(at.b)) as usize)?;
    let c = *words.get((start + u64::from(at.c)) as usize)?;
    Some(a ^ b ^ c)
}

/// What a build of values of any width comes to.
fn built(
    alloc: Global,
    sigs: &[Signature],
    values: &[u64],
    method: Method,
) -> Result<Built, AllocError>
    requires values { length values.now ≡ length sigs.now }
    requires few { length sigs.now ≤ 2 ^ 27 }
{
    build(alloc, sigs, values, 64, method)
}

/// Whether a build has two chunks and answers each signature with its value.
fn two_chunks_answer(
    alloc: Global,
    sigs: &[Signature],
    values: &[u64],
    method: Method,
) -> Result<bool, AllocError>
    requires values { length values.now ≡ length sigs.now }
    requires few { length sigs.now ≤ 2 ^ 27 }
{
    match built(alloc, sigs, values, method)? {
        Built::Done(function) => {
            let mut right = function.table.len() == 3;
            for (sig, value) in sigs.iter().zip(values.iter()) {
                right &= answer(&function.table, function.cells.words(), sig) == Some(*value);
            }
            Ok(right)
        }
        Built::Twins { .. } | Built::Stuck { .. } => Ok(false),
    }
}

fn mixed_chunks_answer(alloc: Global, method: Method) -> Result<bool, AllocError> {
    let mut sigs = Vec::new(alloc);
    let mut values = Vec::new(alloc);
    for n in 0..1100 {
        sigs.push(Signature {
            w0: mixed(n),
            w1: mixed(n + 2000),
            w2: mixed(n + 4000),
        })?;
        values.push(mixed(n + 6000))?;
    }
    if sigs.len() != 1100 || values.len() != 1100 {
        return Ok(false);
    }
    two_chunks_answer(alloc, &sigs, &values, method)
}

#[test]
fn two_chunks_answer_their_values(rt: HostRuntime) -> Result<(), Fail> {
    assert!(rt; mixed_chunks_answer(rt.alloc(), Method::Mwhc)?);
    assert!(rt; mixed_chunks_answer(rt.alloc(), Method::Gov3)?);
    Ok(())
}

/// The signature of a number in the later of two chunks.
fn later(n: u64) -> Signature {
    Signature {
        w0: mixed(n) | 1 << 63,
        w1: mixed(n.wrapping_add(2000)),
        w2: mixed(n.wrapping_add(4000)),
    }
}

/// What a build of two chunks comes to. In the first, 600 edges share two of their vertices and have 248 to differ in. In the
/// second, signatures come again after so many.
fn crowded(alloc: Global, period: u64) -> Result<Built, AllocError>
    requires { 1 ≤ period }
{
    let mut sigs = Vec::new(alloc);
    let mut values = Vec::new(alloc);
    for n in 0..600 {
        sigs.push(signature(n))?;
        values.push(n)?;
    }
    for n in 0..600 {
        sigs.push(later(n % period))?;
        values.push(n)?;
    }
    if sigs.len() != 1200 || values.len() != 1200 {
        return Ok(Built::Twins {
            first: 0,
            second: 0,
        });
    }
    built(alloc, &sigs, &values, Method::Mwhc)
}

#[test]
fn equal_signatures_of_a_later_chunk_are_told(rt: HostRuntime) -> Result<(), Fail> {
    match crowded(rt.alloc(), 599)? {
        Built::Twins { first, second } => assert_eq!(rt; (first, second), (600, 1199)),
        Built::Done(_) | Built::Stuck { .. } => assert!(rt; false, "no twins"),
    }
    match crowded(rt.alloc(), 600)? {
        Built::Stuck { chunk, witnesses } => assert_eq!(rt; (chunk, witnesses.len()), (0, 64)),
        Built::Done(_) | Built::Twins { .. } => assert!(rt; false, "no chunk"),
    }
    Ok(())
}

/// Whether a build gave this function.
fn is_function(built: &Built, function: &FuncBuf) -> bool {
    match built {
        Built::Done(alone) => {
            alone.table.as_slice() == function.table.as_slice()
                && alone.cells.words() == function.cells.words()
                && alone.width == function.width
                && alone.pairs == function.pairs
        }
        Built::Twins { .. } | Built::Stuck { .. } => false,
    }
}

/// Whether these are functions as they are built alone.
fn are_alone(alloc: Global, low: &FuncBuf, high: &FuncBuf) -> Result<bool, AllocError> {
    let sigs = [later(1), later(2), later(3)];
    let first = build(alloc, &sigs, &[2, 4, 7], 3, Method::Mwhc)?;
    let second = build(alloc, &sigs, &[1, 3, 5], 3, Method::Mwhc)?;
    Ok(is_function(&first, low) && is_function(&second, high))
}

/// Builds two functions of three signatures, whose numbers have three octal digits: of each number one function has the last
/// and one the first.
fn three_at_once(alloc: Global) -> Result<Both, AllocError> {
    let sigs = [later(1), later(2), later(3)];
    build_both(alloc, &sigs, &[0o102, 0o364, 0o517], 3, 6, 3)
}

#[test]
fn both_are_as_built_alone(rt: HostRuntime) -> Result<(), Fail> {
    let both = three_at_once(rt.alloc())?;
    let alone = match &both {
        Both::Done { low, high } => are_alone(rt.alloc(), low, high)?,
        Both::Twins { .. } | Both::Stuck { .. } => false,
    };
    assert!(rt; alone);
    Ok(())
}

#[test]
fn equal_signatures_have_neither(rt: HostRuntime) -> Result<(), Fail> {
    let sigs = [later(7), later(5), later(5)];
    match build_both(rt.alloc(), &sigs, &[1, 2, 3], 1, 1, 1)? {
        Both::Twins { first, second } => assert_eq!(rt; (first, second), (1, 2)),
        Both::Done { .. } | Both::Stuck { .. } => assert!(rt; false, "no twins"),
    }
    Ok(())
}
