//! Two functions over the same signatures: one function is built, whose values hold the values of both, and it is taken
//! apart. Cells whose xor is a value have bits whose xor are the bits of the value.

ghost use Rattle.std.specs.Prelude.{◌≡◌, ◌+◌, ◌<◌, ◌≤◌, ◌^◌, All, IfOk, length, map};
ghost use Rattle.sx_static.specs.Both.{AreBoth, IsPartOf, bits_from};
ghost use Rattle.sx_steps.specs.Blanks.{IsBlankOf};

use crate::{Built, FuncBuf, Method, Signature, Witness, build};
use std::alloc::{AllocError, Global};
use std::marker::Brand;
use std::sync::ledger::{Blank, Ledger};
use sx_fields::fields::{Fields, FieldsMut};
use sx_fields::packed_buf::PackedBuf;
use sx_steps::Steps;

/// What a build of two functions comes to.
#[derive(Drop)]
pub enum Both {
    /// The function of the lowest bits of each value, and that of the highest.
    Done { low: FuncBuf, high: FuncBuf },
    /// Neither, since two signatures are equal, as for one function.
    Twins { first: u32, second: u32 },
    /// Neither, since no try works for a chunk, as for one function.
    Stuck { chunk: u32, witnesses: Vec<Witness> },
}

/// Builds by peeling the functions that answer each signature with the lowest `low` bits of its value, and with the `high`
/// bits from bit `shift` on, which are the last; each as it is built alone. A value has at most 64 bits. There are at most
/// 134,217,728 signatures.
///
/// # Errors
///
/// Want of memory.
pub fn build_both(
    alloc: Global,
    sigs: &[Signature],
    values: &[u64],
    low: u32,
    shift: u32,
    high: u32,
) -> Result<Both, AllocError>
    requires values { length values.now ≡ length sigs.now }
    requires few { length sigs.now ≤ 2 ^ 27 }
    requires fit { All (λ v. v < 2 ^ (shift + high)) values.now }
    requires low { low ≤ 64 }
    requires high { shift + high ≤ 64 }
    ensures { IfOk result (λ b. AreBoth 64 low shift high sigs.now values.now b) }
{
    match build(alloc, sigs, values, shift + high, Method::Mwhc)? {
        Built::Done(whole) => {
            let lower = part_of(alloc, &whole, 0, low)?;
            let upper = part_of(alloc, &whole, shift, high)?;
            Ok(Both::Done {
                low: lower,
                high: upper,
            })
        }
        Built::Twins { first, second } => Ok(Both::Twins { first, second }),
        Built::Stuck { chunk, witnesses } => Ok(Both::Stuck { chunk, witnesses }),
    }
}

/// The function whose values are the bits of this function's values from bit `shift` on, as many as `width`.
fn part_of(alloc: Global, whole: &FuncBuf, shift: u32, width: u32) -> Result<FuncBuf, AllocError>
    requires short { length whole.now.cells.items ≤ 2 ^ 32 }
    requires within { shift + width ≤ 64 }
    ensures { IfOk result (IsPartOf shift width whole.now) }
{
    let cells = cells_part(alloc, &whole.cells, shift, width)?;
    let table = whole.table.clone()?;
    Ok(FuncBuf {
        width,
        pairs: whole.pairs,
        table,
        cells,
    })
}

/// The bits of each cell from bit `shift` on, as many as `width`.
fn cells_part(
    alloc: Global,
    cells: &PackedBuf,
    shift: u32,
    width: u32,
) -> Result<PackedBuf, AllocError>
    requires short { length cells.now.items ≤ 2 ^ 32 }
    requires within { shift + width ≤ 64 }
    ensures width { IfOk result (λ part. part.width ≡ width) }
    ensures items { IfOk result (λ part. part.items ≡ map (bits_from shift width) cells.now.items) }
{
    part_counted::<Brand>(alloc, cells, shift, width, Blank::new(1))
}

/// The bits of each cell; the reads are counted, for nothing.
fn part_counted<L: Ledger>(
    alloc: Global,
    cells: &PackedBuf,
    shift: u32,
    width: u32,
    blank: Blank,
) -> Result<PackedBuf, AllocError>
    requires blank { IsBlankOf L.Ledger blank }
    requires short { length cells.now.items ≤ 2 ^ 32 }
    requires within { shift + width ≤ 64 }
    ensures width { IfOk result (λ part. part.width ≡ width) }
    ensures items { IfOk result (λ part. part.items ≡ map (bits_from shift width) cells.now.items) }
{
    let mut steps = Steps::<L>::new(blank);
    let mut part = PackedBuf::zeroed(alloc, cells.len(), width)?;
    for place in 0..cells.len() {
        part.set(place, bits_of(cells.get(place, &mut steps), shift, width));
    }
    Ok(part)
}

/// The bits of a number from bit `shift` on, as many as `width`.
#[inline(always)]
fn bits_of(number: u64, shift: u32, width: u32) -> u64
    requires { shift + width ≤ 64 }
    ensures bits { result ≡ bits_from shift width number }
    ensures fit { result < 2 ^ width }
{
    if width == 0 {
        return 0;
    }
    number >> shift & u64::MAX >> (64 - width)
}
