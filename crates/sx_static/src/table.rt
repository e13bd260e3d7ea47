//! The chunks one after another: their table, and their cells in a row.

ghost use Rattle.std.specs.Prelude.{◌≡◌, ◌+◌, ◌*◌, ◌<◌, ◌≤◌, ◌^◌, ℕ, All, IfOk, length, map, take, sum_by, ◌++◌};
ghost use Rattle.std.specs.List.{range_with_len};
ghost use Rattle.sx_spec.specs.Chunks.{chunk_bits};
ghost use Rattle.sx_spec.specs.StaticFunction.{AllDiffer};
ghost use Rattle.sx_spec.specs.declared.Method.TheVariants.{Gov3};
ghost use Rattle.sx_sig.specs.Grouping.{GathersEqual, chunk_numbers};
ghost use Rattle.sx_static.specs.Answer.{IsAnswer, entries_of};
ghost use Rattle.sx_static.specs.Chunks.{ListsHold, cells_needed};

use crate::chunk::{Tried, build_chunk};
use crate::section::START_BITS;
use crate::twins::why_none;
use crate::{Built, FuncBuf, Method, Signature};
use std::alloc::{AllocError, Global};
use sx_fields::fields::FieldsMut;
use sx_fields::packed_buf::PackedBuf;
use sx_sig::segment;

/// Builds one chunk after the other, from the numbers of their pairs. Where edges are peeled, equal signatures are looked for
/// only at a chunk that has none.
pub(crate) fn build_chunks(
    alloc: Global,
    sigs: &[Signature],
    values: &[u64],
    width: u32,
    method: Method,
    chunks: &[Vec<u32>],
) -> Result<Built, AllocError>
    requires values { length values.now ≡ length sigs.now }
    requires few { length sigs.now ≤ 2 ^ 27 }
    requires fit { All (λ v. v < 2 ^ width) values.now }
    requires width { width ≤ 64 }
    requires differ { method ≡ Gov3 → AllDiffer sigs.now }
    requires lists { map (λ v. v.items) chunks.now
        ≡ map (chunk_numbers (chunk_bits (length sigs.now)) sigs.now)
        (range_with_len 0 (2 ^ chunk_bits (length sigs.now))) }
    requires gathers { GathersEqual sigs.now (map (λ v. v.items) chunks.now) }
    ensures { IfOk result (λ b. IsAnswer method 64 width (entries_of sigs.now values.now) b) }
{
    let total = all_cells(method, chunks);
    let mut cells = PackedBuf::zeroed(alloc, total, width)?;
    let mut table = Vec::with_capacity(alloc, chunks.len() + 1)?;
    let mut start: usize = 0;
    for (chunk, numbers) in chunks.iter().enumerate() {
        match build_chunk(alloc, sigs, values, method, numbers)? {
            Tried::Works {
                number,
                cells: found,
            } => {
                table.push(start as u64 + (u64::from(number) << START_BITS))?;
                put_cells(&mut cells, start, &found);
                start += found.len();
            }
            Tried::Fails(witnesses) => {
                let why = why_none(alloc, sigs, chunks, chunk as u32, witnesses)?;
                return Ok(why);
            }
        }
    }
    table.push(start as u64)?;
    Ok(Built::Done(FuncBuf {
        width,
        pairs: sigs.len() as u32,
        table,
        cells,
    }))
}

/// How many cells the chunks of these numbers have.
fn all_cells(method: Method, chunks: &[Vec<u32>]) -> usize
    requires lists { ListsHold (2 ^ 27) (map (λ v. v.items) chunks.now) }
    ensures value { result ≡ sum_by (cells_needed method) (map (λ v. v.items) chunks.now) }
    ensures short { result ≤ 2 ^ 32 }
{
    let mut cells: usize = 0;
    for numbers in chunks {
        cells += 3 * segment(method, numbers.len() as u32) as usize;
    }
    cells
}

/// Sets the cells from `start` on to those found.
fn put_cells(cells: &mut PackedBuf, start: usize, found: &[u64])
    requires room { start + length found.now ≤ length cells.old.items }
    requires short { length cells.old.items ≤ 2 ^ 32 }
    requires fit { All (λ v. v < 2 ^ cells.old.width) found.now }
    ensures width { cells.new.width ≡ cells.old.width }
    ensures count { length cells.new.items ≡ length cells.old.items }
    ensures items { take (start + length found.now) cells.new.items
        ≡ take start cells.old.items ++ found.now }
    ensures fit { All (λ v. v < 2 ^ cells.old.width) cells.old.items
        → All (λ v. v < 2 ^ cells.old.width) cells.new.items }
{
    for (place, cell) in found.iter().enumerate() {
        cells.set(start + place, *cell);
    }
}
