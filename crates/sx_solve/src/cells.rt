//! The numbers of the unknowns, from the last row to the first.

ghost use Rattle.std.specs.Prelude.{◌≡◌, ◌*◌, ◌/◌, ◌<◌, ◌^◌, ℕ, All, IfOk, length, replicate};
ghost use Rattle.sx_solve.specs.Rows.{AreSteps, Meets, bit, xor_by};

use crate::bits::test_bit;
use crate::rows::Row;
use std::alloc::{AllocError, Global};

/// So many numbers that meet every row.
pub(crate) fn cells_of(alloc: Global, count: usize, rows: &[Row]) -> Result<Vec<u64>, AllocError>
    requires steps { AreSteps rows.now }
    requires pivots { All (λ r. r.pivot < count) rows.now }
    requires words { All (λ r. count / 64 < length r.unknowns.items) rows.now }
    ensures count { IfOk result (λ v. length v.items ≡ count) }
    ensures met { IfOk result (λ v. All (Meets v.items) rows.now) }
    ensures narrow { IfOk result
        (λ v. (k : ℕ) → All (λ r. r.value < 2 ^ k) rows.now → All (λ x. x < 2 ^ k) v.items) }
{
    let mut cells = zeros(alloc, count)?;
    fill(&mut cells, rows);
    Ok(cells)
}

/// So many numbers of 0.
pub(crate) fn zeros(alloc: Global, count: usize) -> Result<Vec<u64>, AllocError>
    ensures { IfOk result (λ v. v.items ≡ replicate count 0) }
{
    Ok(vec![in alloc; 0; count]?)
}

/// Sets the number of each pivot so that its row is met.
fn fill(cells: &mut [u64], rows: &[Row])
    requires steps { AreSteps rows.now }
    requires pivots { All (λ r. r.pivot < length cells.old) rows.now }
    requires words { All (λ r. length cells.old / 64 < length r.unknowns.items) rows.now }
    ensures met { All (Meets cells.new) rows.now }
    ensures narrow { (k : ℕ) → All (λ r. r.value < 2 ^ k) rows.now → All (λ x. x < 2 ^ k) cells.old
        → All (λ x. x < 2 ^ k) cells.new }
{
    for k in (0..rows.len()).rev() {
        let row = &rows[k];
        let rest = xor_of(&row.unknowns, cells);
        cells[row.pivot] ^= row.value ^ rest;
    }
}

/// The xor of the cells whose bit is set.
fn xor_of(words: &[u64], cells: &[u64]) -> u64
    requires { length cells.now / 64 < length words.now }
    ensures { result ≡ xor_by (bit words.now) 0 cells.now }
{
    let mut xor = 0;
    for (i, cell) in cells.iter().enumerate() {
        xor ^= marked(words, i, *cell);
    }
    xor
}

/// The cell where its bit is set, or 0.
fn marked(words: &[u64], i: usize, cell: u64) -> u64
    requires { i / 64 < length words.now }
    ensures { result ≡ bit words.now i * cell }
{
    if test_bit(words, i) { cell } else { 0 }
}
