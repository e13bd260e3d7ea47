//! The equations that lazy elimination leaves, as rows of bits over the unknowns that it sets aside. All rows are in one
//! vector. A plane has a word of each unknown, so one pass through the order fills 64 columns.

ghost use Rattle.std.specs.Prelude.{◌≡◌, ◌+◌, ◌*◌, ◌/◌, ◌<◌, ◌≤◌, ◌^◌, All, IfOk, IfSome, length};
ghost use Rattle.sx_solve.specs.Lazy.{IsOrder, IsPivotWithin, IsStepWithin, IsSystem};
ghost use Rattle.sx_solve.specs.Solving.{IsEquationWithin};

use crate::Equation;
use crate::bits::first_bit;
use crate::cells::zeros;
use crate::lazy::{Order, Pivot};
use std::alloc::{AllocError, Global};

/// Rows of bits with their values.
#[derive(Debug, Drop)]
pub(crate) struct System {
    /// How many words of a row are for unknowns. Those behind them are for the rows that it was made of.
    pub(crate) words: usize,
    /// How many words a row has.
    pub(crate) width: usize,
    pub(crate) rows: Vec<u64>,
    /// The value of each row.
    pub(crate) values: Vec<u64>,
}

/// A row that has an unknown which no later row has.
#[derive(Clone, Copy, Debug)]
pub(crate) struct Step {
    row: usize,
    column: usize,
}

/// The rows of the equations that give no unknown.
pub(crate) fn system_of(
    alloc: Global,
    vars: u32,
    eqs: &[Equation],
    order: &Order,
) -> Result<System, AllocError>
    requires within { All (IsEquationWithin vars) eqs.now }
    requires few { 3 * length eqs.now < 2 ^ 32 }
    requires order { IsOrder vars (length eqs.now) order.now }
    ensures { IfOk result
        (λ s. IsSystem (length order.now.aside.items) (length order.now.dense.items) s) }
{
    let count = order.dense.len();
    let words = order.aside.len() / 64 + 1;
    let width = words + count / 64 + 1;
    let mut rows = zeros(alloc, count * width)?;
    let mut plane = zeros(alloc, vars as usize)?;
    for word in 0..words {
        plane.fill(0);
        mark_aside(&mut plane, &order.aside, word);
        give(&mut plane, eqs, &order.pivots, 0);
        gather(&mut rows, &plane, eqs, &order.dense, word, width);
    }
    mark_own(&mut rows, count, words, width);
    plane.fill(0);
    give(&mut plane, eqs, &order.pivots, u64::MAX);
    let values = sums_at(alloc, &plane, eqs, &order.dense)?;
    Ok(System {
        words,
        width,
        rows,
        values,
    })
}

/// Sets the bit of each unknown set aside whose bit stands in this word.
fn mark_aside(plane: &mut [u64], aside: &[u32], word: usize)
    requires { All (λ unknown. unknown < length plane.old) aside.now }
{
    for (place, unknown) in aside.iter().enumerate() {
        if place / 64 == word {
            plane[*unknown as usize] = 1 << (place % 64);
        }
    }
}

/// Gives each pivot's unknown the xor of the other unknowns of its equation, and of those bits of its value that are in the
/// mask. So the equation is put into all those after it in which that unknown stands.
pub(crate) fn give(cells: &mut [u64], eqs: &[Equation], pivots: &[Pivot], mask: u64)
    requires within { All (IsEquationWithin (length cells.old)) eqs.now }
    requires pivots { All (IsPivotWithin (length cells.old) (length eqs.now)) pivots.now }
{
    for pivot in pivots {
        let sum = sum_at(cells, eqs[pivot.equation as usize], mask);
        cells[pivot.unknown as usize] = sum;
    }
}

/// The xor of an equation's unknowns, and of those bits of its value that are in the mask.
fn sum_at(cells: &[u64], q: Equation, mask: u64) -> u64
    requires { IsEquationWithin (length cells.now) q }
{
    (q.value & mask) ^ cells[q.a as usize] ^ cells[q.b as usize] ^ cells[q.c as usize]
}

/// Writes a word of each row.
fn gather(
    rows: &mut [u64],
    plane: &[u64],
    eqs: &[Equation],
    dense: &[u32],
    word: usize,
    width: usize,
)
    requires within { All (IsEquationWithin (length plane.now)) eqs.now }
    requires dense { All (λ equation. equation < length eqs.now) dense.now }
    requires rows { length rows.old ≡ length dense.now * width }
    requires word { word < width }
{
    for (row, number) in dense.iter().enumerate() {
        rows[row * width + word] = sum_at(plane, eqs[*number as usize], 0);
    }
}

/// Marks that each row is made of itself.
fn mark_own(rows: &mut [u64], count: usize, words: usize, width: usize)
    requires rows { length rows.old ≡ count * width }
    requires width { words + count / 64 < width }
{
    for row in 0..count {
        rows[row * width + words + row / 64] = 1 << (row % 64);
    }
}

/// The value of each row.
fn sums_at(
    alloc: Global,
    plane: &[u64],
    eqs: &[Equation],
    dense: &[u32],
) -> Result<Vec<u64>, AllocError>
    requires within { All (IsEquationWithin (length plane.now)) eqs.now }
    requires dense { All (λ equation. equation < length eqs.now) dense.now }
    ensures { IfOk result (λ v. length v.items ≡ length dense.now) }
{
    let mut sums = Vec::with_capacity(alloc, dense.len())?;
    for number in dense {
        sums.push(sum_at(plane, eqs[*number as usize], u64::MAX))?;
    }
    Ok(sums)
}

/// Reduces each row by those before it, until one has no unknown and a value other than 0.
pub(crate) fn eliminate_rows(
    rows: &mut [u64],
    values: &mut [u64],
    steps: &mut Vec<Step>,
    words: usize,
    width: usize,
) -> Result<Option<usize>, AllocError>
    requires rows { length rows.old ≡ length values.old * width }
    requires words { words ≤ width }
    requires few { 64 * words < 2 ^ 63 }
    requires steps { All (IsStepWithin words (length values.old)) steps.old.items }
    ensures steps { All (IsStepWithin words (length values.old)) steps.new.items }
    ensures row { IfOk result (λ o. IfSome o (λ row. row < length values.old)) }
{
    for row in 0..values.len() {
        reduce(rows, values, steps, width, row);
        match first_column(rows, words, width, row) {
            Some(column) => steps.push(Step { row, column })?,
            None if values[row] == 0 => {}
            None => return Ok(Some(row)),
        }
    }
    Ok(None)
}

/// The first unknown of a row.
fn first_column(rows: &[u64], words: usize, width: usize, row: usize) -> Option<usize>
    requires words { words ≤ width }
    requires few { 64 * words < 2 ^ 63 }
    requires row { row * width + width ≤ length rows.now }
    ensures { IfSome result (λ column. column / 64 < words) }
{
    let place = row * width;
    first_bit(&rows[place..place + words])
}

/// Clears the columns of the steps in a row.
fn reduce(rows: &mut [u64], values: &mut [u64], steps: &[Step], width: usize, row: usize)
    requires rows { length rows.old ≡ length values.old * width }
    requires steps { All (IsStepWithin width (length values.old)) steps.now }
    requires row { row < length values.old }
{
    for step in steps {
        let place = row * width;
        if rows[place + step.column / 64] >> (step.column % 64) & 1 == 1 {
            add_words(rows, step.row * width, place, width);
            values[row] ^= values[step.row];
        }
    }
}

/// Adds so many words to others.
fn add_words(rows: &mut [u64], from: usize, to: usize, count: usize)
    requires from { from + count ≤ length rows.old }
    requires to { to + count ≤ length rows.old }
{
    for k in 0..count {
        rows[to + k] ^= rows[from + k];
    }
}

/// The cells of the unknowns set aside.
pub(crate) fn dense_cells(
    alloc: Global,
    system: &System,
    steps: &[Step],
) -> Result<Vec<u64>, AllocError>
    requires rows { length system.now.rows.items
        ≡ length system.now.values.items * system.now.width }
    requires words { system.now.words ≤ system.now.width }
    requires few { 64 * system.now.words < 2 ^ 63 }
    requires steps { All (IsStepWithin system.now.words (length system.now.values.items))
        steps.now }
    ensures { IfOk result (λ v. length v.items ≡ 64 * system.now.words) }
{
    let mut cells = zeros(alloc, 64 * system.words)?;
    settle(
        &mut cells,
        &system.rows,
        &system.values,
        steps,
        system.width,
    );
    Ok(cells)
}

/// Sets the cell of each step's unknown, from the last step to the first.
fn settle(cells: &mut [u64], rows: &[u64], values: &[u64], steps: &[Step], width: usize)
    requires rows { length rows.now ≡ length values.now * width }
    requires words { length cells.old / 64 ≤ width }
    requires steps { All (IsStepWithin (length cells.old / 64) (length values.now)) steps.now }
{
    let words = cells.len() / 64;
    for k in (0..steps.len()).rev() {
        let step = steps[k];
        let place = step.row * width;
        let rest = xor_of_words(&rows[place..place + words], cells);
        cells[step.column] = values[step.row] ^ rest;
    }
}

/// The xor of the cells whose bit is set.
fn xor_of_words(words: &[u64], cells: &[u64]) -> u64
    requires { 64 * length words.now ≤ length cells.now }
{
    let mut xor = 0;
    for (k, word) in words.iter().enumerate() {
        xor ^= xor_of_word(*word, &cells[64 * k..64 * k + 64]);
    }
    xor
}

/// The xor of the cells whose bit is set, of 64.
fn xor_of_word(word: u64, cells: &[u64]) -> u64
    requires { 64 ≤ length cells.now }
{
    let mut left = word;
    let mut xor = 0;
    while left != 0 {
        xor ^= cells[left.trailing_zeros() as usize];
        left &= left - 1;
    }
    xor
}
