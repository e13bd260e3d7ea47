//! Rows are made of equations and reduced by the rows before them, until each has a pivot that no later row has.

ghost use Rattle.std.specs.Prelude.{◌≡◌, ◌≢◌, ◌+◌, ◌*◌, ◌/◌, ◌%◌, ◌<◌, ◌≤◌, ◌^◌, ◌==◌, ◌++◌, ◌∷◌, [], cond, ℕ, All, OnOk, IfOk, List, MatchOption, Some, bit_xor, filter, length, slice_get};
ghost use Rattle.std.specs.List.{range_with_len};
ghost use Rattle.sx_spec.specs.Systems.{cells_at, count_of, unknowns, vertices};
ghost use Rattle.sx_spec.specs.declared.Equation.{Equation};
ghost use Rattle.sx_solve.specs.Solving.{IsEquationWithin};
ghost use Rattle.sx_solve.specs.Rows.{AreRows, AreSteps, HasWords, IsContradictory, IsEliminated, IsRow, Meets, bit, xor_by};

use crate::Equation;
use crate::bits::{add_bits, first_bit, no_bits, set_bit, test_bit};
use std::alloc::{AllocError, Global};

/// A sum of equations.
#[derive(Debug, Drop)]
pub(crate) struct Row {
    /// A bit for each unknown: whether it stands in the sum.
    pub(crate) unknowns: Vec<u64>,
    /// A bit for each equation: whether it is part of the sum.
    pub(crate) set: Vec<u64>,
    pub(crate) value: u64,
    /// An unknown of the sum that stands in no later row.
    pub(crate) pivot: usize,
}

/// What elimination comes to.
#[derive(Debug, Drop)]
pub(crate) enum Eliminated {
    Steps(Vec<Row>),
    Sum(Vec<u32>),
}

/// Rows that have each a pivot that no later one has, and from which every equation follows; or a sum of equations that has
/// no solution.
pub(crate) fn eliminate(
    alloc: Global,
    vars: u32,
    eqs: &[Equation],
) -> Result<Eliminated, AllocError>
    requires within { All (IsEquationWithin vars) eqs.now }
    requires few { 3 * length eqs.now < 2 ^ 32 }
    ensures { IfOk result (λ e. IsEliminated vars eqs.now e) }
{
    let mut rows = Vec::new(alloc);
    for number in 0..eqs.len() {
        if let Some(row) = take_in(alloc, &mut rows, vars, eqs, number)? {
            return Ok(Eliminated::Sum(numbers_of(alloc, &row.set, eqs.len() as u32)?));
        }
    }
    Ok(Eliminated::Steps(rows))
}

/// Adds the equation of this number to the rows, unless it follows from them. A row that no cells meet is handed back.
fn take_in(
    alloc: Global,
    rows: &mut Vec<Row>,
    vars: u32,
    eqs: &[Equation],
    number: usize,
) -> Result<Option<Row>, AllocError>
    requires within { All (IsEquationWithin vars) eqs.now }
    requires number { number < length eqs.now }
    requires rows { AreRows vars eqs.now number rows.old.items }
    ensures { IfOk result (λ r. MatchOption r (AreRows vars eqs.now (number + 1) rows.new.items)
        (IsContradictory eqs.now)) }
{
    let mut row = reduced(alloc, rows, vars, eqs, number)?;
    match first_bit(&row.unknowns) {
        Some(pivot) => {
            row.pivot = pivot;
            rows.push(row)?;
            Ok(None)
        }
        None if row.value == 0 => Ok(None),
        None => Ok(Some(row)),
    }
}

/// The row of the equation of this number, reduced by the rows.
fn reduced(
    alloc: Global,
    rows: &[Row],
    vars: u32,
    eqs: &[Equation],
    number: usize,
) -> Result<Row, AllocError>
    requires within { All (IsEquationWithin vars) eqs.now }
    requires number { number < length eqs.now }
    requires rows { AreRows vars eqs.now number rows.now }
    ensures words { IfOk result (λ r. HasWords (vars / 64 + 1) (length eqs.now / 64 + 1) r) }
    ensures sum { IfOk result (λ r. IsRow eqs.now r) }
    ensures meets { IfOk result
        (λ r. (cells : List ℕ) → vars ≤ length cells → All (Meets cells) rows.now → Meets cells r
        → (q : Equation) → slice_get eqs.now number ≡ Some q → cells_at cells (unknowns q) ≡ q.value) }
    ensures cleared { IfOk result (λ r. All (λ s. bit r.unknowns.items s.pivot ≡ 0) rows.now) }
{
    let q = eqs[number];
    let unknowns = unknowns_of(alloc, vars, q)?;
    let set = set_of(alloc, eqs.len(), number)?;
    let mut row = Row {
        unknowns,
        set,
        value: q.value,
        pivot: 0,
    };
    row.reduce(rows);
    Ok(row)
}

/// The unknowns of an equation.
fn unknowns_of(alloc: Global, vars: u32, q: Equation) -> Result<Vec<u64>, AllocError>
    requires { IsEquationWithin vars q }
    ensures words { IfOk result (λ v. length v.items ≡ vars / 64 + 1) }
    ensures bits { IfOk result
        (λ v. (i : ℕ) → bit v.items i ≡ count_of i (vertices (unknowns q)) % 2) }
    ensures xor { IfOk result (λ v. (cells : List ℕ) → vars ≤ length cells
        → xor_by (bit v.items) 0 cells ≡ cells_at cells (unknowns q)) }
{
    let mut bits = no_bits(alloc, vars as usize)?;
    set_bit(&mut bits, q.a as usize);
    set_bit(&mut bits, q.b as usize);
    set_bit(&mut bits, q.c as usize);
    Ok(bits)
}

/// The set of one number among so many.
fn set_of(alloc: Global, count: usize, number: usize) -> Result<Vec<u64>, AllocError>
    requires { number < count }
    ensures words { IfOk result (λ v. length v.items ≡ count / 64 + 1) }
    ensures same { IfOk result (λ v. bit v.items number ≡ 1) }
    ensures others { IfOk result (λ v. (i : ℕ) → i ≢ number → bit v.items i ≡ 0) }
{
    let mut set = no_bits(alloc, count)?;
    set_bit(&mut set, number);
    Ok(set)
}

/// The numbers below the count whose bits are set, rising.
pub(crate) fn numbers_of(alloc: Global, set: &[u64], count: u32) -> Result<Vec<u32>, AllocError>
    requires { count / 64 < length set.now }
    ensures { IfOk result
        (λ v. v.items ≡ filter (λ i. bit set.now i == 1) (range_with_len 0 count)) }
{
    let mut numbers = Vec::new(alloc);
    for number in 0..count {
        push_where(&mut numbers, number, test_bit(set, number as usize))?;
    }
    Ok(numbers)
}

/// Adds the number, if it is wanted.
fn push_where(numbers: &mut Vec<u32>, number: u32, wanted: bool) -> Result<(), AllocError>
    ensures { OnOk result (numbers.new.items ≡ numbers.old.items ++ cond wanted (number ∷ []) []) }
{
    if wanted {
        numbers.push(number)?;
    }
    Ok(())
}

impl Row {
    /// Clears the pivots of the rows.
    fn reduce(&mut self, rows: &[Row])
        requires words { All (HasWords (length self.old.unknowns.items) (length self.old.set.items))
            rows.now }
        requires steps { AreSteps rows.now }
        ensures words { HasWords (length self.old.unknowns.items) (length self.old.set.items)
            self.new }
        ensures sum { (equations : List Equation) → All (IsRow equations) rows.now
            → IsRow equations self.old → IsRow equations self.new }
        ensures meets { (cells : List ℕ) → All (Meets cells) rows.now → Meets cells self.new
            → Meets cells self.old }
        ensures cleared { All (λ r. bit self.new.unknowns.items r.pivot ≡ 0) rows.now }
    {
        for row in rows {
            self.clear(row);
        }
    }

    /// Clears the pivot of a row, by adding that row.
    fn clear(&mut self, row: &Row)
        requires words { HasWords (length self.old.unknowns.items) (length self.old.set.items)
            row.now }
        requires own { bit row.now.unknowns.items row.now.pivot ≡ 1 }
        ensures words { HasWords (length self.old.unknowns.items) (length self.old.set.items)
            self.new }
        ensures sum { (equations : List Equation) → IsRow equations row.now
            → IsRow equations self.old → IsRow equations self.new }
        ensures meets { (cells : List ℕ) → Meets cells row.now → Meets cells self.new
            → Meets cells self.old }
        ensures cleared { bit self.new.unknowns.items row.now.pivot ≡ 0 }
        ensures others { (v : ℕ) → bit row.now.unknowns.items v ≡ 0
            → bit self.new.unknowns.items v ≡ bit self.old.unknowns.items v }
    {
        if !test_bit(&self.unknowns, row.pivot) {
            return;
        }
        add_bits(&mut self.unknowns, &row.unknowns);
        add_bits(&mut self.set, &row.set);
        self.value ^= row.value;
    }
}
