//! What lazy elimination proposes.

ghost use Rattle.std.specs.Prelude.{◌*◌, ◌<◌, ◌^◌, All, IfOk, length};
ghost use Rattle.sx_solve.specs.Lazy.{IsProposed};
ghost use Rattle.sx_solve.specs.Solving.{IsEquationWithin};

use crate::Equation;
use crate::dense::{dense_cells, eliminate_rows, give, system_of};
use crate::lazy::order_of;
use crate::witness::witness;
use std::alloc::{AllocError, Global};

/// What may be a solution, or a sum that has none. Only a test can tell.
#[derive(Debug, Drop)]
pub(crate) enum Proposed {
    /// A number for each unknown.
    Cells(Vec<u64>),
    /// A bit for each equation.
    Sum(Vec<u64>),
}

/// Solves the dense system that lazy elimination leaves. Its cells give those of the other unknowns in the order; a row of it
/// that has no solution is traced back to the equations that it is the sum of.
pub(crate) fn propose(alloc: Global, vars: u32, eqs: &[Equation]) -> Result<Proposed, AllocError>
    requires within { All (IsEquationWithin vars) eqs.now }
    requires few { 3 * length eqs.now < 2 ^ 32 }
    ensures { IfOk result (λ p. IsProposed eqs.now p) }
{
    let order = order_of(alloc, vars, eqs)?;
    let mut system = system_of(alloc, vars, eqs, &order)?;
    let words = system.words;
    let width = system.width;
    let mut steps = Vec::with_capacity(alloc, order.dense.len())?;
    if let Some(row) = eliminate_rows(
        &mut system.rows,
        &mut system.values,
        &mut steps,
        words,
        width,
    )? {
        let rows = &system.rows[row * width + words..row * width + width];
        return Ok(Proposed::Sum(witness(alloc, vars, eqs, &order, rows)?));
    }
    let aside = dense_cells(alloc, &system, &steps)?;
    let mut cells = vec![in alloc; 0; vars as usize]?;
    for (place, unknown) in order.aside.iter().enumerate() {
        cells[*unknown as usize] = aside[place];
    }
    give(&mut cells, eqs, &order.pivots, u64::MAX);
    Ok(Proposed::Cells(cells))
}
