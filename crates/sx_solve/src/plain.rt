//! Plain elimination on rows of bits, over all equations.

ghost use Rattle.std.specs.Prelude.{◌*◌, ◌<◌, ◌^◌, All, IfOk, length};
ghost use Rattle.sx_solve.specs.Solving.{IsEquationWithin, IsSolved};

use crate::cells::cells_of;
use crate::rows::{Eliminated, eliminate};
use crate::{Equation, Solved};
use std::alloc::{AllocError, Global};

/// Solves the equations, or finds a sum of theirs that has no solution.
pub(crate) fn solve_plainly(
    alloc: Global,
    vars: u32,
    eqs: &[Equation],
) -> Result<Solved, AllocError>
    requires within { All (IsEquationWithin vars) eqs.now }
    requires few { 3 * length eqs.now < 2 ^ 32 }
    ensures { IfOk result (λ s. IsSolved vars eqs.now s) }
{
    match eliminate(alloc, vars, eqs)? {
        Eliminated::Steps(rows) => Ok(Solved::Cells(cells_of(alloc, vars as usize, &rows)?)),
        Eliminated::Sum(numbers) => Ok(Solved::Sum(numbers)),
    }
}
