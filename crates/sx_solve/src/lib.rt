//! Linear systems over GF(2) with three unknowns an equation. Lazy elimination proposes an answer, which is tested; where a
//! test fails, plain elimination on rows of bits is run.
#![tactic(auto)]

ghost use Rattle.std.specs.Prelude.{◌≡◌, ◌+◌, ◌*◌, ◌/◌, ◌<◌, ◌^◌, ℕ, All, IfOk, length};
ghost use Rattle.sx_solve.specs.Solving.{IsEquationWithin, IsSolved};

mod bits;
mod cells;
mod crowded;
mod dense;
pub mod law;
mod lazy;
mod marking;
mod plain;
mod propose;
mod rows;
mod solution;
mod standing;
mod witness;

use marking::sum_of;
use plain::solve_plainly;
use propose::{Proposed, propose};
use solution::is_solution;
use std::alloc::{AllocError, Global};
pub use sx_spec::Equation;

/// What solving comes to.
#[derive(Debug, Drop)]
pub enum Solved {
    /// A number for each unknown.
    Cells(Vec<u64>),
    /// The numbers of equations, rising and at least one, in which each unknown stands an even number of times, and the xor of
    /// whose values isn't 0.
    Sum(Vec<u32>),
}

/// Solves the equations, whose unknowns are below `vars`. A sum comes exactly where there is no solution. Where every value is
/// below a power of two, so is every number of the solution.
///
/// # Errors
///
/// Want of memory.
pub fn solve(alloc: Global, vars: u32, eqs: &[Equation]) -> Result<Solved, AllocError>
    requires within { All (IsEquationWithin vars) eqs.now }
    requires few { 3 * length eqs.now < 2 ^ 32 }
    ensures { IfOk result (λ s. IsSolved vars eqs.now s) }
{
    match propose(alloc, vars, eqs)? {
        Proposed::Cells(cells) => {
            if is_solution(vars, eqs, &cells) {
                return Ok(Solved::Cells(cells));
            }
        }
        Proposed::Sum(marks) => {
            if let Some(numbers) = sum_of(alloc, vars, eqs, &marks)? {
                return Ok(Solved::Sum(numbers));
            }
        }
    }
    solve_plainly(alloc, vars, eqs)
}

#[cfg(test)]
mod random_tests;
#[cfg(test)]
mod tests;
