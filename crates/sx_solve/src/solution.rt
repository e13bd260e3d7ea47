//! Whether cells are a solution.

ghost use Rattle.std.specs.Prelude.{◌≡◌, ◌<◌, ◌≤◌, ◌^◌, ◌↔◌, ℕ, All, IsTrue, length};
ghost use Rattle.std.specs.Int.{leading_zeros, w64};
ghost use Rattle.sx_spec.specs.Systems.{cells_at, unknowns};
ghost use Rattle.sx_solve.specs.Solving.{IsEquationWithin, IsSolution};

use crate::Equation;

/// Whether the cells are as many as the unknowns, meet every equation, and are below each power of two that all values are
/// below.
pub(crate) fn is_solution(vars: u32, eqs: &[Equation], cells: &[u64]) -> bool
    requires { All (IsEquationWithin vars) eqs.now }
    ensures { IsTrue result ↔ IsSolution vars eqs.now cells.now }
{
    if cells.len() != vars as usize || !all_met(eqs, cells) {
        return false;
    }
    all_narrow(greatest_value(eqs), cells)
}

/// Whether the cells meet every equation.
fn all_met(eqs: &[Equation], cells: &[u64]) -> bool
    requires { All (IsEquationWithin (length cells.now)) eqs.now }
    ensures { IsTrue result ↔ All (λ q. cells_at cells.now (unknowns q) ≡ q.value) eqs.now }
{
    for q in eqs {
        if cells[q.a as usize] ^ cells[q.b as usize] ^ cells[q.c as usize] != q.value {
            return false;
        }
    }
    true
}

/// The greatest value, or 0 where there is none.
fn greatest_value(eqs: &[Equation]) -> u64
    ensures { (k : ℕ) → (result < 2 ^ k) ↔ All (λ q. q.value < 2 ^ k) eqs.now }
{
    let mut greatest = 0;
    for q in eqs {
        greatest = greatest.max(q.value);
    }
    greatest
}

/// Whether every cell is below each power of two that this number is below.
fn all_narrow(greatest: u64, cells: &[u64]) -> bool
    ensures { IsTrue result ↔ ((k : ℕ) → greatest < 2 ^ k → All (λ x. x < 2 ^ k) cells.now) }
{
    all_lead(cells, greatest.leading_zeros())
}

/// Whether every cell has so many leading zeros.
fn all_lead(cells: &[u64], zeros: u32) -> bool
    ensures { IsTrue result ↔ All (λ x. zeros ≤ leading_zeros w64 x) cells.now }
{
    cells.iter().all(|cell| cell.leading_zeros() >= zeros)
}
