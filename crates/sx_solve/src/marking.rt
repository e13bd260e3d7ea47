//! The sum of marked equations.

ghost use Rattle.std.specs.Prelude.{◌≡◌, ◌+◌, ◌*◌, ◌/◌, ◌%◌, ◌<◌, ◌^◌, ◌↔◌, ◌==◌, if◌then◌else◌, ℕ, All, IfOk, IsTrue, MatchOption, length, slice_index};
ghost use Rattle.sx_spec.specs.Systems.{IsSum, count_of, unknowns, vertices};
ghost use Rattle.sx_solve.specs.Rows.{bit, marked, times_by, values, xor_by};
ghost use Rattle.sx_solve.specs.Solving.{IsEquationWithin};

use crate::Equation;
use crate::bits::test_bit;
use crate::rows::numbers_of;
use std::alloc::{AllocError, Global};

/// The numbers of the marked equations, exactly where they are a sum that has no solution.
pub(crate) fn sum_of(
    alloc: Global,
    vars: u32,
    eqs: &[Equation],
    marks: &[u64],
) -> Result<Option<Vec<u32>>, AllocError>
    requires within { All (IsEquationWithin vars) eqs.now }
    requires few { 3 * length eqs.now < 2 ^ 32 }
    requires marks { length eqs.now / 64 < length marks.now }
    ensures { IfOk result (λ o. MatchOption o
        (¬ IsSum eqs.now (marked marks.now (length eqs.now))) (λ v. IsSum eqs.now v.items)) }
{
    let mut odd = vec![in alloc; 0; vars as usize]?;
    if !is_sum(&mut odd, eqs, marks) {
        return Ok(None);
    }
    Ok(Some(numbers_of(alloc, marks, eqs.len() as u32)?))
}

/// Whether the marked equations are a sum that has no solution.
fn is_sum(odd: &mut [u32], eqs: &[Equation], marks: &[u64]) -> bool
    requires within { All (IsEquationWithin (length odd.old)) eqs.now }
    requires marks { length eqs.now / 64 < length marks.now }
    requires even { (v : ℕ) → slice_index odd.old v ≡ 0 }
    ensures { IsTrue result ↔ IsSum eqs.now (marked marks.now (length eqs.now)) }
{
    let value = add_marked(odd, eqs, marks);
    if value == 0 {
        return false;
    }
    all_even(odd)
}

/// Adds the unknowns of the marked equations. The xor of their values.
fn add_marked(odd: &mut [u32], eqs: &[Equation], marks: &[u64]) -> u64
    requires within { All (IsEquationWithin (length odd.old)) eqs.now }
    requires marks { length eqs.now / 64 < length marks.now }
    requires even { (v : ℕ) → slice_index odd.old v ≡ 0 }
    ensures value { result ≡ xor_by (bit marks.now) 0 (values eqs.now) }
    ensures odd { (v : ℕ) → slice_index odd.new v % 2 ≡ times_by (bit marks.now) 0 eqs.now v % 2 }
{
    let mut value = 0;
    for (number, q) in eqs.iter().enumerate() {
        value ^= add_where(odd, *q, test_bit(marks, number));
    }
    value
}

/// Adds the unknowns of an equation where it is wanted. Its value, or else 0.
fn add_where(odd: &mut [u32], q: Equation, wanted: bool) -> u64
    requires { IsEquationWithin (length odd.old) q }
    ensures value { result ≡ (if wanted then q.value else 0) }
    ensures odd { (v : ℕ) → slice_index odd.new v % 2
        ≡ (slice_index odd.old v + (if wanted then count_of v (vertices (unknowns q)) else 0)) % 2 }
{
    if !wanted {
        return 0;
    }
    flip(odd, q.a);
    flip(odd, q.b);
    flip(odd, q.c);
    q.value
}

/// Makes an even number odd, and an odd one even.
pub(crate) fn flip(odd: &mut [u32], unknown: u32)
    requires { unknown < length odd.old }
    ensures { (v : ℕ) → slice_index odd.new v % 2
        ≡ (slice_index odd.old v + (if unknown == v then 1 else 0)) % 2 }
{
    odd[unknown as usize] = 1 - odd[unknown as usize] % 2;
}

/// Whether every number is even.
fn all_even(numbers: &[u32]) -> bool
    ensures { IsTrue result ↔ All (λ x. x % 2 ≡ 0) numbers.now }
{
    numbers.iter().all(|number| *number % 2 == 0)
}
