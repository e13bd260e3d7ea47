//! Random systems, of which lazy elimination proposes what holds and what plain elimination comes to.

ghost use Rattle.std.specs.Prelude.{◌≡◌, ◌*◌, ◌<◌, ◌≤◌, ◌^◌, All, IfOk, length};
ghost use Rattle.sx_solve.specs.Solving.{IsEquationWithin};

use crate::crowded::{Round, most_crowded};
use crate::marking::sum_of;
use crate::plain::solve_plainly;
use crate::propose::{Proposed, propose};
use crate::solution::is_solution;
use crate::{Equation, Solved, solve};
use std::alloc::{AllocError, Global};
use std::process::Abort;
use std::test::Fail;

#[test]
fn systems_of_few_equations(rt: HostRuntime) -> Result<(), Fail> {
    let mut state = 1;
    for count in 1..30 {
        expect_alike(&rt, rt.alloc(), &mut state, count, 3)?;
        expect_alike(&rt, rt.alloc(), &mut state, count, 6)?;
        expect_alike(&rt, rt.alloc(), &mut state, count, 12)?;
    }
    Ok(())
}

#[test]
fn systems_of_about_as_many_equations_as_unknowns(rt: HostRuntime) -> Result<(), Fail> {
    let mut state = 2;
    for _ in 0..6 {
        expect_alike(&rt, rt.alloc(), &mut state, 100, 38)?;
        expect_alike(&rt, rt.alloc(), &mut state, 200, 75)?;
        expect_alike(&rt, rt.alloc(), &mut state, 300, 111)?;
        expect_alike(&rt, rt.alloc(), &mut state, 300, 100)?;
    }
    Ok(())
}

#[test]
fn the_most_crowded_come_first(rt: HostRuntime) -> Result<(), Fail> {
    let mut round = Round::first();
    let mut counts = [1, 3, 0, 3, 2];
    assert_eq!(rt; most_crowded(&mut round, &counts), Some(1));
    counts[1] = 0;
    assert_eq!(rt; most_crowded(&mut round, &counts), Some(3));
    counts[3] = 2;
    assert_eq!(rt; most_crowded(&mut round, &counts), Some(3));
    counts[3] = 0;
    counts[4] = 1;
    assert_eq!(rt; most_crowded(&mut round, &counts), Some(0));
    counts[0] = 0;
    assert_eq!(rt; most_crowded(&mut round, &counts), Some(4));
    counts[4] = 0;
    assert_eq!(rt; most_crowded(&mut round, &counts), None);
    Ok(())
}

/// A system is solved, or has a sum, as by plain elimination, and what is proposed for it holds.
fn expect_alike(
    rt: &impl Abort,
    alloc: Global,
    state: &mut u64,
    count: usize,
    third: u32,
) -> Result<(), AllocError>
    requires count { count ≤ 1000 }
    requires some { 0 < third }
    requires few { third ≤ 1000 }
{
    let eqs = random_equations(alloc, state, count, third)?;
    let vars = 3 * third;
    let is_plainly_solved = is_solved(&solve_plainly(alloc, vars, &eqs)?);
    assert_eq!(rt; is_solved(&solve(alloc, vars, &eqs)?), is_plainly_solved);
    match propose(alloc, vars, &eqs)? {
        Proposed::Cells(cells) => assert!(rt; is_solution(vars, &eqs, &cells)),
        Proposed::Sum(marks) => assert!(rt; sum_of(alloc, vars, &eqs, &marks)?.is_some()),
    }
    Ok(())
}

fn is_solved(solved: &Solved) -> bool {
    matches!(solved, Solved::Cells(_))
}

/// So many equations, each of an unknown of every third.
fn random_equations(
    alloc: Global,
    state: &mut u64,
    count: usize,
    third: u32,
) -> Result<Vec<Equation>, AllocError>
    requires some { 0 < third }
    requires few { third ≤ 1000 }
    ensures within { IfOk result (λ v. All (IsEquationWithin (3 * third)) v.items) }
    ensures count { IfOk result (λ v. length v.items ≤ count) }
{
    let mut eqs = Vec::with_capacity(alloc, count)?;
    for _ in 0..count {
        eqs.push(random_equation(state, third))?;
    }
    Ok(eqs)
}

fn random_equation(state: &mut u64, third: u32) -> Equation
    requires some { 0 < third }
    requires few { third ≤ 1000 }
    ensures { IsEquationWithin (3 * third) result }
{
    Equation {
        a: random_below(state, third),
        b: third + random_below(state, third),
        c: 2 * third + random_below(state, third),
        value: u64::from(random_below(state, 16)),
    }
}

/// A number of a linear congruential generator.
fn random_below(state: &mut u64, bound: u32) -> u32
    requires { 0 < bound }
    ensures { result < bound }
{
    *state = state
        .wrapping_mul(6364136223846793005)
        .wrapping_add(1442695040888963407);
    ((*state >> 33) % u64::from(bound)) as u32
}
