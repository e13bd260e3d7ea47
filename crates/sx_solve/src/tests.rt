//! Small systems. Whether each of the table is solvable was found by trying every set of its equations.

ghost use Rattle.std.specs.Prelude.{◌≡◌};

use crate::{Equation, Solved, solve};
use std::process::Abort;
use std::test::Fail;

#[test]
fn two_values_for_one_equation_are_a_sum(rt: HostRuntime) -> Result<(), Fail> {
    let eqs = [equation(0, 1, 2, 1), equation(0, 1, 2, 0)];
    expect_only_sum(&rt, &eqs, &solve(rt.alloc(), 3, &eqs)?, &[0, 1]);
    Ok(())
}

#[test]
fn one_equation_twice_is_solved(rt: HostRuntime) -> Result<(), Fail> {
    let eqs = [equation(0, 1, 2, 1), equation(0, 1, 2, 1)];
    expect_cells(&rt, &eqs, &solve(rt.alloc(), 3, &eqs)?, 3);
    Ok(())
}

#[test]
fn no_equation_is_solved(rt: HostRuntime) -> Result<(), Fail> {
    expect_cells(&rt, &[], &solve(rt.alloc(), 3, &[])?, 3);
    Ok(())
}

#[test]
fn systems_are_solved(rt: HostRuntime) -> Result<(), Fail> {
    let eqs = [
        equation(0, 5, 3, 3),
        equation(0, 4, 5, 5),
        equation(5, 0, 1, 4),
        equation(2, 4, 0, 0),
        equation(0, 1, 4, 6),
        equation(5, 4, 0, 5),
    ];
    expect_cells(&rt, &eqs, &solve(rt.alloc(), 6, &eqs)?, 6);
    let eqs = [
        equation(0, 1, 3, 6),
        equation(3, 2, 0, 7),
        equation(0, 4, 3, 5),
        equation(1, 5, 2, 7),
        equation(2, 3, 1, 0),
        equation(2, 1, 0, 5),
    ];
    expect_cells(&rt, &eqs, &solve(rt.alloc(), 6, &eqs)?, 6);
    let eqs = [
        equation(3, 2, 1, 1),
        equation(3, 1, 0, 1),
        equation(0, 2, 4, 3),
        equation(1, 4, 3, 0),
        equation(0, 4, 3, 6),
    ];
    expect_cells(&rt, &eqs, &solve(rt.alloc(), 5, &eqs)?, 5);
    Ok(())
}

#[test]
fn sums_are_found(rt: HostRuntime) -> Result<(), Fail> {
    let eqs = [
        equation(1, 4, 0, 1),
        equation(2, 1, 4, 6),
        equation(1, 0, 4, 7),
        equation(0, 1, 4, 4),
    ];
    expect_sum(&rt, &eqs, &solve(rt.alloc(), 5, &eqs)?);
    let eqs = [
        equation(1, 3, 4, 4),
        equation(4, 5, 2, 1),
        equation(5, 3, 2, 5),
        equation(5, 1, 3, 3),
        equation(3, 1, 2, 5),
        equation(5, 4, 1, 1),
    ];
    expect_only_sum(&rt, &eqs, &solve(rt.alloc(), 6, &eqs)?, &[1, 2, 3, 5]);
    let eqs = [
        equation(3, 1, 4, 0),
        equation(2, 5, 0, 4),
        equation(3, 5, 2, 4),
        equation(4, 1, 0, 1),
        equation(1, 2, 0, 3),
    ];
    expect_only_sum(&rt, &eqs, &solve(rt.alloc(), 6, &eqs)?, &[0, 1, 2, 3]);
    Ok(())
}

fn equation(a: u32, b: u32, c: u32, value: u64) -> Equation
    ensures { result ≡ record { a = a; b = b; c = c; value = value } }
{
    Equation { a, b, c, value }
}

/// So many cells, which meet each equation.
fn expect_cells(rt: &impl Abort, eqs: &[Equation], solved: &Solved, count: usize) {
    match solved {
        Solved::Cells(cells) => {
            assert_eq!(rt; cells.len(), count);
            for q in eqs {
                assert_eq!(rt; sum_at(cells, *q), Some(q.value));
            }
        }
        Solved::Sum(_) => assert!(rt; false, "a sum"),
    }
}

/// Equations whose values have an xor that isn't 0.
fn expect_sum(rt: &impl Abort, eqs: &[Equation], solved: &Solved) {
    match solved {
        Solved::Sum(numbers) => {
            let sum = sum_of(eqs, numbers);
            assert!(rt; sum.is_some());
            assert_ne!(rt; sum, Some(0));
        }
        Solved::Cells(_) => assert!(rt; false, "solved"),
    }
}

/// The only sum that there is.
fn expect_only_sum(rt: &impl Abort, eqs: &[Equation], solved: &Solved, want: &[u32]) {
    expect_sum(rt, eqs, solved);
    match solved {
        Solved::Sum(numbers) => assert_eq!(rt; numbers.as_slice(), want),
        Solved::Cells(_) => assert!(rt; false, "solved"),
    }
}

/// The xor of the cells of an equation.
fn sum_at(cells: &[u64], q: Equation) -> Option<u64> {
    let a = cells.get(q.a as usize)?;
    let b = cells.get(q.b as usize)?;
    let c = cells.get(q.c as usize)?;
    Some(*a ^ *b ^ *c)
}

/// The xor of the values of the equations with these numbers.
fn sum_of(eqs: &[Equation], numbers: &[u32]) -> Option<u64> {
    let mut sum = 0;
    for number in numbers {
        sum ^= eqs.get(*number as usize)?.value;
    }
    Some(sum)
}
