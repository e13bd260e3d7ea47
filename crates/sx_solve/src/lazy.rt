//! The order of lazy elimination: which equation gives which unknown, and which unknowns are set aside.

ghost use Rattle.std.specs.Prelude.{◌+◌, ◌*◌, ◌<◌, ◌≤◌, ◌^◌, ℕ, All, IfOk, IfSome, OnOk, length};
ghost use Rattle.sx_solve.specs.Lazy.{AreSeats, AreTurns, IsOrder};
ghost use Rattle.sx_solve.specs.Solving.{IsEquationWithin};

use crate::Equation;
use crate::crowded::{Round, most_crowded};
use crate::standing::{
    counts_of, is_left, left_of, stands_of, take_lightest, take_out, weights_of,
};
use std::alloc::{AllocError, Global};
use sx_links::Links;

/// An equation that gives an unknown from its others.
#[derive(Clone, Copy, Debug)]
pub(crate) struct Pivot {
    pub(crate) equation: u32,
    pub(crate) unknown: u32,
}

/// What becomes of each equation and unknown.
#[derive(Debug, Drop)]
pub(crate) struct Order {
    /// The equations that give an unknown, in turn. The other unknowns of each are set aside, or given before.
    pub(crate) pivots: Vec<Pivot>,
    /// The unknowns that are set aside.
    pub(crate) aside: Vec<u32>,
    /// The equations that give none: all unknowns of each are set aside, or given.
    pub(crate) dense: Vec<u32>,
}

/// What becomes of the equations and unknowns.
pub(crate) fn order_of(alloc: Global, vars: u32, eqs: &[Equation]) -> Result<Order, AllocError>
    requires within { All (IsEquationWithin vars) eqs.now }
    requires few { 3 * length eqs.now < 2 ^ 32 }
    ensures { IfOk result (λ o. IsOrder vars (length eqs.now) o) }
{
    let stands = stands_of(alloc, vars, eqs)?;
    let mut weights = weights_of(alloc, eqs.len() as u32)?;
    let mut left = left_of(alloc, eqs)?;
    let mut counts = counts_of(alloc, vars, &stands)?;
    let mut pivots = Vec::with_capacity(alloc, eqs.len())?;
    let mut aside = Vec::new(alloc);
    take_turns(
        &stands,
        &mut weights,
        &mut left,
        &mut counts,
        &mut pivots,
        &mut aside,
    )?;
    let dense = dense_of(alloc, eqs.len() as u32, &weights)?;
    Ok(Order {
        pivots,
        aside,
        dense,
    })
}

/// Takes turn after turn, until every equation has given its unknown or has weight 0.
fn take_turns(
    stands: &Links,
    weights: &mut Links,
    left: &mut [u32],
    counts: &mut [u32],
    pivots: &mut Vec<Pivot>,
    aside: &mut Vec<u32>,
) -> Result<(), AllocError>
    requires stands { AreSeats (length left.old) 3 (length counts.old) stands.now }
    requires weights { AreSeats (length left.old) 1 4 weights.old }
    requires few { length counts.old < 2 ^ 32 }
    requires turns { AreTurns (length counts.old) (length left.old) 0 pivots.old.items
        aside.old.items }
    ensures weights { AreSeats (length left.old) 1 4 weights.new }
    ensures turns { OnOk result (AreTurns (length counts.old) (length left.old)
        (length left.old + length counts.old) pivots.new.items aside.new.items) }
{
    let mut round = Round::first();
    for _ in 0..left.len() + counts.len() {
        let Some(unknown) = next_unknown(weights, left, counts, &mut round, pivots, aside)? else {
            break;
        };
        take_out(stands, weights, left, counts, unknown);
    }
    Ok(())
}

/// The unknown of the next turn. An equation of weight one gives its unknown; where there is none, the unknown that stands in
/// most equations is set aside.
fn next_unknown(
    weights: &mut Links,
    left: &[u32],
    counts: &[u32],
    round: &mut Round,
    pivots: &mut Vec<Pivot>,
    aside: &mut Vec<u32>,
) -> Result<Option<u32>, AllocError>
    requires weights { AreSeats (length left.now) 1 4 weights.old }
    requires few { length counts.now < 2 ^ 32 }
    ensures weights { AreSeats (length left.now) 1 4 weights.new }
    ensures unknown { IfOk result (λ o. IfSome o (λ unknown. unknown < length counts.now)) }
    ensures turns { OnOk result ((turn : ℕ)
        → AreTurns (length counts.now) (length left.now) turn pivots.old.items aside.old.items
        → AreTurns (length counts.now) (length left.now) (turn + 1) pivots.new.items aside.new.items) }
{
    if let Some(equation) = take_lightest(weights) {
        let unknown = left[equation as usize];
        if unknown as usize >= counts.len() {
            return Ok(None);
        }
        pivots.push(Pivot { equation, unknown })?;
        return Ok(Some(unknown));
    }
    let Some(unknown) = most_crowded(round, counts) else {
        return Ok(None);
    };
    aside.push(unknown)?;
    Ok(Some(unknown))
}

/// The equations that are on a list of weights yet.
fn dense_of(alloc: Global, count: u32, weights: &Links) -> Result<Vec<u32>, AllocError>
    requires { AreSeats count 1 4 weights.now }
    ensures within { IfOk result (λ v. All (λ equation. equation < count) v.items) }
    ensures few { IfOk result (λ v. length v.items ≤ count) }
{
    let mut dense = Vec::new(alloc);
    for number in 0..count {
        if is_left(weights, number) {
            dense.push(number)?;
        }
    }
    Ok(dense)
}
