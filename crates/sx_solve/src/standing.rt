//! In which equations an unknown stands, and how many unknowns are left in an equation.

ghost use Rattle.std.specs.Prelude.{◌≡◌, ◌*◌, ◌<◌, ◌≤◌, ◌^◌, ℕ, All, IfOk, IfSome, length};
ghost use Rattle.sx_links.specs.Seats.{IsSeat};
ghost use Rattle.sx_solve.specs.Lazy.{AreSeats};
ghost use Rattle.sx_solve.specs.Solving.{IsEquationWithin};

use crate::Equation;
use std::alloc::{AllocError, Global};
use sx_links::Links;

/// For each unknown the equations in which it stands.
pub(crate) fn stands_of(alloc: Global, vars: u32, eqs: &[Equation]) -> Result<Links, AllocError>
    requires within { All (IsEquationWithin vars) eqs.now }
    requires few { 3 * length eqs.now < 2 ^ 32 }
    ensures { IfOk result (λ l. AreSeats (length eqs.now) 3 vars l) }
{
    let mut stands = Links::new(alloc, eqs.len() as u32, vars, 3)?;
    for (number, q) in eqs.iter().enumerate() {
        put(&mut stands, q.a, number as u32, 0);
        put(&mut stands, q.b, number as u32, 1);
        put(&mut stands, q.c, number as u32, 2);
    }
    Ok(stands)
}

/// The equations by weight, which is the number of unknowns that are left: 3 at first.
pub(crate) fn weights_of(alloc: Global, count: u32) -> Result<Links, AllocError>
    requires { count < 2 ^ 32 }
    ensures { IfOk result (λ l. AreSeats count 1 4 l) }
{
    let mut weights = Links::new(alloc, count, 4, 1)?;
    for number in 0..count {
        put(&mut weights, 3, number, 0);
    }
    Ok(weights)
}

/// Puts the seat first on a list, if it lies on none.
fn put(links: &mut Links, list: u32, item: u32, hook: u32)
    requires list { list < length links.old.lists }
    requires seat { IsSeat links.old (record { item = item; hook = hook }) }
    ensures { (items hooks lists : ℕ) → AreSeats items hooks lists links.old
        → AreSeats items hooks lists links.new }
{
    if links.list_of(item, hook).is_none() {
        links.push(list, item, hook);
    }
}

/// The unknowns that are left in each equation, as their xor: all three at first.
pub(crate) fn left_of(alloc: Global, eqs: &[Equation]) -> Result<Vec<u32>, AllocError>
    ensures { IfOk result (λ v. length v.items ≡ length eqs.now) }
{
    let mut left = Vec::with_capacity(alloc, eqs.len())?;
    for q in eqs {
        left.push(q.a ^ q.b ^ q.c)?;
    }
    Ok(left)
}

/// In how many equations each unknown stands.
pub(crate) fn counts_of(alloc: Global, vars: u32, stands: &Links) -> Result<Vec<u32>, AllocError>
    requires { length stands.now.lists ≡ vars }
    ensures { IfOk result (λ v. length v.items ≡ vars) }
{
    let mut counts = Vec::with_capacity(alloc, vars as usize)?;
    for unknown in 0..vars {
        counts.push(stands.len(unknown))?;
    }
    Ok(counts)
}

/// Takes an equation of weight one from its list.
pub(crate) fn take_lightest(weights: &mut Links) -> Option<u32>
    requires { AreSeats weights.old.items 1 4 weights.old }
    ensures seats { AreSeats weights.old.items 1 4 weights.new }
    ensures within { IfSome result (λ number. number < weights.old.items) }
{
    let seat = weights.first(1)?;
    weights.unlink(seat.item, seat.hook);
    Some(seat.item)
}

/// Whether the equation is on a list yet.
pub(crate) fn is_left(weights: &Links, number: u32) -> bool
    requires { IsSeat weights.now (record { item = number; hook = 0 }) }
{
    weights.list_of(number, 0).is_some()
}

/// Takes the unknown out of the equations in which it stands.
pub(crate) fn take_out(
    stands: &Links,
    weights: &mut Links,
    left: &mut [u32],
    counts: &mut [u32],
    unknown: u32,
)
    requires stands { AreSeats (length left.old) 3 (length counts.old) stands.now }
    requires weights { AreSeats (length left.old) 1 4 weights.old }
    requires unknown { unknown < length counts.old }
    ensures { AreSeats (length left.old) 1 4 weights.new }
{
    counts[unknown as usize] = 0;
    let mut at = stands.first(unknown);
    for _ in 0..stands.len(unknown) {
        let Some(seat) = at else { break };
        lower(weights, left, counts, seat.item, unknown);
        at = stands.next(seat.item, seat.hook);
    }
}

/// Takes the unknown out of an equation, unless that has given one itself.
fn lower(weights: &mut Links, left: &mut [u32], counts: &mut [u32], number: u32, unknown: u32)
    requires weights { AreSeats (length left.old) 1 4 weights.old }
    requires number { number < length left.old }
    ensures { AreSeats (length left.old) 1 4 weights.new }
{
    if let Some(weight) = lighten(weights, number) {
        let rest = left[number as usize] ^ unknown;
        left[number as usize] = rest;
        if weight == 1 {
            count_down(counts, rest);
        }
    }
}

/// Puts an equation on the list of the next lower weight, which is the answer.
fn lighten(weights: &mut Links, number: u32) -> Option<u32>
    requires seats { AreSeats weights.old.items 1 4 weights.old }
    requires number { number < weights.old.items }
    ensures { AreSeats weights.old.items 1 4 weights.new }
{
    let weight = weights.list_of(number, 0)?.checked_sub(1)?;
    weights.unlink(number, 0);
    weights.push(weight, number, 0);
    Some(weight)
}

/// The unknown stands in one equation less of those of weight two or more.
fn count_down(counts: &mut [u32], unknown: u32) {
    if let Some(count) = counts.get_mut(unknown as usize) {
        *count = count.saturating_sub(1);
    }
}
