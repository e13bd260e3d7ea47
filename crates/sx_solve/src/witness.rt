//! Which equations a row of the dense system is the sum of.

ghost use Rattle.std.specs.Prelude.{◌≡◌, ◌+◌, ◌/◌, ◌<◌, All, IfOk, length};
ghost use Rattle.sx_solve.specs.Lazy.{IsOrder};
ghost use Rattle.sx_solve.specs.Solving.{IsEquationWithin};

use crate::Equation;
use crate::bits::{no_bits, set_bit, test_bit};
use crate::lazy::Order;
use crate::marking::flip;
use std::alloc::{AllocError, Global};

/// The equations, as bits, whose sum the marked rows come to. What gives an unknown is part of it exactly where an odd number
/// of the other parts have that unknown. All of these come later in the order, so one pass from its end finds them.
pub(crate) fn witness(
    alloc: Global,
    vars: u32,
    eqs: &[Equation],
    order: &Order,
    rows: &[u64],
) -> Result<Vec<u64>, AllocError>
    requires within { All (IsEquationWithin vars) eqs.now }
    requires order { IsOrder vars (length eqs.now) order.now }
    requires rows { length order.now.dense.items / 64 < length rows.now }
    ensures { IfOk result (λ v. length v.items ≡ length eqs.now / 64 + 1) }
{
    let mut marks = no_bits(alloc, eqs.len())?;
    let mut odd = vec![in alloc; 0; vars as usize]?;
    for (row, number) in order.dense.iter().enumerate() {
        if test_bit(rows, row) {
            add(&mut marks, &mut odd, eqs, *number);
        }
    }
    for k in (0..order.pivots.len()).rev() {
        let pivot = order.pivots[k];
        if odd[pivot.unknown as usize] % 2 == 1 {
            add(&mut marks, &mut odd, eqs, pivot.equation);
        }
    }
    Ok(marks)
}

/// Marks an equation.
fn add(marks: &mut Vec<u64>, odd: &mut [u32], eqs: &[Equation], number: u32)
    requires within { All (IsEquationWithin (length odd.old)) eqs.now }
    requires number { number < length eqs.now }
    requires marks { length marks.old.items ≡ length eqs.now / 64 + 1 }
    ensures { length marks.new.items ≡ length marks.old.items }
{
    set_bit(marks, number as usize);
    let q = eqs[number as usize];
    flip(odd, q.a);
    flip(odd, q.b);
    flip(odd, q.c);
}
