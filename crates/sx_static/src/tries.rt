//! One try at the pairs of a chunk.

ghost use Rattle.std.specs.Prelude.{◌≡◌, ◌<◌, ◌≤◌, ◌^◌, IfOk, length};
ghost use Rattle.sx_spec.specs.declared.Method.TheVariants.{Mwhc, Gov3};
ghost use Rattle.sx_static.specs.Tries.{IsTry};

use crate::cells::cells_of;
use crate::edges::{edges_of, equations_of};
use crate::{Method, Signature, Witness};
use std::alloc::{AllocError, Global};
use sx_peel::{Peeled, peel};
use sx_solve::{Solved, solve};

/// What a try comes to.
#[derive(Drop)]
pub(crate) enum Try {
    /// Cells by which each signature has its value.
    Works(Vec<u64>),
    /// Why there are none, by places among the pairs.
    Fails(Witness),
}

/// Makes try `t`, over three segments of `s` cells.
pub(crate) fn make_try(
    alloc: Global,
    sigs: &[Signature],
    values: &[u64],
    method: Method,
    s: u32,
    t: u32,
) -> Result<Try, AllocError>
    requires values { length values.now ≡ length sigs.now }
    requires few { length sigs.now ≤ 2 ^ 27 }
    requires some { 0 < length sigs.now → 1 ≤ s }
    requires short { s ≤ 1431655765 }
    requires tries { t ≤ 63 }
    ensures { IfOk result (λ r. IsTry method s t sigs.now values.now r) }
{
    match method {
        Method::Mwhc => by_peeling(alloc, sigs, values, s, t),
        Method::Gov3 => by_solving(alloc, sigs, values, s, t),
    }
}

/// Makes the try by peeling.
fn by_peeling(
    alloc: Global,
    sigs: &[Signature],
    values: &[u64],
    s: u32,
    t: u32,
) -> Result<Try, AllocError>
    requires values { length values.now ≡ length sigs.now }
    requires few { length sigs.now ≤ 2 ^ 27 }
    requires some { 0 < length sigs.now → 1 ≤ s }
    requires short { s ≤ 1431655765 }
    requires tries { t ≤ 63 }
    ensures { IfOk result (λ r. IsTry Mwhc s t sigs.now values.now r) }
{
    let edges = edges_of(alloc, sigs, s, t)?;
    match peel(alloc, 3 * s, &edges)? {
        Peeled::Order(order) => {
            let cells = cells_of(alloc, 3 * s, &edges, values, &order)?;
            Ok(Try::Works(cells))
        }
        Peeled::Core(places) => Ok(Try::Fails(Witness::Core(places))),
    }
}

/// Makes the try by solving.
fn by_solving(
    alloc: Global,
    sigs: &[Signature],
    values: &[u64],
    s: u32,
    t: u32,
) -> Result<Try, AllocError>
    requires values { length values.now ≡ length sigs.now }
    requires few { length sigs.now ≤ 2 ^ 27 }
    requires some { 0 < length sigs.now → 1 ≤ s }
    requires short { s ≤ 1431655765 }
    requires tries { t ≤ 63 }
    ensures { IfOk result (λ r. IsTry Gov3 s t sigs.now values.now r) }
{
    let equations = equations_of(alloc, sigs, values, s, t)?;
    match solve(alloc, 3 * s, &equations)? {
        Solved::Cells(cells) => Ok(Try::Works(cells)),
        Solved::Sum(places) => Ok(Try::Fails(Witness::Sum(places))),
    }
}
