//! The edges and the equations of signatures at a try.

ghost use Rattle.std.specs.Prelude.{◌≡◌, ◌*◌, ◌<◌, ◌≤◌, ◌^◌, All, IfOk, length, map};
ghost use Rattle.sx_spec.specs.Chunks.{places};
ghost use Rattle.sx_spec.specs.StaticFunction.{entry_equation};
ghost use Rattle.sx_spec.specs.Systems.{equation};
ghost use Rattle.sx_peel.specs.Peeling.{IsEdgeWithin};
ghost use Rattle.sx_solve.specs.Solving.{IsEquationWithin};
ghost use Rattle.sx_static.specs.Answer.{entries_of};

use crate::Signature;
use std::alloc::{AllocError, Global};
use sx_peel::Edge;
use sx_sig::places;
use sx_solve::Equation;

/// The edge of each signature at try `t`, over segments of `s` cells.
pub(crate) fn edges_of(
    alloc: Global,
    sigs: &[Signature],
    s: u32,
    t: u32,
) -> Result<Vec<Edge>, AllocError>
    requires some { 0 < length sigs.now → 1 ≤ s }
    requires short { s ≤ 1431655765 }
    requires few { t ≤ 63 }
    ensures edges { IfOk result (λ v. v.items ≡ map (λ sig. places sig t s) sigs.now) }
    ensures within { IfOk result (λ v. All (IsEdgeWithin (3 * s)) v.items) }
{
    let mut edges = Vec::with_capacity(alloc, sigs.len())?;
    for sig in sigs {
        edges.push(edge_of(*sig, s, t))?;
    }
    Ok(edges)
}

/// The edge of a signature at try `t`.
fn edge_of(sig: Signature, s: u32, t: u32) -> Edge
    requires some { 1 ≤ s }
    requires short { s ≤ 1431655765 }
    requires few { t ≤ 63 }
    ensures edge { result ≡ places sig t s }
    ensures within { IsEdgeWithin (3 * s) result }
{
    places(&sig, t, s)
}

/// The equation of each signature with its value at try `t`, over segments of `s` cells.
pub(crate) fn equations_of(
    alloc: Global,
    sigs: &[Signature],
    values: &[u64],
    s: u32,
    t: u32,
) -> Result<Vec<Equation>, AllocError>
    requires values { length values.now ≡ length sigs.now }
    requires some { 0 < length sigs.now → 1 ≤ s }
    requires short { s ≤ 1431655765 }
    requires few { t ≤ 63 }
    ensures equations { IfOk result
        (λ v. v.items ≡ map (entry_equation t s) (entries_of sigs.now values.now)) }
    ensures within { IfOk result (λ v. All (IsEquationWithin (3 * s)) v.items) }
{
    let mut equations = Vec::with_capacity(alloc, sigs.len())?;
    for (place, sig) in sigs.iter().enumerate() {
        equations.push(equation_of(*sig, values[place], s, t))?;
    }
    Ok(equations)
}

/// The equation of a signature with its value at try `t`.
fn equation_of(sig: Signature, value: u64, s: u32, t: u32) -> Equation
    requires some { 1 ≤ s }
    requires short { s ≤ 1431655765 }
    requires few { t ≤ 63 }
    ensures equation { result ≡ equation (places sig t s) value }
    ensures within { IsEquationWithin (3 * s) result }
{
    let at = places(&sig, t, s);
    Equation {
        a: at.a,
        b: at.b,
        c: at.c,
        value,
    }
}
