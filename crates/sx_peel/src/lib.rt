//! Peeling of hypergraphs with three vertices an edge: an edge with a vertex of its own is taken away, until none is left
//! or the edges that are left form a core.
#![tactic(auto)]

ghost use Rattle.std.specs.Prelude.{◌≡◌, ◌+◌, ◌*◌, ◌<◌, ◌^◌, All, IfOk, length};
ghost use Rattle.sx_peel.specs.Peeling.{IsEdgeWithin, IsPeeled};

pub mod law;
mod peeling;

use peeling::{Peeling, edges_left, linked};
use std::alloc::{AllocError, Global};
pub use sx_spec::Edge;

/// An edge that was taken away.
#[derive(Clone, Copy, PartialEq, Eq, Debug)]
pub struct Taken {
    /// The number of the edge in the list of all edges.
    pub edge: u32,
    /// The place in the edge of the vertex that it was taken by: 0, 1 or 2 for `a`, `b` or `c`.
    pub slot: u8,
}

/// What peeling comes to.
#[derive(Debug, Drop)]
pub enum Peeled {
    /// Every edge once; the vertex in the slot of each lies on no later one.
    Order(Vec<Taken>),
    /// The numbers of edges, rising and at least one, among which each of their vertices lies on two or more.
    Core(Vec<u32>),
}

/// Peels the edges, whose vertices are below `vertices`. A core comes exactly where no order takes every edge.
///
/// # Errors
///
/// Want of memory.
pub fn peel(alloc: Global, vertices: u32, edges: &[Edge]) -> Result<Peeled, AllocError>
    requires within { All (IsEdgeWithin vertices) edges.now }
    requires few { 3 * length edges.now < 2 ^ 32 }
    ensures { IfOk result (λ p. IsPeeled edges.now p) }
{
    let mut links = linked(alloc, vertices, edges)?;
    let mut peeling = Peeling::new(alloc, vertices, &links, edges)?;
    peeling.run(&mut links, edges)?;
    if peeling.has_taken(edges.len()) {
        Ok(Peeled::Order(peeling.into_order()))
    } else {
        Ok(Peeled::Core(edges_left(alloc, &links, edges)?))
    }
}

#[cfg(test)]
mod tests;
