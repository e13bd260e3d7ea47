//! Peeling in linear time: an item for each edge, with a hook for each of its vertices, and a list for each vertex. An
//! edge is taken by a vertex whose list has it alone; the vertices that may have such a list wait.

ghost use Rattle.std.specs.Prelude.{◌≡◌, ◌≢◌, ◌*◌, ◌<◌, ◌≤◌, ◌^◌, ◌∷◌, ◌++◌, ℕ, List, All, IfOk, IsTrue, MatchOption, OnOk, [], length, ◌↔◌};
ghost use Rattle.std.specs.List.{range_with_len};
ghost use Rattle.sx_links.specs.Seats.{IsSeat, IsTaken, seats_of};
ghost use Rattle.sx_peel.specs.declared.Taken.{Taken};
ghost use Rattle.sx_peel.specs.Peeling.{IsEdgeWithin};
ghost use Rattle.sx_peel.specs.UnderWay.{IsLinked, IsUnderWay, edge_out, edge_put, joined_by, left_after, work_left};

use crate::{Edge, Taken};
use std::alloc::{AllocError, Global};
use sx_links::{Links, Seat};

/// The hooks of an edge: hook 0 is on the list of `a`, hook 1 on that of `b`, and hook 2 on that of `c`.
const HOOKS: u32 = 3;

/// Every edge on the lists of its vertices. The last is put first, so that the lists rise.
pub(crate) fn linked(alloc: Global, bound: u32, edges: &[Edge]) -> Result<Links, AllocError>
    requires within { All (IsEdgeWithin bound) edges.now }
    requires few { 3 * length edges.now < 2 ^ 32 }
    ensures bound { IfOk result (λ l. length l.lists ≡ bound) }
    ensures linked { IfOk result
        (λ l. IsLinked edges.now (range_with_len 0 (length edges.now)) l) }
{
    let count = edges.len() as u32;
    let mut links = Links::new(alloc, count, bound, HOOKS)?;
    let mut number = count;
    while number > 0 {
        number -= 1;
        put_edge(&mut links, number, edges[number as usize]);
    }
    Ok(links)
}

/// Puts an edge on the lists of its vertices.
fn put_edge(links: &mut Links, number: u32, edge: Edge)
    requires within { IsEdgeWithin (length links.old.lists) edge }
    requires item { number < links.old.items }
    requires hooks { links.old.hooks ≡ 3 }
    requires free { (h : ℕ) → ¬ IsTaken links.old (record { item = number; hook = h }) }
    ensures { links.new ≡ edge_put number edge links.old }
{
    links.push(edge.a, number, 0);
    links.push(edge.b, number, 1);
    links.push(edge.c, number, 2);
}

/// The numbers of the edges that are left, rising.
pub(crate) fn edges_left(
    alloc: Global,
    links: &Links,
    edges: &[Edge],
) -> Result<Vec<u32>, AllocError>
    requires within { All (IsEdgeWithin (length links.now.lists)) edges.now }
    requires few { 3 * length edges.now < 2 ^ 32 }
    requires items { links.now.items ≡ length edges.now }
    requires hooks { links.now.hooks ≡ 3 }
    ensures { (order : List Taken) → IsLinked edges.now (left_after edges.now order) links.now
        → IfOk result (λ v. v.items ≡ left_after edges.now order) }
{
    let mut left = Vec::new(alloc);
    for number in 0..edges.len() as u32 {
        if links.list_of(number, 0).is_some() {
            left.push(number)?;
        }
    }
    Ok(left)
}

/// The seat of a list that has one, else None.
fn only_seat(links: &Links, vertex: u32) -> Option<Seat>
    requires { vertex < length links.now.lists }
    ensures { MatchOption result (length (seats_of links.now vertex) ≢ 1)
        (λ s. seats_of links.now vertex ≡ s ∷ []) }
{
    if links.len(vertex) != 1 {
        return None;
    }
    links.first(vertex)
}

/// A peeling under way. The lists of the edges that are left stand apart.
#[derive(Drop)]
pub(crate) struct Peeling {
    /// All vertices on one edge that is left, and maybe others.
    waiting: Vec<u32>,
    /// The edges taken so far.
    order: Vec<Taken>,
}

impl Peeling {
    /// With every edge left.
    pub(crate) fn new(
        alloc: Global,
        bound: u32,
        links: &Links,
        edges: &[Edge],
    ) -> Result<Peeling, AllocError>
        requires bound { length links.now.lists ≡ bound }
        requires linked { IsLinked edges.now (range_with_len 0 (length edges.now)) links.now }
        ensures { IfOk result
            (λ p. IsUnderWay edges.now links.now p.order.items p.waiting.items) }
    {
        let mut peeling = Peeling {
            waiting: Vec::with_capacity(alloc, bound as usize)?,
            order: Vec::with_capacity(alloc, edges.len())?,
        };
        for vertex in 0..bound {
            peeling.wait(links, vertex)?;
        }
        Ok(peeling)
    }

    /// Takes edges until no vertex waits.
    pub(crate) fn run(&mut self, links: &mut Links, edges: &[Edge]) -> Result<(), AllocError>
        requires within { All (IsEdgeWithin (length links.old.lists)) edges.now }
        requires under_way { IsUnderWay edges.now links.old self.old.order.items
            self.old.waiting.items }
        ensures size { length links.new.lists ≡ length links.old.lists }
        ensures ended { OnOk result (IsUnderWay edges.now links.new self.new.order.items []) }
    {
        while let Some(vertex) = self.waiting.pop() {
            self.visit(links, edges, vertex)?;
        }
        Ok(())
    }

    /// Takes the edge of a vertex that has ceased to wait, if it lies on one alone.
    fn visit(&mut self, links: &mut Links, edges: &[Edge], vertex: u32) -> Result<(), AllocError>
        requires within { All (IsEdgeWithin (length links.old.lists)) edges.now }
        requires under_way { IsUnderWay edges.now links.old self.old.order.items
            (self.old.waiting.items ++ vertex ∷ []) }
        ensures size { length links.new.lists ≡ length links.old.lists }
        ensures under_way { OnOk result (IsUnderWay edges.now links.new self.new.order.items
            self.new.waiting.items) }
        ensures work { OnOk result (
            work_left edges.now self.new.order.items self.new.waiting.items
            ≤ work_left edges.now self.old.order.items self.old.waiting.items) }
    {
        match only_seat(links, vertex) {
            Some(seat) => {
                let taken = Taken {
                    edge: seat.item,
                    slot: seat.hook as u8,
                };
                self.take(links, edges[seat.item as usize], taken)
            }
            None => Ok(()),
        }
    }

    /// Takes the edge off the lists of its vertices. Those that lie on one edge then wait.
    fn take(&mut self, links: &mut Links, edge: Edge, taken: Taken) -> Result<(), AllocError>
        requires within { IsEdgeWithin (length links.old.lists) edge }
        requires item { taken.edge < links.old.items }
        requires hooks { links.old.hooks ≡ 3 }
        requires seats { (h : ℕ) → h < 3
            → IsTaken links.old (record { item = taken.edge; hook = h }) }
        ensures links { links.new ≡ edge_out taken.edge links.old }
        ensures order { OnOk result (self.new.order.items ≡ self.old.order.items ++ taken ∷ []) }
        ensures waiting { OnOk result (self.new.waiting.items
            ≡ joined_by links.new edge.c (joined_by links.new edge.b
            (joined_by links.new edge.a self.old.waiting.items))) }
    {
        links.unlink(taken.edge, 0);
        links.unlink(taken.edge, 1);
        links.unlink(taken.edge, 2);
        self.order.push(taken)?;
        self.wait(links, edge.a)?;
        self.wait(links, edge.b)?;
        self.wait(links, edge.c)
    }

    /// Lets the vertex wait if it lies on one edge.
    fn wait(&mut self, links: &Links, vertex: u32) -> Result<(), AllocError>
        requires { vertex < length links.now.lists }
        ensures waiting { OnOk result
            (self.new.waiting.items ≡ joined_by links.now vertex self.old.waiting.items) }
        ensures order { self.new.order.items ≡ self.old.order.items }
    {
        if links.len(vertex) == 1 {
            self.waiting.push(vertex)?;
        }
        Ok(())
    }

    /// Whether so many edges were taken.
    pub(crate) fn has_taken(&self, count: usize) -> bool
        ensures { IsTrue result ↔ (length self.now.order.items ≡ count) }
    {
        self.order.len() == count
    }

    /// The edges taken.
    pub(crate) fn into_order(self) -> Vec<Taken>
        ensures { result.items ≡ self.order.items }
    {
        self.order
    }
}
