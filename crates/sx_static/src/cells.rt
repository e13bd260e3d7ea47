//! Cells whose xor at the places of each edge is its value.

ghost use Rattle.std.specs.Prelude.{◌≡◌, ◌≢◌, ◌<◌, ◌≤◌, ◌^◌, ℕ, All, IfOk, length, replicate, slice_index};
ghost use Rattle.sx_spec.specs.Systems.{cells_at};
ghost use Rattle.sx_peel.specs.Peeling.{AreFree, IsEdgeWithin, IsTakenOrder, vertex_in};
ghost use Rattle.sx_static.specs.Solving.{AreMet, IsMet};

use std::alloc::{AllocError, Global};
use sx_peel::{Edge, Taken};

/// So many cells that meet the value of each edge. Where every value is below a power of two, so is every cell.
pub(crate) fn cells_of(
    alloc: Global,
    count: u32,
    edges: &[Edge],
    values: &[u64],
    order: &[Taken],
) -> Result<Vec<u64>, AllocError>
    requires within { All (IsEdgeWithin count) edges.now }
    requires values { length values.now ≡ length edges.now }
    requires order { IsTakenOrder edges.now order.now }
    ensures count { IfOk result (λ v. length v.items ≡ count) }
    ensures narrow { IfOk result
        (λ v. (k : ℕ) → All (λ w. w < 2 ^ k) values.now → All (λ w. w < 2 ^ k) v.items) }
    ensures met { IfOk result
        (λ v. (i : ℕ) → i < length edges.now → IsMet edges.now values.now v.items i) }
{
    let mut cells = zeros(alloc, count as usize)?;
    fill(&mut cells, edges, values, order);
    Ok(cells)
}

/// So many numbers of 0.
fn zeros(alloc: Global, count: usize) -> Result<Vec<u64>, AllocError>
    ensures { IfOk result (λ v. v.items ≡ replicate count 0) }
{
    Ok(vec![in alloc; 0; count]?)
}

/// Sets the cells by the order from its end: each edge gets its value by the cell that no later edge has.
fn fill(cells: &mut [u64], edges: &[Edge], values: &[u64], order: &[Taken])
    requires within { All (IsEdgeWithin (length cells.old)) edges.now }
    requires values { length values.now ≡ length edges.now }
    requires order { AreFree edges.now order.now }
    ensures met { AreMet edges.now values.now cells.new order.now }
    ensures narrow { (k : ℕ) → All (λ w. w < 2 ^ k) values.now → All (λ w. w < 2 ^ k) cells.old
        → All (λ w. w < 2 ^ k) cells.new }
{
    for place in (0..order.len()).rev() {
        let taken = order[place];
        let number = taken.edge as usize;
        settle(cells, edges[number], taken.slot, values[number]);
    }
}

/// Sets the cell in the slot so that the edge's cells meet the value.
fn settle(cells: &mut [u64], edge: Edge, slot: u8, value: u64)
    requires within { IsEdgeWithin (length cells.old) edge }
    ensures met { cells_at cells.new edge ≡ value }
    ensures narrow { (k : ℕ) → value < 2 ^ k → All (λ w. w < 2 ^ k) cells.old
        → All (λ w. w < 2 ^ k) cells.new }
    ensures others { (v : ℕ) → v ≢ vertex_in edge slot
        → slice_index cells.new v ≡ slice_index cells.old v }
{
    let (a, b, c) = (edge.a as usize, edge.b as usize, edge.c as usize);
    match slot {
        0 => cells[a] = value ^ cells[b] ^ cells[c],
        1 => cells[b] = value ^ cells[a] ^ cells[c],
        _ => cells[c] = value ^ cells[a] ^ cells[b],
    }
}
