//! Small hypergraphs. The cores of the table were found by taking edges with a vertex of degree 1 away until none was left.

ghost use Rattle.std.specs.Prelude.{◌≡◌, ◌*◌, ◌<◌, ◌^◌, All, IfOk, length};
ghost use Rattle.sx_peel.specs.Peeling.{IsEdgeWithin};

use crate::{Edge, Peeled, peel};
use std::alloc::{AllocError, Global};
use std::process::Abort;
use std::test::Fail;

#[test]
fn equal_edges_are_a_core(rt: HostRuntime) -> Result<(), Fail> {
    let edge = Edge { a: 0, b: 2, c: 4 };
    expect_core(&rt, &peel(rt.alloc(), 6, &[edge, edge])?, &[0, 1]);
    Ok(())
}

#[test]
fn edges_apart_are_taken(rt: HostRuntime) -> Result<(), Fail> {
    let edges = [Edge { a: 0, b: 2, c: 4 }, Edge { a: 1, b: 3, c: 5 }];
    expect_order(&rt, &peel(rt.alloc(), 6, &edges)?, 2);
    Ok(())
}

#[test]
fn cores_are_found(rt: HostRuntime) -> Result<(), Fail> {
    let edges = [
        Edge { a: 5, b: 6, c: 0 },
        Edge { a: 6, b: 2, c: 4 },
        Edge { a: 1, b: 0, c: 3 },
        Edge { a: 3, b: 0, c: 5 },
        Edge { a: 1, b: 2, c: 3 },
        Edge { a: 4, b: 3, c: 5 },
    ];
    expect_core(&rt, &peel(rt.alloc(), 7, &edges)?, &[0, 1, 2, 3, 4, 5]);
    let edges = [
        Edge { a: 6, b: 1, c: 7 },
        Edge { a: 6, b: 5, c: 0 },
        Edge { a: 2, b: 6, c: 4 },
        Edge { a: 6, b: 2, c: 1 },
        Edge { a: 1, b: 4, c: 0 },
        Edge { a: 3, b: 7, c: 1 },
        Edge { a: 2, b: 6, c: 0 },
        Edge { a: 1, b: 6, c: 2 },
    ];
    expect_core(&rt, &peel(rt.alloc(), 8, &edges)?, &[2, 3, 4, 6, 7]);
    let edges = [
        Edge { a: 5, b: 3, c: 4 },
        Edge { a: 4, b: 0, c: 1 },
        Edge { a: 0, b: 3, c: 2 },
        Edge { a: 0, b: 5, c: 4 },
        Edge { a: 0, b: 2, c: 4 },
        Edge { a: 5, b: 0, c: 2 },
    ];
    expect_core(&rt, &peel(rt.alloc(), 6, &edges)?, &[0, 2, 3, 4, 5]);
    let edges = [
        Edge { a: 1, b: 5, c: 0 },
        Edge { a: 1, b: 0, c: 5 },
        Edge { a: 2, b: 1, c: 3 },
        Edge { a: 2, b: 0, c: 3 },
    ];
    expect_core(&rt, &peel(rt.alloc(), 6, &edges)?, &[0, 1, 2, 3]);
    Ok(())
}

#[test]
fn orders_are_found(rt: HostRuntime) -> Result<(), Fail> {
    let edges = [
        Edge { a: 2, b: 5, c: 6 },
        Edge { a: 2, b: 3, c: 0 },
        Edge { a: 5, b: 4, c: 3 },
        Edge { a: 3, b: 0, c: 1 },
        Edge { a: 4, b: 1, c: 0 },
    ];
    expect_order(&rt, &peel(rt.alloc(), 7, &edges)?, 5);
    let edges = [
        Edge { a: 0, b: 1, c: 2 },
        Edge { a: 5, b: 2, c: 6 },
        Edge { a: 5, b: 2, c: 1 },
        Edge { a: 4, b: 0, c: 5 },
    ];
    expect_order(&rt, &peel(rt.alloc(), 7, &edges)?, 4);
    Ok(())
}

#[test]
fn made_edges_peel_as_by_rounds(rt: HostRuntime) -> Result<(), Fail> {
    for seed in 0..40u32 {
        compare_with_rounds(&rt, &made_edges(rt.alloc(), seed, 100, 41)?, 123)?;
        compare_with_rounds(&rt, &made_edges(rt.alloc(), seed, 99, 33)?, 99)?;
        compare_with_rounds(&rt, &made_edges(rt.alloc(), seed, 8, 4)?, 12)?;
    }
    Ok(())
}

/// The core is what rounds leave, and an order comes where they leave nothing.
fn compare_with_rounds(
    rt: &(impl Abort + AllocGlobal),
    edges: &[Edge],
    bound: u32,
) -> Result<(), AllocError>
    requires within { All (IsEdgeWithin bound) edges.now }
    requires few { length edges.now < 2 ^ 20 }
{
    let left = left_by_rounds(rt.alloc(), bound, edges)?;
    let peeled = peel(rt.alloc(), bound, edges)?;
    if left.is_empty() {
        expect_order(rt, &peeled, edges.len() as u32);
    } else {
        expect_core(rt, &peeled, &left);
    }
    Ok(())
}

/// The numbers of the edges that are left when in each round all edges with a vertex of degree 1 are taken away.
fn left_by_rounds(alloc: Global, bound: u32, edges: &[Edge]) -> Result<Vec<u32>, AllocError>
    requires within { All (IsEdgeWithin bound) edges.now }
    requires few { length edges.now < 2 ^ 20 }
{
    let mut is_left = vec![in alloc; true; edges.len()]?;
    for _ in 0..edges.len() {
        take_round(alloc, bound, edges, &mut is_left)?;
    }
    let mut left = Vec::new(alloc);
    for (number, kept) in is_left.iter().enumerate() {
        if *kept {
            left.push(number as u32)?;
        }
    }
    Ok(left)
}

/// Takes away all edges that have a vertex of degree 1.
fn take_round(
    alloc: Global,
    bound: u32,
    edges: &[Edge],
    is_left: &mut [bool],
) -> Result<(), AllocError>
    requires within { All (IsEdgeWithin bound) edges.now }
    requires each { length is_left.old ≡ length edges.now }
{
    let mut degrees = vec![in alloc; 0u32; bound as usize]?;
    for (number, edge) in edges.iter().enumerate() {
        if is_left[number] {
            for vertex in [edge.a, edge.b, edge.c] {
                degrees[vertex as usize] = degrees[vertex as usize].wrapping_add(1);
            }
        }
    }
    for (number, edge) in edges.iter().enumerate() {
        let single = degrees[edge.a as usize] == 1
            || degrees[edge.b as usize] == 1
            || degrees[edge.c as usize] == 1;
        is_left[number] = is_left[number] && !single;
    }
    Ok(())
}

/// So many edges with a vertex in each third.
fn made_edges(alloc: Global, seed: u32, count: u32, third: u32) -> Result<Vec<Edge>, AllocError>
    requires some { 0 < third }
    requires few { third < 2 ^ 20 }
    ensures within { IfOk result (λ v. All (IsEdgeWithin (3 * third)) v.items) }
    ensures size { IfOk result (λ v. length v.items ≡ count) }
{
    let mut edges = Vec::with_capacity(alloc, count as usize)?;
    for i in 0..count {
        edges.push(made_edge((seed as u64) << 32 | i as u64, third))?;
    }
    Ok(edges)
}

/// An edge with a vertex in each third, by a number that is stirred well.
fn made_edge(number: u64, third: u32) -> Edge
    requires some { 0 < third }
    requires few { third < 2 ^ 20 }
    ensures { IsEdgeWithin (3 * third) result }
{
    let mut x = number.wrapping_mul(0x9e37_79b9_7f4a_7c15);
    x = (x ^ (x >> 30)).wrapping_mul(0xbf58_476d_1ce4_e5b9);
    x = (x ^ (x >> 27)).wrapping_mul(0x94d0_49bb_1331_11eb);
    x ^= x >> 31;
    let third = third as u64;
    Edge {
        a: (x % third) as u32,
        b: (third + (x >> 20) % third) as u32,
        c: (2 * third + (x >> 40) % third) as u32,
    }
}

/// The core has exactly these edges.
fn expect_core(rt: &impl Abort, peeled: &Peeled, want: &[u32]) {
    match peeled {
        Peeled::Core(numbers) => assert_eq!(rt; numbers.as_slice(), want),
        Peeled::Order(_) => assert!(rt; false, "an order"),
    }
}

/// The order has as many entries as there are edges, and each edge among them.
fn expect_order(rt: &impl Abort, peeled: &Peeled, count: u32) {
    match peeled {
        Peeled::Order(taken) => {
            assert_eq!(rt; taken.len(), count as usize);
            for number in 0..count {
                assert!(rt; taken.iter().any(|t| t.edge == number), "no edge {number}");
            }
        }
        Peeled::Core(_) => assert!(rt; false, "a core"),
    }
}
