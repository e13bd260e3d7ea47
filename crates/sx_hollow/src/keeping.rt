//! Which nodes of a hollow trie are kept: those with most leaves, from the root on.

ghost use Rattle.std.specs.Prelude.{◌≡◌, ◌+◌, ◌*◌, ◌/◌, ◌<◌, ◌≤◌, ◌^◌, IfOk, length};
ghost use Rattle.sx_spec.specs.Reply.{gaps};
ghost use Rattle.sx_steps.specs.Blanks.{IsBlankOf};
ghost use Rattle.sx_hollow.specs.Tops.{AreKept};
ghost use Rattle.sx_hollow.specs.Views.{sums_read};

use crate::gap::gap;
use crate::top::{HALF, SIZE};
use std::alloc::{AllocError, Global};
use std::marker::Brand;
use std::sync::ledger::{Blank, Ledger};
use sx_ef::view::EliasFano;
use sx_fields::bank::WordBank;
use sx_steps::Steps;

/// One of so many nodes is kept at most, and none with fewer leaves.
const SHARE: u64 = 32;

/// A node that waits to be read, with its leaves.
#[derive(Clone, Copy)]
struct Waiting {
    node: u64,
    leaves: u64,
}

/// Lets a node wait if it has so many leaves or more and fewer than `most` have waited so far, and
/// tells whether it does.
fn wait(
    queue: &mut Vec<Waiting>,
    node: u64,
    leaves: u64,
    many: u64,
    most: usize,
) -> Result<bool, AllocError>
    requires few { length queue.old.items ≤ most }
    ensures few { length queue.new.items ≤ most }
{
    if leaves < many || queue.len() >= most {
        return Ok(false);
    }
    queue.push(Waiting { node, leaves })?;
    Ok(true)
}

/// Lets the children of a node wait, and tells the place of the left one. The right one has the next
/// place, also where the left one doesn't wait.
fn wait_for_both(
    queue: &mut Vec<Waiting>,
    at: Waiting,
    below: u64,
    many: u64,
    most: usize,
) -> Result<u64, AllocError>
    requires few { length queue.old.items ≤ most }
    ensures place { IfOk result (λ place. place < 2 ^ 32) }
    ensures few { length queue.new.items ≤ most }
{
    let place = queue.len() as u64;
    let left = wait(queue, at.node.saturating_add(1), below, many, most)?;
    let rest = at.leaves.saturating_sub(below);
    wait(queue, at.node.saturating_add(below), rest, many, most)?;
    let first = if left { place } else { place.saturating_sub(1) };
    Ok(first % HALF)
}

/// The words of the first `most` nodes with so many leaves or more, row by row from the root on. At most 152 words are read
/// for each.
fn rows_from_root<B: WordBank + Copy, D: WordBank, L: Ledger>(
    alloc: Global,
    left: &EliasFano<B, D>,
    skip: &EliasFano<B, D>,
    nodes: u64,
    most: usize,
    many: u64,
    steps: &mut Steps<L>,
) -> Result<Vec<u64>, AllocError>
    requires left { nodes < length (sums_read left.now) }
    requires skip { nodes < length (sums_read skip.now) }
    requires small { nodes < 2 ^ 32 }
    requires few { most < 2 ^ 32 }
    ensures kept { IfOk result
        (λ v. AreKept (gaps (sums_read left.now)) (gaps (sums_read skip.now)) v.items) }
    ensures few { IfOk result (λ v. length v.items ≤ 2 * most) }
    ensures counted { steps.old ≤ steps.new }
    ensures cost { steps.new ≤ steps.old + 152 * most }
{
    let mut words = Vec::new(alloc);
    let mut queue = Vec::new(alloc);
    wait(&mut queue, 0, nodes.saturating_add(1), many, most)?;
    for place in 0..most {
        if place >= queue.len() {
            break;
        }
        let at = queue[place];
        // lists of no trie may lead past the nodes
        if at.node >= nodes {
            break;
        }
        let below = gap(left, at.node as usize, steps);
        let skipped = gap(skip, at.node as usize, steps);
        // lists of no trie may have no leaf on a side, or hold more than half a word does
        if below == 0 || at.leaves <= below || below >= HALF || skipped >= HALF {
            break;
        }
        let children = wait_for_both(&mut queue, at, below, many, most)?;
        words.extend_from_slice(&[at.node + HALF * below, skipped + HALF * children])?;
    }
    Ok(words)
}

/// What `top_of` makes, with a count of its own.
fn top_counted<B: WordBank + Copy, D: WordBank, L: Ledger>(
    alloc: Global,
    left: &EliasFano<B, D>,
    skip: &EliasFano<B, D>,
    nodes: u64,
    blank: Blank,
) -> Result<Vec<u64>, AllocError>
    requires blank { IsBlankOf L.Ledger blank }
    requires few { nodes < 2 ^ 32 }
    requires left { nodes < length (sums_read left.now) }
    requires skip { nodes < length (sums_read skip.now) }
    ensures kept { IfOk result
        (λ v. AreKept (gaps (sums_read left.now)) (gaps (sums_read skip.now)) v.items) }
    ensures few { IfOk result (λ v. length v.items ≤ 2 * (nodes / 32)) }
{
    let mut steps = Steps::<L>::new(blank);
    let most = (nodes / SHARE) as usize;
    let mut words = Vec::new(alloc);
    // each node of a trie has a leaf on its left side, or more
    if nodes == 0 || left.pair(nodes as usize - 1, &mut steps).1 < nodes {
        return Ok(words);
    }
    let mut many = nodes / SHARE;
    // there are more nodes the fewer leaves they need have
    while many >= SHARE && words.len() < SIZE * most {
        let more = rows_from_root(alloc, left, skip, nodes, most, many, &mut steps)?;
        // rows that are cut off leave out nodes with more leaves than others that they have
        if more.len() >= SIZE * most && !words.is_empty() {
            break;
        }
        words = more;
        many /= 2;
    }
    Ok(words)
}

/// The words of the nodes that are kept of so many nodes, two for each.
///
/// # Errors
/// Only for want of memory.
pub fn top_of<B: WordBank + Copy, D: WordBank>(
    alloc: Global,
    left: &EliasFano<B, D>,
    skip: &EliasFano<B, D>,
    nodes: u64,
) -> Result<Vec<u64>, AllocError>
    requires few { nodes < 2 ^ 32 }
    requires left { nodes < length (sums_read left.now) }
    requires skip { nodes < length (sums_read skip.now) }
    ensures kept { IfOk result
        (λ v. AreKept (gaps (sums_read left.now)) (gaps (sums_read skip.now)) v.items) }
    ensures few { IfOk result (λ v. length v.items ≤ 2 * (nodes / 32)) }
{
    top_counted::<B, D, Brand>(alloc, left, skip, nodes, Blank::new(1))
}
