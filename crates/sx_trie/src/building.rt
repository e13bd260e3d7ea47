//! How the nodes of a trie are found: from the root down, in preorder, by a stack of the ranges of
//! leaves whose nodes are still to come.

ghost use Rattle.std.specs.Prelude.{◌≡◌, ℕ, ◌<◌, ◌≤◌, true, false, length, IfOk, OnOk};
ghost use Rattle.sx_spec_strings.specs.Bits.{AreKeyBits, bit_at};
ghost use Rattle.sx_bits.specs.Views.{bits_of};
ghost use Rattle.sx_trie.specs.Tries.{AreRising, AreEntriesOf, IsTrieOf, delimiter_bits};
ghost use Rattle.sx_trie.specs.Ranges.{string_at, extent_over, IsSplittable, with_range};

use crate::nodes::{Entry, Node};
use crate::tries::Trie;
use std::alloc::{AllocError, Global};
use sx_bits::{BitView, KeyList};

/// The leaves `first` up to before `after`, which are those under one node, and the length of its
/// name.
#[derive(Clone, Copy)]
pub(crate) struct Range {
    pub(crate) first: u32,
    pub(crate) after: u32,
    pub(crate) name: u32,
}

/// The bits of delimiter number `i`.
#[inline(always)]
pub(crate) fn view_of<'a>(keys: &'a KeyList, delimiters: &[u32], i: u32) -> BitView<'a>
    requires rising { AreRising keys.now.lines delimiters.now }
    requires inside { i < length delimiters.now }
    ensures { bits_of result ≡ string_at keys.now.lines delimiters.now i }
{
    keys.view(delimiters[i as usize])
}

/// The first of the leaves whose bit at `extent` is 1.
fn split(keys: &KeyList, delimiters: &[u32], first: u32, after: u32, extent: u32) -> u32
    requires rising { AreRising keys.now.lines delimiters.now }
    requires ordered { first ≤ after }
    requires inside { after ≤ length delimiters.now }
    requires splits { IsSplittable (delimiter_bits keys.now.lines delimiters.now) first after
        extent }
    ensures low { first ≤ result }
    ensures high { result ≤ after }
    ensures zeros { (j : ℕ) → first ≤ j → j < result
        → bit_at (string_at keys.now.lines delimiters.now j) extent ≡ false }
    ensures ones { (j : ℕ) → result ≤ j → j < after
        → bit_at (string_at keys.now.lines delimiters.now j) extent ≡ true }
{
    let mut low = first;
    let mut high = after;
    while low < high {
        let middle = low + (high - low) / 2;
        if view_of(keys, delimiters, middle).bit(extent) {
            high = middle;
        } else {
            low = middle + 1;
        }
    }
    low
}

/// The node over a range of two leaves or more.
fn node_over(keys: &KeyList, delimiters: &[u32], first: u32, after: u32) -> Node
    requires rising { AreRising keys.now.lines delimiters.now }
    requires some { first < after }
    requires inside { after ≤ length delimiters.now }
    requires splits { IsSplittable (delimiter_bits keys.now.lines delimiters.now) first after
        (extent_over keys.now.lines delimiters.now first after) }
    ensures extent { result.extent ≡ extent_over keys.now.lines delimiters.now first after }
    ensures bound { result.extent ≤ 65536 }
    ensures first { result.first ≡ first }
    ensures after { result.after ≡ after }
    ensures low { first ≤ result.middle }
    ensures high { result.middle ≤ after }
    ensures zeros { (j : ℕ) → first ≤ j → j < result.middle
        → bit_at (string_at keys.now.lines delimiters.now j) result.extent ≡ false }
    ensures ones { (j : ℕ) → result.middle ≤ j → j < after
        → bit_at (string_at keys.now.lines delimiters.now j) result.extent ≡ true }
{
    let last = view_of(keys, delimiters, after - 1);
    let extent = view_of(keys, delimiters, first).lcp(&last);
    let middle = split(keys, delimiters, first, after, extent);
    Node {
        extent,
        first,
        middle,
        after,
    }
}

/// Puts a range on the stack, unless it has one leaf.
fn open_range(ranges: &mut Vec<Range>, range: Range) -> Result<(), AllocError>
    requires { range.first ≤ range.after }
    ensures { OnOk result (ranges.new.items ≡ with_range ranges.old.items range) }
{
    if range.after - range.first > 1 {
        ranges.push(range)?;
    }
    Ok(())
}

/// How many delimiters there are, which are keys.
fn count_of(keys: &KeyList, delimiters: &[u32]) -> u32
    requires { AreRising keys.now.lines delimiters.now }
    ensures value { result ≡ length delimiters.now }
    ensures keys { AreKeyBits (delimiter_bits keys.now.lines delimiters.now) }
{
    let _most = keys.len();
    delimiters.len() as u32
}

/// The nodes over all leaves in preorder, with their names.
fn entries_over(alloc: Global, keys: &KeyList, delimiters: &[u32]) -> Result<Vec<Entry>, AllocError>
    requires { AreRising keys.now.lines delimiters.now }
    ensures { IfOk result
        (λ entries. AreEntriesOf (delimiter_bits keys.now.lines delimiters.now) entries.items) }
{
    let after = count_of(keys, delimiters);
    let mut entries = Vec::new(alloc);
    let mut ranges = Vec::new(alloc);
    let all = Range {
        first: 0,
        after,
        name: 0,
    };
    open_range(&mut ranges, all)?;
    'opening: while let Some(range) = ranges.pop() {
        let node = node_over(keys, delimiters, range.first, range.after);
        entries.push(Entry {
            node,
            name: range.name,
        })?;
        let right = Range {
            first: node.middle,
            after: node.after,
            name: node.extent + 1,
        };
        open_range(&mut ranges, right)?;
        let left = Range {
            first: node.first,
            after: node.middle,
            name: node.extent + 1,
        };
        open_range(&mut ranges, left)?;
    }
    Ok(entries)
}

impl Trie {
    /// The trie of the keys with these numbers, which rise strictly.
    pub fn build(alloc: Global, keys: &KeyList, delimiters: &[u32]) -> Result<Trie, AllocError>
        requires { AreRising keys.now.lines delimiters.now }
        ensures built { IfOk result (λ trie. IsTrieOf keys.now.lines trie) }
        ensures delimiters { IfOk result (λ trie. trie.delimiters ≡ delimiters.now) }
    {
        let _count = count_of(keys, delimiters);
        let entries = entries_over(alloc, keys, delimiters)?;
        let delimiters = Vec::from_slice(alloc, delimiters)?;
        Ok(Trie {
            delimiters,
            entries,
        })
    }
}
