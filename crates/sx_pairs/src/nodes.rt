//! Nodes as the keys come to them, and the pairs of a node.

ghost use Rattle.std.specs.Prelude.{◌≡◌, ◌+◌, ◌<◌, ◌≤◌, true, min, List, ◌++◌, length, take, OnOk};
ghost use Rattle.sx_spec_strings.specs.Bits.{begins_with, common_prefix};
ghost use Rattle.sx_spec_kinds.specs.HollowDistributor.{NodePair as SpecPair};
ghost use Rattle.sx_spec_kinds.specs.Trie.{extents_of, name_len, node_at};
ghost use Rattle.sx_trie.specs.Ranges.{string_at};
ghost use Rattle.sx_trie.specs.Tries.{AreRising, IsTrieOf, delimiter_bits};
ghost use Rattle.sx_pairs.specs.Pairs.{ArePairs, IsPairOf, IsVisited, bits_after, bits_before, inner_pairs_at, leaf_pairs_at, key_at, name_at, node_fragment, node_pair, node_pairs};

use super::runs::{end_of_run, key_view, start_of_run};
use super::turn::{NodePair, turn_of};
use std::alloc::AllocError;
use sx_bits::{KeyList, Piece};
use sx_trie::Trie;

/// How many bits a key has at most: a leaf has no extent that ends a fragment.
const LONGEST: u32 = 65536;

/// A node of the trie: the fragments there are the bits of the keys from `name` up to before
/// `extent`, as far as they have bits. The delimiter that is key number `key` stands under it.
#[derive(Clone, Copy)]
pub(crate) struct VisitedNode {
    pub(crate) tag: u32,
    pub(crate) key: u32,
    pub(crate) name: u32,
    pub(crate) extent: u32,
    pub(crate) leaf: bool,
}

/// The length of the name of inner node number `tag`.
fn inner_name(keys: &KeyList, trie: &Trie, tag: u32) -> u32
    requires built { IsTrieOf keys.now.lines trie.now }
    requires inside { tag < length trie.now.nodes }
    ensures value { result ≡ name_at keys.now.lines trie.now.delimiters tag }
    ensures shorter { result ≤ (node_at trie.now.nodes tag).extent }
{
    if tag == 0 {
        return 0;
    }
    let _node = trie.node(tag);
    // the name ends with the bit that branches off the parent's extent
    trie.parent_extent(tag) + 1
}

/// Inner node number `tag` of the trie of these keys.
pub(crate) fn inner_node(keys: &KeyList, trie: &Trie, delimiters: &[u32], tag: u32) -> VisitedNode
    requires built { IsTrieOf keys.now.lines trie.now }
    requires same { trie.now.delimiters ≡ delimiters.now }
    requires inside { tag < length trie.now.nodes }
    ensures visited { IsVisited keys.now.lines result }
    ensures pairs { node_pairs keys.now.lines result
        ≡ inner_pairs_at keys.now.lines delimiters.now tag }
{
    let _count = keys.len();
    let node = trie.node(tag);
    VisitedNode {
        tag,
        key: delimiters[node.first as usize],
        name: inner_name(keys, trie, tag),
        extent: node.extent,
        leaf: false,
    }
}

/// How many bits two keys share, and one bit more.
fn shared(keys: &KeyList, a: u32, b: u32) -> u32
    requires first { a < length keys.now.lines }
    requires second { b < length keys.now.lines }
    ensures { result
        ≡ length (common_prefix (key_at keys.now.lines a) (key_at keys.now.lines b)) + 1 }
{
    key_view(keys, a).lcp(&key_view(keys, b)) + 1
}

/// How many bits leaf number `leaf` shares with the one before it, and one bit more; 0 for the
/// first.
fn parted_before(keys: &KeyList, delimiters: &[u32], leaf: usize) -> u32
    requires rising { AreRising keys.now.lines delimiters.now }
    requires inside { leaf < length delimiters.now }
    ensures { result ≡ bits_before (delimiter_bits keys.now.lines delimiters.now) leaf }
{
    if leaf == 0 {
        return 0;
    }
    shared(keys, delimiters[leaf - 1], delimiters[leaf])
}

/// How many bits leaf number `leaf` shares with the one after it, and one bit more; 0 for the
/// last.
fn parted_after(keys: &KeyList, delimiters: &[u32], leaf: usize) -> u32
    requires rising { AreRising keys.now.lines delimiters.now }
    requires inside { leaf < length delimiters.now }
    ensures { result ≡ bits_after (delimiter_bits keys.now.lines delimiters.now) leaf }
{
    let _count = keys.len();
    if delimiters.len() - leaf == 1 {
        return 0;
    }
    shared(keys, delimiters[leaf], delimiters[leaf + 1])
}

/// The length of the name of leaf number `leaf`, which ends with the bit that parts it from the
/// nearer neighbour.
fn leaf_name(keys: &KeyList, delimiters: &[u32], leaf: usize) -> u32
    requires rising { AreRising keys.now.lines delimiters.now }
    requires inside { leaf < length delimiters.now }
    ensures { result ≡ name_len (extents_of (delimiter_bits keys.now.lines delimiters.now))
        (string_at keys.now.lines delimiters.now leaf) }
{
    let _count = keys.len();
    parted_before(keys, delimiters, leaf).max(parted_after(keys, delimiters, leaf))
}

/// Leaf number `leaf`, with its tag.
pub(crate) fn leaf_node(keys: &KeyList, delimiters: &[u32], tag: u32, leaf: u32) -> VisitedNode
    requires rising { AreRising keys.now.lines delimiters.now }
    requires inside { leaf < length delimiters.now }
    ensures visited { IsVisited keys.now.lines result }
    ensures pairs { node_pairs keys.now.lines result
        ≡ leaf_pairs_at keys.now.lines delimiters.now tag leaf }
{
    let _count = keys.len();
    VisitedNode {
        tag,
        key: delimiters[leaf as usize],
        name: leaf_name(keys, delimiters, leaf as usize),
        extent: LONGEST,
        leaf: true,
    }
}

/// The pair of the fragment that key number `key` has at a node, up to before bit `to`. The key
/// begins with the node's name.
fn pair_at(keys: &KeyList, node: &VisitedNode, key: u32, to: u32) -> NodePair
    requires visited { IsVisited keys.now.lines node.now }
    requires inside { key < length keys.now.lines }
    requires visits { begins_with (key_at keys.now.lines key)
        (take node.now.name (key_at keys.now.lines node.now.key)) ≡ true }
    requires end { to ≡ min node.now.extent (length (key_at keys.now.lines key)) }
    ensures { IsPairOf keys.now.lines result
        (node_pair keys.now.lines node.now
        (node_fragment node.now (key_at keys.now.lines key))) }
{
    let own = key_view(keys, node.key);
    let own = own.range(node.name, node.extent.min(own.len()));
    let fragment = key_view(keys, key).range(node.name, to);
    NodePair {
        piece: Piece {
            tag: Some(node.tag),
            key,
            from: node.name,
            to,
        },
        turn: turn_of(node.leaf, &own, &fragment),
    }
}

/// Puts the pairs of a node behind the others.
pub(crate) fn push_node(
    pairs: &mut Vec<NodePair>,
    keys: &KeyList,
    node: &VisitedNode,
) -> Result<(), AllocError>
    requires { IsVisited keys.now.lines node.now }
    ensures { OnOk result ((before : List SpecPair)
        → ArePairs keys.now.lines pairs.old.items before
        → ArePairs keys.now.lines pairs.new.items (before ++ node_pairs keys.now.lines node.now)) }
{
    let _count = keys.len();
    let end = end_of_run(keys, node.key, node.name);
    let start = start_of_run(keys, node.key, node.name);
    let mut key = start;
    while key < end {
        let len = key_view(keys, key).len();
        let to = node.extent.min(len);
        pairs.push(pair_at(keys, node, key, to))?;
        // the keys behind it that have the same fragment
        key = end_of_run(keys, key, to);
    }
    Ok(())
}
