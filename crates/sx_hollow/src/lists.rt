//! What a hollow trie keeps of the inner nodes of a trie.

ghost use Rattle.std.specs.Prelude.{◌≡◌, ◌-◌, ◌<◌, ◌≤◌, All, IfOk, length, slice_index};
ghost use Rattle.sx_spec_kinds.specs.Hollow.{left_counts, skips};
ghost use Rattle.sx_trie.specs.Tries.{AreRising, IsTrieOf, delimiter_bits};

use std::alloc::{AllocError, Global};
use sx_bits::KeyList;
use sx_trie::Trie;

/// Of each inner node in preorder the number of leaves under its left child, and the number of bits
/// of its extent past its name.
#[derive(Drop)]
pub struct HollowLists {
    pub left: Vec<u32>,
    pub skip: Vec<u32>,
}

/// How many leaves the left child of a node has.
#[inline(always)]
fn left_of(trie: &Trie, node: u32, keys: &KeyList) -> u32
    requires built { IsTrieOf keys.now.lines trie.now }
    requires inside { node < length trie.now.nodes }
    ensures { result
        ≡ slice_index (left_counts (delimiter_bits keys.now.lines trie.now.delimiters)) node }
{
    let node = trie.node(node);
    node.middle - node.first
}

/// How many bits the extent of a node has past the node's name.
#[inline(always)]
fn skip_of(trie: &Trie, node: u32, keys: &KeyList) -> u32
    requires built { IsTrieOf keys.now.lines trie.now }
    requires inside { node < length trie.now.nodes }
    ensures { result
        ≡ slice_index (skips (delimiter_bits keys.now.lines trie.now.delimiters)) node }
{
    let extent = trie.node(node).extent;
    if node == 0 {
        return extent;
    }
    // the name ends with the bit that branches off the parent's extent
    extent - (trie.parent_extent(node) + 1)
}

/// The lists of the keys with these numbers, which rise strictly.
///
/// # Errors
/// Only for want of memory.
pub fn hollow_lists(
    alloc: Global,
    keys: &KeyList,
    members: &[u32],
) -> Result<HollowLists, AllocError>
    requires members { AreRising keys.now.lines members.now }
    ensures left { IfOk result
        (λ h. h.left.items ≡ left_counts (delimiter_bits keys.now.lines members.now)) }
    ensures skip { IfOk result
        (λ h. h.skip.items ≡ skips (delimiter_bits keys.now.lines members.now)) }
    ensures lefts { IfOk result (λ h. length h.left.items ≡ length members.now - 1) }
    ensures skips { IfOk result (λ h. length h.skip.items ≡ length members.now - 1) }
    ensures some { IfOk result (λ h. All (λ n. 1 ≤ n) h.left.items) }
{
    let trie = Trie::build(alloc, keys, members)?;
    let nodes = trie.nodes();
    let mut left = Vec::with_capacity(alloc, nodes as usize)?;
    let mut skip = Vec::with_capacity(alloc, nodes as usize)?;
    for node in 0..nodes {
        left.push(left_of(&trie, node, keys))?;
        skip.push(skip_of(&trie, node, keys))?;
    }
    Ok(HollowLists { left, skip })
}
