//! The block from a node and a code.

ghost use Rattle.std.specs.Prelude.{◌≡◌, ◌<◌, length};
ghost use Rattle.sx_spec_strings.specs.Bits.{bit_at};
ghost use Rattle.sx_spec_kinds.specs.Zfast.{block_from as block_of_code, child_after, child_first};
ghost use Rattle.sx_bits.specs.Views.{bits_of};
ghost use Rattle.sx_trie.specs.Tries.{node_of};

use sx_bits::BitView;
use sx_trie::Node;

/// The leaves of the child that a bit names: the first of them, and the one after the last.
#[inline(always)]
pub(crate) fn child_leaves(node: &Node, right: bool) -> (u32, u32)
    ensures first { result.0 ≡ child_first (node_of node.now) right }
    ensures after { result.1 ≡ child_after (node_of node.now) right }
{
    if right {
        (node.middle, node.after)
    } else {
        (node.first, node.middle)
    }
}

/// The block of a string from the node at which its search ends and its code. Codes 0 and 1 name the
/// two ends of the node's leaves, 2 and 3 those of the leaves of the child that the string's next bit
/// names, where it has one; no other code names a block.
#[inline(always)]
pub fn block_from(node: &Node, code: u64, view: &BitView<'_>) -> Option<u32>
    ensures { result ≡ block_of_code (node_of node.now) code (bits_of view.now) }
{
    if code == 0 {
        return Some(node.first);
    }
    if code == 1 {
        return Some(node.after);
    }
    if code > 3 {
        return None;
    }
    if view.len() <= node.extent {
        return None;
    }
    let (first, after) = child_leaves(node, view.bit(node.extent));
    if code == 2 { Some(first) } else { Some(after) }
}
