//! The way on which a key goes.

ghost use Rattle.std.specs.Prelude.{◌≡◌, ℕ, ◌<◌, ◌≤◌, List, length, take};
ghost use Rattle.sx_spec_strings.specs.Bits.{Bits};
ghost use Rattle.sx_spec_kinds.specs.Search.{handle_node, handles_of, true_search_of};
ghost use Rattle.sx_spec_kinds.specs.Trie.{IsTrie};
ghost use Rattle.sx_handles.specs.Ways.{IsWayOf, way_at};

use super::way_node::WayNode;

/// The inner nodes on a way, and how many bits a key shares with the delimiter at its end.
#[derive(Clone, Copy)]
pub struct Way<'a> {
    pub nodes: &'a [WayNode],
    pub shared: u32,
    ghost some: { 0 < length nodes.now },
    ghost root: { (way_at nodes.now 0).handle ≡ 0 },
}

impl Way<'_> {
    /// Where on the way the last node stands whose handle has at most so many bits.
    fn last(&self, len: u32) -> usize
        ensures inside { result < length self.now.nodes.now }
        ensures short { (way_at self.now.nodes.now result).handle ≤ len }
        ensures beyond { (i : ℕ) → result < i → i < length self.now.nodes.now
            → len < (way_at self.now.nodes.now i).handle }
    {
        let mut at = self.nodes.len() - 1;
        while at > 0 && self.nodes[at].handle > len {
            at -= 1;
        }
        at
    }

    /// The deepest node whose handle is a prefix of the key, or the root.
    pub fn deepest(&self) -> u32
        ensures { (extents : List Bits) → (x : Bits) → IsTrie extents
            → IsWayOf extents x self.now.shared self.now.nodes.now
            → result ≡ (true_search_of extents x).node }
    {
        self.nodes[self.last(self.shared)].node
    }

    /// The node whose handle is the first `len` bits of the key, which has as many.
    pub fn handled(&self, len: u32) -> Option<u32>
        ensures { (extents : List Bits) → (x : Bits) → IsTrie extents
            → IsWayOf extents x self.now.shared self.now.nodes.now
            → len ≤ length x → result ≡ handle_node (handles_of extents) (take len x) }
    {
        if self.shared < len {
            return None;
        }
        let last = self.nodes[self.last(len)];
        if last.node > 0 && last.handle == len {
            Some(last.node)
        } else {
            None
        }
    }
}
