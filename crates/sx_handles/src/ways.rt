//! The inner nodes on the way from the root to a leaf, and which of them have a handle that is a
//! prefix of a key: those whose handles are no longer than what the key shares with the leaf's
//! delimiter, where that is the one of the two beside the key with which it shares more.

ghost use Rattle.std.specs.Prelude.{◌≡◌, ◌+◌, ◌-◌, ◌<◌, ◌≤◌, OnOk, IfOk, length};
ghost use Rattle.sx_spec_kinds.specs.Trie.{extents_of};
ghost use Rattle.sx_trie.specs.Tries.{IsTrieOf, delimiter_bits};
ghost use Rattle.sx_handles.specs.Ways.{AreWaysBeside, IsWayOf, IsWayTo, key_at, key_block};

mod way;
mod way_node;

use std::alloc::{AllocError, Global};
use std::mem::swap;
use sx_bits::KeyList;
use sx_trie::{Node, Trie};
pub use way::Way;
pub use way_node::WayNode;

/// The number of a node's child under which a leaf stands, and how many leaves it has.
fn child(node: &Node, at: u32, leaf: u32) -> (u32, u32)
    requires left { node.now.first ≤ node.now.middle }
    requires right { node.now.middle ≤ node.now.after }
    requires next { at + 1 < 4294967296 }
    requires few { node.now.middle ≤ leaf
        → at + (node.now.middle - node.now.first) < 4294967296 }
    ensures left { leaf < node.now.middle
        → (result.0 ≡ at + 1) × (result.1 ≡ node.now.middle - node.now.first) }
    ensures right { node.now.middle ≤ leaf
        → (result.0 ≡ at + (node.now.middle - node.now.first))
        × (result.1 ≡ node.now.after - node.now.middle) }
{
    let left = node.middle - node.first;
    if leaf < node.middle {
        (at + 1, left)
    } else {
        (at + left, node.after - node.middle)
    }
}

/// Puts the inner nodes on the way from the root to a leaf in place of what is in a list. There are
/// two delimiters or more.
fn way_to(keys: &KeyList, trie: &Trie, leaf: u32, way: &mut Vec<WayNode>) -> Result<(), AllocError>
    requires built { IsTrieOf keys.now.lines trie.now }
    requires some { 1 < length trie.now.delimiters }
    requires leaf { leaf < length trie.now.delimiters }
    ensures { OnOk result
        (IsWayTo (delimiter_bits keys.now.lines trie.now.delimiters) leaf way.new.items) }
{
    way.clear();
    way.push(WayNode { node: 0, handle: 0 })?;
    // bounds the numbers of nodes
    let _count = trie.nodes();
    let mut at = 0;
    loop {
        let (next, leaves) = child(&trie.node(at), at, leaf);
        if leaves == 1 {
            return Ok(());
        }
        at = next;
        way.push(WayNode {
            node: at,
            handle: trie.handle_len(at),
        })?;
    }
}

/// The ways to the delimiters below and above the keys of a block.
#[derive(Drop)]
pub struct Ways {
    /// The block: the number of delimiters below its keys.
    pub block: u32,
    /// The way to the last delimiter below, where there is one.
    below: Vec<WayNode>,
    /// The way to the first delimiter that isn't below, where there is one.
    above: Vec<WayNode>,
}

impl Ways {
    /// The ways beside the first block. There are two delimiters or more.
    ///
    /// # Errors
    ///
    /// Want of memory.
    pub fn new(alloc: Global, keys: &KeyList, trie: &Trie) -> Result<Ways, AllocError>
        requires built { IsTrieOf keys.now.lines trie.now }
        requires some { 1 < length trie.now.delimiters }
        ensures block { IfOk result (λ w. w.block ≡ 0) }
        ensures ways { IfOk result (λ w. AreWaysBeside
            (delimiter_bits keys.now.lines trie.now.delimiters) 0 w.below.items w.above.items) }
    {
        let mut above = Vec::new(alloc);
        way_to(keys, trie, 0, &mut above)?;
        Ok(Ways {
            block: 0,
            below: Vec::new(alloc),
            above,
        })
    }

    /// Goes on to the block of a key, from that of the key before it, or from the first block.
    ///
    /// # Errors
    ///
    /// Want of memory.
    pub fn go_to(
        &mut self,
        keys: &KeyList,
        delimiters: &[u32],
        trie: &Trie,
        key: u32,
    ) -> Result<(), AllocError>
        requires built { IsTrieOf keys.now.lines trie.now }
        requires same { trie.now.delimiters ≡ delimiters.now }
        requires some { 1 < length delimiters.now }
        requires key { key < length keys.now.lines }
        requires first { key ≡ 0 → self.old.block ≡ 0 }
        requires next { 0 < key
            → self.old.block ≡ key_block keys.now.lines delimiters.now (key - 1) }
        requires ways { AreWaysBeside (delimiter_bits keys.now.lines delimiters.now)
            self.old.block self.old.below.items self.old.above.items }
        ensures block { OnOk result
            (self.new.block ≡ key_block keys.now.lines delimiters.now key) }
        ensures ways { OnOk result (AreWaysBeside (delimiter_bits keys.now.lines delimiters.now)
            self.new.block self.new.below.items self.new.above.items) }
    {
        // bounds the numbers of keys, and says that they rise
        let _count = keys.len();
        let block = self.block as usize;
        if block == delimiters.len() || key <= delimiters[block] {
            return Ok(());
        }
        self.block += 1;
        swap(&mut self.below, &mut self.above);
        if block + 1 < delimiters.len() {
            return way_to(keys, trie, self.block, &mut self.above);
        }
        Ok(())
    }

    /// The way of a key of the block: the one to the delimiter with which it shares more.
    pub fn of(&self, keys: &KeyList, delimiters: &[u32], trie: &Trie, key: u32) -> Way<'_>
        requires built { IsTrieOf keys.now.lines trie.now }
        requires same { trie.now.delimiters ≡ delimiters.now }
        requires some { 1 < length delimiters.now }
        requires key { key < length keys.now.lines }
        requires block { self.now.block ≡ key_block keys.now.lines delimiters.now key }
        requires ways { AreWaysBeside (delimiter_bits keys.now.lines delimiters.now)
            self.now.block self.now.below.items self.now.above.items }
        ensures { IsWayOf (extents_of (delimiter_bits keys.now.lines delimiters.now))
            (key_at keys.now.lines key) result.shared result.nodes.now }
    {
        let block = self.block as usize;
        let view = keys.view(key);
        if block == 0 {
            let shared = view.lcp(&keys.view(delimiters[0]));
            return Way {
                nodes: &self.above,
                shared,
            };
        }
        let below = view.lcp(&keys.view(delimiters[block - 1]));
        if block == delimiters.len() {
            return Way {
                nodes: &self.below,
                shared: below,
            };
        }
        let above = view.lcp(&keys.view(delimiters[block]));
        if above < below {
            return Way {
                nodes: &self.below,
                shared: below,
            };
        }
        Way {
            nodes: &self.above,
            shared: above,
        }
    }
}
