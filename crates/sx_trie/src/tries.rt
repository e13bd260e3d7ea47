//! The trie of delimiters, as the list of its inner nodes in preorder.

ghost use Rattle.std.specs.Prelude.{◌≡◌, ◌⊎◌, ◌+◌, ◌-◌, ◌<◌, ◌≤◌, ◌≢◌, true, length, slice_index, take};
ghost use Rattle.std.specs.Bool.{MatchBool};
ghost use Rattle.sx_spec_kinds.specs.Blocks.{block_of};
ghost use Rattle.sx_spec_kinds.specs.Fattest.{fattest as fattest_of};
ghost use Rattle.sx_spec_kinds.specs.Trie.{node_at, leaves_at, block_at_exit, exit_of as exit_in};
ghost use Rattle.sx_bits.specs.Views.{bits_of};

use crate::building::view_of;
use crate::exits::{Exit, Place};
use crate::handles::fattest;
use crate::nodes::{Entry, Node};
use std::marker::Model;
use sx_bits::{BitView, KeyList};

/// The compacted trie of delimiters: its inner nodes are numbered in preorder from 0, which is the
/// root, and its leaves in order. It keeps the key numbers of the delimiters.
#[derive(Drop)]
pub struct Trie {
    pub(crate) delimiters: Vec<u32>,
    pub(crate) entries: Vec<Entry>,
}

impl Model for Trie {
    ghost use Rattle.sx_trie.specs.Tries.{Contents, contents_of, IsFit};

    ghost Value = { Contents };

    ghost view = { λ a. contents_of a.delimiters.items a.entries.items };

    ghost invariant = { λ a. IsFit (contents_of a.delimiters.items a.entries.items) };
}

impl Trie {
    ghost use Rattle.sx_trie.specs.Tries.{node_of, place_of, exit_of, delimiter_bits, IsTrieOf, IsPlaceOf};

    /// How many inner nodes there are: one less than delimiters, or 0.
    #[inline(always)]
    pub fn nodes(&self) -> u32
        ensures { result ≡ length self.now.nodes }
    {
        self.entries.len() as u32
    }

    /// Node `i`, which is below the number of nodes.
    #[inline(always)]
    pub fn node(&self, i: u32) -> Node
        requires { i < length self.now.nodes }
        ensures { node_of result ≡ node_at self.now.nodes i }
    {
        self.entries[i as usize].node
    }

    /// The length of the extent of node `i`'s parent. `i` is from 1 up to before the number of nodes.
    #[inline(always)]
    pub fn parent_extent(&self, i: u32) -> u32
        requires some { 1 ≤ i }
        requires inside { i < length self.now.nodes }
        ensures value { result + 1 ≡ slice_index self.now.names i }
        ensures shorter { result < (node_at self.now.nodes i).extent }
    {
        self.entries[i as usize].name - 1
    }

    /// The length of node `i`'s handle. `i` is from 1 up to before the number of nodes.
    #[inline(always)]
    pub fn handle_len(&self, i: u32) -> u32
        requires some { 1 ≤ i }
        requires inside { i < length self.now.nodes }
        ensures { result
            ≡ fattest_of (slice_index self.now.names i - 1) (node_at self.now.nodes i).extent }
    {
        fattest(self.parent_extent(i), self.node(i).extent)
    }

    /// Where the walk of a string ends that begins at the root. `keys` is the list of which the trie
    /// was built, and there is a delimiter.
    pub fn exit(&self, keys: &KeyList, view: &BitView<'_>) -> Exit
        requires built { IsTrieOf keys.now.lines self.now }
        requires some { 0 < length self.now.delimiters }
        ensures place { IsPlaceOf self.now result.place }
        ensures value { exit_of result
            ≡ exit_in (delimiter_bits keys.now.lines self.now.delimiters) (bits_of view.now) }
        ensures below { block_at_exit self.now.nodes (exit_of result)
            ≡ block_of (delimiter_bits keys.now.lines self.now.delimiters) (bits_of view.now) }
    {
        let mut at = 0;
        let mut first = 0;
        let mut after = self.delimiters.len() as u32;
        // how many bits the string shares with the delimiters from `first` on
        let mut name = 0;
        while after - first > 1 {
            let node = self.node(at);
            let delimiter = view_of(keys, &self.delimiters, first);
            if !goes_on(&delimiter, view, name, node.extent) {
                return Exit {
                    place: Place::Inner(at),
                    right: delimiter.order(view).is_lt(),
                };
            }
            name = node.extent + 1;
            if view.bit(node.extent) {
                at += node.middle - node.first;
                first = node.middle;
            } else {
                at += 1;
                after = node.middle;
            }
        }
        let leaf = view_of(keys, &self.delimiters, first);
        Exit {
            place: Place::Leaf(first),
            right: leaf.order(view).is_lt(),
        }
    }

    /// The block at an exit of this trie: how many delimiters are below the strings that leave it
    /// there.
    pub fn block(&self, e: &Exit) -> u32
        requires { IsPlaceOf self.now e.now.place }
        ensures { result ≡ block_at_exit self.now.nodes (exit_of e.now) }
    {
        let (first, after) = self.leaves(&e.place);
        if e.right { after } else { first }
    }

    /// The leaves at a place of this trie, from the first up to before the second.
    #[inline(always)]
    fn leaves(&self, place: &Place) -> (u32, u32)
        requires { IsPlaceOf self.now place.now }
        ensures { (result.0, result.1) ≡ leaves_at self.now.nodes (place_of place.now) }
    {
        match place {
            Place::Inner(i) => {
                let node = self.node(*i);
                (node.first, node.after)
            }
            Place::Leaf(j) => {
                let _count = self.delimiters.len();
                (*j, *j + 1)
            }
        }
    }
}

/// Whether a walk goes on from a node with an extent of this length, under which the delimiter
/// stands: whether the extent is a proper prefix of the string. The first `name` bits are the same.
#[inline(always)]
fn goes_on(delimiter: &BitView<'_>, view: &BitView<'_>, name: u32, extent: u32) -> bool
    requires ordered { name ≤ extent }
    requires inside { extent ≤ length (bits_of delimiter.now) }
    requires shared { take name (bits_of delimiter.now) ≡ take name (bits_of view.now) }
    ensures proper { MatchBool result
        ((extent < length (bits_of view.now)) × (take extent (bits_of view.now) ≡ take extent (bits_of delimiter.now)))
        ((length (bits_of view.now) ≤ extent) ⊎ (take extent (bits_of view.now) ≢ take extent (bits_of delimiter.now))) }
    ensures bound { result ≡ true → extent < 65536 }
{
    if view.len() <= extent {
        return false;
    }
    view.range(name, extent).lcp(&delimiter.range(name, extent)) == extent - name
}
