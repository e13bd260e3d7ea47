//! Where the walk of a string stands in a hollow trie, and how it goes on.

ghost use Rattle.std.specs.Prelude.{◌≡◌, ◌+◌, ◌<◌, ◌≤◌, ◌^◌, IfSome, None, Some, length};
ghost use Rattle.sx_spec_kinds.specs.Hollow.{child, descend, goes};
ghost use Rattle.sx_bits.specs.Views.{bits_of};
ghost use Rattle.sx_hollow.specs.Walks.{stand_of, walk_on};

use crate::top::{Entry, NOT_KEPT};
use sx_bits::BitView;

/// Where a walk stands: at a node or at a leaf, from leaf `first` on, after `pos` bits of the string.
#[derive(Clone, Copy)]
pub(crate) struct Stand {
    /// The number of the node in preorder.
    pub(crate) node: u64,
    /// How many leaves there are under it.
    pub(crate) leaves: u64,
    /// The first of them.
    pub(crate) first: u64,
    /// How many bits of the string led there.
    pub(crate) pos: u32,
    /// Where the node is kept, if it is.
    pub(crate) place: u32,
}

impl Stand {
    /// The child that a bit names, where the left one has `left` leaves and the bit is the string's
    /// bit `place`.
    #[inline(always)]
    fn child(&self, left: u64, place: u32, right: bool) -> Stand
        requires fewer { left < self.now.leaves }
        requires node { self.now.node + self.now.leaves < 2 ^ 32 }
        requires first { self.now.first + self.now.leaves < 2 ^ 32 }
        requires place { place < 65536 }
        ensures { goes (stand_of result) ≡ child (stand_of self.now) left place right }
    {
        if right {
            Stand {
                node: self.node + left,
                leaves: self.leaves - left,
                first: self.first + left,
                pos: place + 1,
                place: NOT_KEPT,
            }
        } else {
            Stand {
                node: self.node + 1,
                leaves: left,
                first: self.first,
                pos: place + 1,
                place: NOT_KEPT,
            }
        }
    }

    /// On from an inner node that skips `skip` bits and whose left child has `left` leaves: to the
    /// child that the string's next bit names. None where the left child has no leaf or all of them,
    /// or the string ends before that bit. The numbers may be any.
    #[inline(always)]
    pub(crate) fn descend(&self, left: u64, skip: u64, view: &BitView<'_>) -> Option<Stand>
        requires node { self.now.node + self.now.leaves < 2 ^ 32 }
        requires first { self.now.first + self.now.leaves < 2 ^ 32 }
        requires short { self.now.pos < length (bits_of view.now) }
        ensures value { walk_on result
            ≡ descend left skip (bits_of view.now) (stand_of self.now) }
        ensures fewer { IfSome result (λ s. s.leaves < self.now.leaves) }
        ensures node { IfSome result
            (λ s. s.node + s.leaves ≤ self.now.node + self.now.leaves) }
        ensures first { IfSome result
            (λ s. s.first + s.leaves ≤ self.now.first + self.now.leaves) }
        ensures farther { IfSome result (λ s. self.now.pos < s.pos) }
        ensures short { IfSome result (λ s. s.pos ≤ length (bits_of view.now)) }
    {
        let rest = view.len() - self.pos;
        // the sum of the place may want more than 64 bits, so the skip is measured by what is left
        if left == 0 || self.leaves <= left || u64::from(rest) <= skip {
            return None;
        }
        let place = self.pos + skip as u32;
        Some(self.child(left, place, view.bit(place)))
    }

    /// On from an inner node of which an entry is kept.
    #[inline(always)]
    pub(crate) fn step(&self, entry: &Entry, view: &BitView<'_>) -> Option<Stand>
        requires node { self.now.node + self.now.leaves < 2 ^ 32 }
        requires first { self.now.first + self.now.leaves < 2 ^ 32 }
        requires short { self.now.pos < length (bits_of view.now) }
        ensures value { walk_on result
            ≡ descend entry.now.left entry.now.skip (bits_of view.now) (stand_of self.now) }
        ensures fewer { IfSome result (λ s. s.leaves < self.now.leaves) }
        ensures node { IfSome result
            (λ s. s.node + s.leaves ≤ self.now.node + self.now.leaves) }
        ensures first { IfSome result
            (λ s. s.first + s.leaves ≤ self.now.first + self.now.leaves) }
        ensures farther { IfSome result (λ s. self.now.pos < s.pos) }
        ensures short { IfSome result (λ s. s.pos ≤ length (bits_of view.now)) }
    {
        let next = self.descend(entry.left, entry.skip, view)?;
        let right = u32::from(next.first != self.first);
        let place = entry.children.wrapping_add(right);
        Some(Stand { place, ..next })
    }

    /// The leaf, where there is one and no other.
    #[inline(always)]
    pub(crate) fn leaf(&self) -> Option<u64>
        ensures one { self.now.leaves ≡ 1 → result ≡ Some self.now.first }
        ensures other { (self.now.leaves ≡ 1 → ⊥) → result ≡ None }
    {
        if self.leaves == 1 {
            Some(self.first)
        } else {
            None
        }
    }
}
