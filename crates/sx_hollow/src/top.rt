//! The nodes at the top of a hollow trie, whose numbers are read once and kept.

ghost use Rattle.std.specs.Prelude.{◌≡◌, ℕ, ◌+◌, ◌≤◌, List, IfNone, IfSome};
ghost use Rattle.sx_hollow.specs.Dist.{reserve};
ghost use Rattle.sx_hollow.specs.Tops.{AreKept, IsEntryOf};

use crate::walk::Stand;
use std::sync::ledger::Ledger;
use sx_fields::bank::WordBank;
use sx_steps::Steps;

/// The place of a node that isn't kept.
pub(crate) const NOT_KEPT: u32 = u32::MAX;

/// How many words a node that is kept takes. The lower and the upper half of the first are its number and
/// that of the leaves under its left child, and those of the second how many bits it skips and where its
/// children are kept.
pub(crate) const SIZE: usize = 2;

/// What a half of a word holds.
pub(crate) const HALF: u64 = 1 << 32;

/// A node: what the lists hold of it, and where its children are kept.
#[derive(Clone, Copy)]
pub(crate) struct Entry {
    /// The number of the node in preorder.
    pub(crate) node: u64,
    /// How many leaves its left child has.
    pub(crate) left: u64,
    /// How many bits it skips.
    pub(crate) skip: u64,
    /// Where the left child is kept, and the right one after it. A walk looks whether it is that node.
    pub(crate) children: u32,
}

/// What is kept of the inner node at which a walk stands, if it is kept: what the lists hold of it,
/// where the words are those of nodes of two lists. At most 2 words are read, and where it isn't kept,
/// at most one.
#[inline(always)]
pub(crate) fn kept<D: WordBank, L: Ledger>(
    top: &D,
    at: &Stand,
    steps: &mut Steps<L>,
) -> Option<Entry>
    ensures node { IfSome result (λ e. e.node ≡ at.now.node) }
    ensures numbers { (left : List ℕ) → (skip : List ℕ) → AreKept left skip (D.words_of top.now)
        → IfSome result (IsEntryOf left skip) }
    ensures counted { steps.old ≤ steps.new }
    ensures cost { steps.new ≤ steps.old + 2 }
    ensures missed { IfNone result (steps.new ≤ steps.old + reserve at.now.place) }
{
    if at.place == NOT_KEPT {
        return None;
    }
    let first = SIZE * at.place as usize;
    if first + 1 >= top.words() {
        return None;
    }
    let low = top.word(first, steps);
    if low % HALF != at.node {
        return None;
    }
    let high = top.word(first + 1, steps);
    Some(Entry {
        node: at.node,
        left: low / HALF,
        skip: high % HALF,
        children: (high / HALF) as u32,
    })
}
