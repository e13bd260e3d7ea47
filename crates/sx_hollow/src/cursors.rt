//! Where a walk reads the two lists of a hollow trie.

ghost use Rattle.std.specs.Prelude.{◌≡◌, ◌+◌, ◌-◌, ◌<◌, ◌≤◌, length};
ghost use Rattle.sx_hollow.specs.Views.{AreAt, sums_read};

use std::sync::ledger::Ledger;
use sx_ef::cursor::Cursor;
use sx_ef::view::EliasFano;
use sx_fields::bank::WordBank;
use sx_steps::Steps;

/// The sums of both lists before a node.
#[derive(Clone, Copy)]
pub(crate) struct Cursors {
    /// Of the numbers of leaves under left children.
    pub(crate) left: Cursor,
    /// Of the numbers of bits that are skipped.
    pub(crate) skip: Cursor,
}

impl Cursors {
    /// Those of any node. At most 76 words are read.
    #[inline(always)]
    pub(crate) fn at<B: WordBank + Copy, D: WordBank, L: Ledger>(
        left: &EliasFano<B, D>,
        skip: &EliasFano<B, D>,
        node: usize,
        steps: &mut Steps<L>,
    ) -> Cursors
        requires left { node < length (sums_read left.now) }
        requires skip { node < length (sums_read skip.now) }
        ensures at { AreAt left.now skip.now node result }
        ensures counted { steps.old ≤ steps.new }
        ensures cost { steps.new ≤ steps.old + 76 }
    {
        Cursors {
            left: left.cursor(node, steps),
            skip: skip.cursor(node, steps),
        }
    }

    /// Those of the node after the node at which they are. At most 76 words are read.
    #[inline(always)]
    pub(crate) fn next<B: WordBank + Copy, D: WordBank, L: Ledger>(
        &self,
        left: &EliasFano<B, D>,
        skip: &EliasFano<B, D>,
        node: usize,
        steps: &mut Steps<L>,
    ) -> Cursors
        requires left { node + 1 < length (sums_read left.now) }
        requires skip { node + 1 < length (sums_read skip.now) }
        requires at { AreAt left.now skip.now node self.now }
        ensures at { AreAt left.now skip.now (node + 1) result }
        ensures counted { steps.old ≤ steps.new }
        ensures cost { steps.new ≤ steps.old + 76 }
    {
        Cursors {
            left: left.next(node, self.left, steps),
            skip: skip.next(node, self.skip, steps),
        }
    }

    /// How far the first sum is above that of others, or 0.
    #[inline(always)]
    pub(crate) fn left_above(&self, below: &Cursors) -> u64
        ensures { result ≡ self.now.left.number - below.now.left.number }
    {
        self.left.number.saturating_sub(below.left.number)
    }

    /// How far the second sum is above that of others, or 0.
    #[inline(always)]
    pub(crate) fn skip_above(&self, below: &Cursors) -> u64
        ensures { result ≡ self.now.skip.number - below.now.skip.number }
    {
        self.skip.number.saturating_sub(below.skip.number)
    }
}
