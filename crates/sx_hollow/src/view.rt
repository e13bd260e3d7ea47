//! The walk of a string by the lists of a hollow trie.

ghost use Rattle.std.specs.Prelude.{◌≡◌, ◌+◌, ◌-◌, ◌*◌, ◌<◌, ◌≤◌, ◌^◌, IfOk, length, max};
ghost use Rattle.sx_spec.specs.Reply.{gaps};
ghost use Rattle.sx_spec_kinds.specs.Hollow.{goes, walk_of};
ghost use Rattle.sx_bits.specs.Views.{bits_of};
ghost use Rattle.sx_hollow.specs.Tops.{AreKept};
ghost use Rattle.sx_hollow.specs.Views.{sums_read};
ghost use Rattle.sx_hollow.specs.Walks.{RestOf, stand_of};

use crate::cursors::Cursors;
use crate::keeping::top_of;
use crate::top::kept;
use crate::walk::Stand;
use std::alloc::{AllocError, Global};
use std::sync::ledger::Ledger;
use sx_bits::BitView;
use sx_ef::view::EliasFano;
use sx_fields::bank::{WordBank, WordsBuf};
use sx_steps::Steps;

/// A hollow trie that answers from a bank of words.
#[derive(Drop)]
pub struct HollowView<B: WordBank + Copy, D: WordBank> {
    /// The sums of the numbers of leaves under the left children.
    pub left: EliasFano<B, D>,
    /// The sums of the numbers of bits that are skipped.
    pub skip: EliasFano<B, D>,
    /// How many leaves there are.
    pub keys: u64,
    /// The nodes with most leaves, read beforehand.
    top: D,
    ghost few: { keys < 2 ^ 32 },
    ghost lefts: { length (sums_read left) ≡ max 1 keys },
    ghost skips: { length (sums_read skip) ≡ max 1 keys },
    ghost kept: { AreKept (gaps (sums_read left)) (gaps (sums_read skip)) (D.words_of top) },
}

impl<B: WordBank + Copy> HollowView<B, WordsBuf> {
    /// The hollow trie of fewer than 2 to the power 32 keys, by the sums of its two lists: as many as
    /// keys, or one. No other call takes memory.
    ///
    /// # Errors
    /// Only for want of memory.
    pub fn build(
        alloc: Global,
        left: EliasFano<B, WordsBuf>,
        skip: EliasFano<B, WordsBuf>,
        keys: u64,
    ) -> Result<HollowView<B, WordsBuf>, AllocError>
        requires few { keys < 2 ^ 32 }
        requires left { length (sums_read left) ≡ max 1 keys }
        requires skip { length (sums_read skip) ≡ max 1 keys }
        ensures left { IfOk result (λ v. v.left ≡ left) }
        ensures skip { IfOk result (λ v. v.skip ≡ skip) }
        ensures keys { IfOk result (λ v. v.keys ≡ keys) }
    {
        let top = top_of(alloc, &left, &skip, keys.saturating_sub(1))?;
        Ok(HollowView::over(left, skip, keys, WordsBuf::new(top)))
    }
}

impl<B: WordBank + Copy, D: WordBank> HollowView<B, D> {
    /// The hollow trie of fewer than 2 to the power 32 keys, by the sums of its two lists: as many as
    /// keys, or one, and with the words of nodes that are kept.
    pub fn over(left: EliasFano<B, D>, skip: EliasFano<B, D>, keys: u64, top: D) -> HollowView<B, D>
        requires few { keys < 2 ^ 32 }
        requires left { length (sums_read left) ≡ max 1 keys }
        requires skip { length (sums_read skip) ≡ max 1 keys }
        requires kept { AreKept (gaps (sums_read left)) (gaps (sums_read skip)) (D.words_of top) }
        ensures left { result.left ≡ left }
        ensures skip { result.skip ≡ skip }
        ensures keys { result.keys ≡ keys }
    {
        HollowView {
            left,
            skip,
            keys,
            top,
        }
    }

    /// The leaf at which the walk of a string ends: the rank of a key, and for any other string a
    /// number below the number of keys or none. At most 162 words are read for each bit of the string.
    pub fn answer<L: Ledger>(&self, view: &BitView<'_>, steps: &mut Steps<L>) -> Option<u64>
        ensures value { result ≡ walk_of (gaps (sums_read self.now.left))
            (gaps (sums_read self.now.skip)) self.now.keys (bits_of view.now) }
        ensures counted { steps.old ≤ steps.new }
        ensures cost { steps.new ≤ steps.old + 162 * length (bits_of view.now) }
    {
        let len = view.len();
        let mut at = Stand {
            node: 0,
            leaves: self.keys,
            first: 0,
            pos: 0,
            place: 0,
        };
        while at.leaves > 1 {
            // a walk is lost where its string has no bit left
            if len <= at.pos {
                return None;
            }
            let entry = match kept(&self.top, &at, steps) {
                Some(entry) => entry,
                None => return self.answer_by_lists(at, view, steps),
            };
            at = at.step(&entry, view)?;
        }
        at.leaf()
    }

    /// The leaf at which a walk ends that stands at an inner node and goes on by the lists alone.
    fn answer_by_lists<L: Ledger>(
        &self,
        mut at: Stand,
        view: &BitView<'_>,
        steps: &mut Steps<L>,
    ) -> Option<u64>
        requires more { 1 < at.leaves }
        requires node { at.node + at.leaves ≤ self.now.keys }
        requires first { at.first + at.leaves ≤ self.now.keys }
        requires short { at.pos < length (bits_of view.now) }
        requires rest { RestOf (gaps (sums_read self.now.left)) (gaps (sums_read self.now.skip))
            self.now.keys (bits_of view.now) (goes (stand_of at)) at.leaves }
        ensures value { result ≡ walk_of (gaps (sums_read self.now.left))
            (gaps (sums_read self.now.skip)) self.now.keys (bits_of view.now) }
        ensures counted { steps.old ≤ steps.new }
        ensures cost { steps.new ≤ steps.old + 152 * (length (bits_of view.now) - at.pos) }
    {
        let mut from = Cursors::at(&self.left, &self.skip, at.node as usize, steps);
        loop {
            let to = from.next(&self.left, &self.skip, at.node as usize, steps);
            let next = at.descend(to.left_above(&from), to.skip_above(&from), view)?;
            if next.leaves <= 1 {
                return next.leaf();
            }
            // a walk is lost where its string has no bit left
            if view.len() <= next.pos {
                return None;
            }
            // each left child is the next node, to which both lists are read on
            from = if next.node == at.node + 1 {
                to
            } else {
                Cursors::at(&self.left, &self.skip, next.node as usize, steps)
            };
            at = next;
        }
    }
}
