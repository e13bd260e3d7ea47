//! The walk of a string by the lists of a hollow trie of delimiters, and by a function that knows at
//! each node on which side of all delimiters below it a string lies that doesn't go on there.

ghost use Rattle.std.specs.Prelude.{◌≡◌, ◌+◌, ◌*◌, ◌<◌, ◌≤◌, ◌^◌, IfOk, Some, length, max};
ghost use Rattle.std.specs.List.{slice_index};
ghost use Rattle.sx_spec_strings.specs.Bits.{tagged};
ghost use Rattle.sx_spec.specs.Reply.{gaps};
ghost use Rattle.sx_spec_kinds.specs.Hollow.{end_of, goes};
ghost use Rattle.sx_spec_kinds.specs.HollowDistributor.{ask, hollow_block};
ghost use Rattle.sx_bits.specs.Views.{bits_of};
ghost use Rattle.sx_hollow.specs.Dist.{IfGoes, IsLater, reserve, walk_as};
ghost use Rattle.sx_static.specs.Reading.{answers_by};
ghost use Rattle.sx_hollow.specs.Tops.{AreKept};
ghost use Rattle.sx_hollow.specs.Views.{sums_read};
ghost use Rattle.sx_hollow.specs.Walks.{stand_of};

use crate::gap::gap;
use crate::keeping::top_of;
use crate::top::{Entry, HALF, NOT_KEPT, kept};
use crate::turning::{Walk, turned, turned_at_leaf};
use crate::walk::Stand;
use std::alloc::{AllocError, Global};
use std::sync::ledger::Ledger;
use sx_bits::BitView;
use sx_ef::view::EliasFano;
use sx_fields::bank::{WordBank, WordsBuf};
use sx_sig::sign;
use sx_static::FuncView;
use sx_steps::Steps;

/// How strings are signed.
#[derive(Clone, Copy)]
struct Signing {
    seed: u64,
    sig_bits: u32,
    ghost few: { sig_bits ≤ 192 },
}

/// A distributor by a hollow trie of its delimiters that answers from a bank of words.
#[derive(Drop)]
pub struct HollowDistView<B: WordBank + Copy, D: WordBank> {
    /// The sums of the numbers of leaves under the left children.
    pub left: EliasFano<B, D>,
    /// The sums of the numbers of bits that are skipped.
    pub skip: EliasFano<B, D>,
    /// Gives a fragment of a string, with the tag of its node, the string's turn there.
    pub turns: FuncView<B>,
    /// How many delimiters there are.
    pub delimiters: u64,
    /// The nodes with most leaves, read beforehand.
    top: D,
    ghost few: { delimiters < 2 ^ 32 },
    ghost lefts: { length (sums_read left) ≡ max 1 delimiters },
    ghost skips: { length (sums_read skip) ≡ max 1 delimiters },
    ghost kept: { AreKept (gaps (sums_read left)) (gaps (sums_read skip)) (D.words_of top) },
}

impl<B: WordBank + Copy> HollowDistView<B, WordsBuf> {
    /// The distributor by fewer than 2 to the power 32 delimiters, by the sums of its two lists, as
    /// many as delimiters, or one, and the function of its turns. No other call takes memory.
    ///
    /// # Errors
    /// Only for want of memory.
    pub fn build(
        alloc: Global,
        left: EliasFano<B, WordsBuf>,
        skip: EliasFano<B, WordsBuf>,
        turns: FuncView<B>,
        delimiters: u64,
    ) -> Result<HollowDistView<B, WordsBuf>, AllocError>
        requires few { delimiters < 2 ^ 32 }
        requires left { length (sums_read left) ≡ max 1 delimiters }
        requires skip { length (sums_read skip) ≡ max 1 delimiters }
        ensures left { IfOk result (λ v. v.left ≡ left) }
        ensures skip { IfOk result (λ v. v.skip ≡ skip) }
        ensures turns { IfOk result (λ v. v.turns ≡ turns) }
        ensures delimiters { IfOk result (λ v. v.delimiters ≡ delimiters) }
    {
        let top = top_of(alloc, &left, &skip, delimiters.saturating_sub(1))?;
        let top = WordsBuf::new(top);
        Ok(HollowDistView::over(left, skip, turns, delimiters, top))
    }
}

impl<B: WordBank + Copy, D: WordBank> HollowDistView<B, D> {
    /// The distributor by fewer than 2 to the power 32 delimiters, by the sums of its two lists, as
    /// many as delimiters, or one, the function of its turns, and with the words of nodes that are
    /// kept.
    pub fn over(
        left: EliasFano<B, D>,
        skip: EliasFano<B, D>,
        turns: FuncView<B>,
        delimiters: u64,
        top: D,
    ) -> HollowDistView<B, D>
        requires few { delimiters < 2 ^ 32 }
        requires left { length (sums_read left) ≡ max 1 delimiters }
        requires skip { length (sums_read skip) ≡ max 1 delimiters }
        requires kept { AreKept (gaps (sums_read left)) (gaps (sums_read skip)) (D.words_of top) }
        ensures left { result.left ≡ left }
        ensures skip { result.skip ≡ skip }
        ensures turns { result.turns ≡ turns }
        ensures delimiters { result.delimiters ≡ delimiters }
    {
        HollowDistView {
            left,
            skip,
            turns,
            delimiters,
            top,
        }
    }

    /// The block of a string of at least eight bits under a seed, with so many bits of a signature,
    /// at most 192: of a key the number of delimiters below it, and of any other string a number up
    /// to that of delimiters or none. At most 170 words for each bit of the string and 8 are read.
    pub fn block<L: Ledger>(
        &self,
        view: &BitView<'_>,
        seed: u64,
        sig_bits: u32,
        steps: &mut Steps<L>,
    ) -> Option<u64>
        requires whole { 8 ≤ length (bits_of view.now) }
        requires few { sig_bits ≤ 192 }
        ensures value { result ≡ hollow_block (gaps (sums_read self.now.left))
            (gaps (sums_read self.now.skip)) (answers_by self.now.turns seed sig_bits)
            self.now.delimiters (bits_of view.now) }
        ensures counted { steps.old ≤ steps.new }
        ensures cost { steps.new ≤ steps.old + (170 * length (bits_of view.now) + 8) }
    {
        if self.delimiters == 0 {
            return Some(0);
        }
        let signing = Signing { seed, sig_bits };
        let mut at = Stand {
            node: 0,
            leaves: self.delimiters,
            first: 0,
            pos: 0,
            place: 0,
        };
        while at.leaves > 1 {
            at = match self.ask(&at, view, signing, steps) {
                Walk::Goes(next) => next,
                Walk::Ends(block) => return Some(block),
                Walk::Lost => return None,
            };
        }
        self.ask_at_leaf(&at, view, signing, steps)
    }

    /// The step of a walk from an inner node. At most 160 words are read, and at most 84 where no bit
    /// of the string is left, and one more where the node isn't kept as told.
    #[inline(always)]
    fn ask<L: Ledger>(
        &self,
        at: &Stand,
        view: &BitView<'_>,
        signing: Signing,
        steps: &mut Steps<L>,
    ) -> Walk
        requires more { 1 < at.now.leaves }
        requires node { at.now.node + at.now.leaves ≤ self.now.delimiters }
        requires first { at.now.first + at.now.leaves ≤ self.now.delimiters }
        requires within { at.now.pos ≤ length (bits_of view.now) }
        ensures value { walk_as result ≡ ask (gaps (sums_read self.now.left))
            (gaps (sums_read self.now.skip))
            (answers_by self.now.turns signing.seed signing.sig_bits) self.now.delimiters
            (bits_of view.now) (goes (stand_of at.now)) }
        ensures later { IfGoes result (IsLater (length (bits_of view.now)) at.now) }
        ensures counted { steps.old ≤ steps.new }
        ensures cost { at.now.pos < length (bits_of view.now)
            → steps.new ≤ steps.old + (160 + reserve at.now.place) }
        ensures end { at.now.pos ≡ length (bits_of view.now)
            → steps.new ≤ steps.old + (84 + reserve at.now.place) }
        ensures reserve { IfGoes result
            (λ s. steps.new + reserve s.place ≤ steps.old + (160 + reserve at.now.place)) }
    {
        let rest = view.len() - at.pos;
        let entry = self.entry(at, rest, steps);
        // numbers of no trie are found before the function is asked
        if entry.left == 0 || at.leaves <= entry.left {
            return Walk::Lost;
        }
        let end = at.pos + entry.skip.min(u64::from(rest)) as u32;
        let turn = self.turn(at.node as u32, &view.range(at.pos, end), signing, steps);
        turned(at, &entry, turn, view)
    }

    /// The end of a walk at a leaf. At most eight words are read.
    fn ask_at_leaf<L: Ledger>(
        &self,
        at: &Stand,
        view: &BitView<'_>,
        signing: Signing,
        steps: &mut Steps<L>,
    ) -> Option<u64>
        requires one { at.now.leaves ≡ 1 }
        requires first { at.now.first < self.now.delimiters }
        requires within { at.now.pos ≤ length (bits_of view.now) }
        ensures value { result ≡ end_of (ask (gaps (sums_read self.now.left))
            (gaps (sums_read self.now.skip))
            (answers_by self.now.turns signing.seed signing.sig_bits) self.now.delimiters
            (bits_of view.now) (goes (stand_of at.now))) }
        ensures counted { steps.old ≤ steps.new }
        ensures cost { steps.new ≤ steps.old + 8 }
    {
        // of a tag the lowest 32 bits are signed
        let tag = ((self.delimiters - 1 + at.first) % HALF) as u32;
        let turn = self.turn(tag, &view.range(at.pos, view.len()), signing, steps);
        turned_at_leaf(at, turn)
    }

    /// What the function answers a fragment with its tag. At most eight words are read.
    #[inline(always)]
    fn turn<L: Ledger>(
        &self,
        tag: u32,
        fragment: &BitView<'_>,
        signing: Signing,
        steps: &mut Steps<L>,
    ) -> u64
        ensures value { result ≡ answers_by self.now.turns signing.seed signing.sig_bits
            (tagged (Some tag) (bits_of fragment.now)) }
        ensures counted { steps.old ≤ steps.new }
        ensures cost { steps.new ≤ steps.old + 8 }
    {
        let sig = sign(signing.seed, fragment, Some(tag), signing.sig_bits);
        self.turns.answer(&sig, steps)
    }

    /// The numbers of the inner node at which a walk stands, with `rest` bits to go. Where there are
    /// none, no skip tells anything, so it isn't read.
    #[inline(always)]
    fn entry<L: Ledger>(&self, at: &Stand, rest: u32, steps: &mut Steps<L>) -> Entry
        requires more { 1 < at.now.leaves }
        requires node { at.now.node + at.now.leaves ≤ self.now.delimiters }
        ensures node { result.node ≡ at.now.node }
        ensures left { result.left ≡ slice_index (gaps (sums_read self.now.left)) at.now.node }
        ensures skip { 0 < rest
            → result.skip ≡ slice_index (gaps (sums_read self.now.skip)) at.now.node }
        ensures counted { steps.old ≤ steps.new }
        ensures cost { steps.new ≤ steps.old + (152 + reserve at.now.place) }
        ensures end { rest ≡ 0 → steps.new ≤ steps.old + (76 + reserve at.now.place) }
        ensures children { steps.new + reserve result.children
            ≤ steps.old + (152 + reserve at.now.place) }
    {
        if let Some(entry) = kept(&self.top, at, steps) {
            return entry;
        }
        let left = gap(&self.left, at.node as usize, steps);
        let skip = if rest == 0 {
            0
        } else {
            gap(&self.skip, at.node as usize, steps)
        };
        Entry {
            node: at.node,
            left,
            skip,
            children: NOT_KEPT,
        }
    }
}
