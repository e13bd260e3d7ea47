//! Dumps, and what they reply to lines.

ghost use Rattle.std.specs.Prelude.{◌≡◌, ◌+◌, ◌≤◌, IfOk, None, length};
ghost use Rattle.sx_bits.specs.Views.{bits_of};
ghost use Rattle.sx_spec_strings.specs.Bits.{tagged};
ghost use Rattle.sx_spec.specs.Layout.{layout};
ghost use Rattle.sx_spec.specs.Reply.{reads, reply, reply_number, string_reply};
ghost use Rattle.sx_spec.specs.Signature.{signature};
ghost use Rattle.sx_dump.specs.Opening.{IsOpened, dump_in};
ghost use Rattle.sx_dump.specs.Replying.{kept_reads, place_kept, string_reads};
ghost use Rattle.sx_dump.specs.Viewing.{IsFuncView, IsHollowDistView, IsHollowView, IsKeptView, IsLcp2View, IsLcpView, IsViewOf, IsZfastView};

use crate::view::{View, kept_of, view_of};
use std::alloc::{AllocError, Global};
use std::sync::ledger::Ledger;
use sx_bits::BitView;
use sx_distributors::{HollowDistributor, ZfastDistributor};
use sx_fields::bank::{WordBank, WordsBuf};
use sx_fields::packed::Packed;
use sx_hollow::HollowView;
use sx_lcp::{Lcp2View, LcpView};
use sx_sections::header::Header;
use sx_sections::open::Opened;
use sx_sections::walk::Places;
use sx_sig::{Signature, sign};
use sx_signed::where_kept;
use sx_spec::Kind;
use sx_static::FuncView;
use sx_steps::Steps;

/// A dump that answers from a bank of its words.
#[derive(Drop)]
pub struct Dump<B: WordBank + Copy, D: WordBank> {
    pub bank: B,
    pub(crate) header: Header,
    /// Where its sections stand.
    pub(crate) places: Places,
    pub(crate) view: View<B, D>,
    /// What is kept of the signatures of its keys, where it is signed.
    pub(crate) kept: Option<Packed<B>>,
    ghost opened: { IsOpened (B.words_of bank) header places.items },
    ghost viewed: { IsViewOf (B.words_of bank) view },
    ghost numbers: { IsKeptView (B.words_of bank) kept },
}

impl<B: WordBank + Copy> Dump<B, WordsBuf> {
    /// The dump in a bank of words that were opened.
    ///
    /// # Errors
    /// Only for want of memory: directories of Elias-Fano lists are held, and nodes of hollow tries.
    pub(crate) fn new(alloc: Global, bank: B, opened: Opened) -> Result<Self, AllocError>
        requires { IsOpened (B.words_of bank) opened.header opened.places.items }
        ensures { IfOk result (λ d. d.bank ≡ bank) }
    {
        let view = view_of(alloc, bank, &opened)?;
        let kept = kept_of(bank, &opened);
        Ok(Dump {
            bank,
            header: opened.header,
            places: opened.places,
            view,
            kept,
        })
    }
}

impl<B: WordBank + Copy, D: WordBank> Dump<B, D> {
    /// What the dump holds.
    pub fn kind(&self) -> Kind
        ensures { result ≡ (dump_in (B.words_of self.now.bank)).header.plan.kind }
    {
        self.header.plan.kind
    }

    /// How many keys it was built from.
    pub fn keys(&self) -> u64
        ensures { result ≡ (dump_in (B.words_of self.now.bank)).header.keys }
    {
        u64::from(self.header.keys)
    }

    /// The seed of its signatures.
    pub fn seed(&self) -> u64
        ensures { result ≡ (dump_in (B.words_of self.now.bank)).header.seed }
    {
        self.header.seed
    }

    /// How many words its layout has.
    pub fn words(&self) -> u64
        ensures { result ≡ length (layout (dump_in (B.words_of self.now.bank))) }
    {
        self.bank.words() as u64
    }

    /// The reply to a line of at most 8,191 bytes, in at most as many reads of words as its kind
    /// takes, and two more of a signed dump: for a key its value, and for any other line whatever the
    /// sections give. A signed dump gives none where it doesn't keep the line's number at the place.
    #[inline(always)]
    pub fn reply<L: Ledger>(&self, line: &[u8], steps: &mut Steps<L>) -> i128
        requires { length line.now ≤ 8191 }
        ensures value { result
            ≡ reply_number (reply (dump_in (B.words_of self.now.bank)) line.now) }
        ensures counted { steps.old ≤ steps.new }
        ensures cost { steps.new ≤ steps.old + reads (dump_in (B.words_of self.now.bank)) line.now }
    {
        number_of(self.string_reply(&BitView::key_bits(line), steps))
    }

    /// The reply to a string of at least eight bits, which goes by the kind. A signature of the string
    /// is made once, and none where the kind makes none and the dump isn't signed.
    #[inline(always)]
    pub fn string_reply<L: Ledger>(&self, key: &BitView<'_>, steps: &mut Steps<L>) -> Option<u64>
        requires { 8 ≤ length (bits_of key.now) }
        ensures value { result
            ≡ string_reply (dump_in (B.words_of self.now.bank)) (bits_of key.now) }
        ensures counted { steps.old ≤ steps.new }
        ensures cost { steps.new
            ≤ steps.old + string_reads (dump_in (B.words_of self.now.bank)) (bits_of key.now) }
    {
        match &self.view {
            View::Func(values) => self.reply_by_function(values, key, steps),
            View::Lcp(lcp) => self.reply_by_lcp(lcp, key, steps),
            View::Lcp2(lcp2) => self.reply_by_lcp2(lcp2, key, steps),
            View::Hollow(hollow) => self.reply_by_hollow(hollow, key, steps),
            View::HollowDist(dist) => self.reply_by_hollow_dist(dist, key, steps),
            View::Zfast(dist) => self.reply_by_zfast(dist, key, steps),
        }
    }

    /// The same of a static function, whose value takes at most eight reads of words.
    #[inline(always)]
    fn reply_by_function<L: Ledger>(
        &self,
        values: &FuncView<B>,
        key: &BitView<'_>,
        steps: &mut Steps<L>,
    ) -> Option<u64>
        requires { IsFuncView (B.words_of self.now.bank) values.now }
        ensures value { result
            ≡ string_reply (dump_in (B.words_of self.now.bank)) (bits_of key.now) }
        ensures counted { steps.old ≤ steps.new }
        ensures cost { steps.new
            ≤ steps.old + string_reads (dump_in (B.words_of self.now.bank)) (bits_of key.now) }
    {
        let sig = self.signature_of(key);
        let value = values.answer(&sig, steps);
        self.where_kept(Some(value), &sig, steps)
    }

    /// The same of the kind `lcp`, whose place takes at most 16 reads of words.
    #[inline(always)]
    fn reply_by_lcp<L: Ledger>(
        &self,
        lcp: &LcpView<B>,
        key: &BitView<'_>,
        steps: &mut Steps<L>,
    ) -> Option<u64>
        requires { IsLcpView (B.words_of self.now.bank) lcp.now }
        ensures value { result
            ≡ string_reply (dump_in (B.words_of self.now.bank)) (bits_of key.now) }
        ensures counted { steps.old ≤ steps.new }
        ensures cost { steps.new
            ≤ steps.old + string_reads (dump_in (B.words_of self.now.bank)) (bits_of key.now) }
    {
        let header = &self.header;
        let sig = self.signature_of(key);
        let place = lcp.answer(key, &sig, header.seed, header.plan.sig_bits, steps);
        self.where_kept(place, &sig, steps)
    }

    /// The same of the kind `lcp2`, whose place takes at most 34 reads of words.
    #[inline(always)]
    fn reply_by_lcp2<L: Ledger>(
        &self,
        lcp2: &Lcp2View<B>,
        key: &BitView<'_>,
        steps: &mut Steps<L>,
    ) -> Option<u64>
        requires { IsLcp2View (B.words_of self.now.bank) lcp2.now }
        ensures value { result
            ≡ string_reply (dump_in (B.words_of self.now.bank)) (bits_of key.now) }
        ensures counted { steps.old ≤ steps.new }
        ensures cost { steps.new
            ≤ steps.old + string_reads (dump_in (B.words_of self.now.bank)) (bits_of key.now) }
    {
        let header = &self.header;
        let sig = self.signature_of(key);
        let place = lcp2.answer(key, &sig, header.seed, header.plan.sig_bits, steps);
        self.where_kept(place, &sig, steps)
    }

    /// The same of the kind `hollow`, whose place takes at most 162 reads of words for each bit of the
    /// string. A signature is made only where a place is to be checked.
    fn reply_by_hollow<L: Ledger>(
        &self,
        hollow: &HollowView<B, D>,
        key: &BitView<'_>,
        steps: &mut Steps<L>,
    ) -> Option<u64>
        requires { IsHollowView (B.words_of self.now.bank) hollow.now }
        ensures value { result
            ≡ string_reply (dump_in (B.words_of self.now.bank)) (bits_of key.now) }
        ensures counted { steps.old ≤ steps.new }
        ensures cost { steps.new
            ≤ steps.old + string_reads (dump_in (B.words_of self.now.bank)) (bits_of key.now) }
    {
        let place = hollow.answer(key, steps)?;
        match &self.kept {
            None => Some(place),
            Some(kept) => where_kept(kept, place, &self.signature_of(key), steps),
        }
    }

    /// The same of the kind `hollowdist`, whose place takes at most 170 reads of words for each bit of
    /// the string and 16.
    fn reply_by_hollow_dist<L: Ledger>(
        &self,
        dist: &HollowDistributor<B, D>,
        key: &BitView<'_>,
        steps: &mut Steps<L>,
    ) -> Option<u64>
        requires dist { IsHollowDistView (B.words_of self.now.bank) dist.now }
        requires whole { 8 ≤ length (bits_of key.now) }
        ensures value { result
            ≡ string_reply (dump_in (B.words_of self.now.bank)) (bits_of key.now) }
        ensures counted { steps.old ≤ steps.new }
        ensures cost { steps.new
            ≤ steps.old + string_reads (dump_in (B.words_of self.now.bank)) (bits_of key.now) }
    {
        let header = &self.header;
        let sig = self.signature_of(key);
        let place = dist.answer(key, &sig, header.seed, header.plan.sig_bits, steps);
        self.where_kept(place, &sig, steps)
    }

    /// The same of the kind `zfast`, whose place takes at most 12 reads of words for each binary digit
    /// of the string's length, 3 for each of the number of corrections, and 32.
    fn reply_by_zfast<L: Ledger>(
        &self,
        dist: &ZfastDistributor<B>,
        key: &BitView<'_>,
        steps: &mut Steps<L>,
    ) -> Option<u64>
        requires { IsZfastView (B.words_of self.now.bank) dist.now }
        ensures value { result
            ≡ string_reply (dump_in (B.words_of self.now.bank)) (bits_of key.now) }
        ensures counted { steps.old ≤ steps.new }
        ensures cost { steps.new
            ≤ steps.old + string_reads (dump_in (B.words_of self.now.bank)) (bits_of key.now) }
    {
        let header = &self.header;
        let sig = self.signature_of(key);
        let place = dist.answer(key, &sig, header.seed, header.plan.sig_bits, steps);
        self.where_kept(place, &sig, steps)
    }

    /// The signature of a string by the header.
    #[inline(always)]
    fn signature_of(&self, key: &BitView<'_>) -> Signature
        ensures { result ≡ signature self.now.header.seed self.now.header.plan.sig_bits
            (tagged None (bits_of key.now)) }
    {
        sign(self.header.seed, key, None, self.header.plan.sig_bits)
    }

    /// The place of a string with this signature, and of a signed dump only where the number that it
    /// keeps there is the signature's. At most two words are read, and none of an unsigned dump.
    #[inline(always)]
    fn where_kept<L: Ledger>(
        &self,
        place: Option<u64>,
        sig: &Signature,
        steps: &mut Steps<L>,
    ) -> Option<u64>
        ensures value { result ≡ place_kept (dump_in (B.words_of self.now.bank)) sig.now place }
        ensures counted { steps.old ≤ steps.new }
        ensures cost { steps.new ≤ steps.old + kept_reads (dump_in (B.words_of self.now.bank)) }
    {
        match &self.kept {
            None => place,
            Some(kept) => where_kept(kept, place?, sig, steps),
        }
    }
}

/// The reply as a number: -1 for none.
#[inline(always)]
fn number_of(reply: Option<u64>) -> i128
    ensures { result ≡ reply_number reply }
{
    match reply {
        Some(number) => i128::from(number),
        None => -1,
    }
}
