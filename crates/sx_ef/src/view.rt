//! An Elias-Fano list in the words of a bank.
ghost use Rattle.std.specs.Prelude.{◌≡◌, ◌+◌, ◌<◌, ◌≤◌, ◌^◌, ◌++◌, ℕ, All, IfOk, drop, length, slice_index, true};
ghost use Rattle.sx_spec.specs.Fields.{below_of, fields, low_words, ones_of, upper_bits, upper_words};
ghost use Rattle.sx_ranksel.specs.Directory.{number_at, rank_of};
ghost use Rattle.sx_ef.specs.Cursors.{IsCursor};
ghost use Rattle.sx_ef.specs.Parts.{is_sums_list, low_size, numbers_in, sums_of, upper_size};
ghost use Rattle.sx_ef.specs.Rooms.{AreListRooms};

use crate::cursor::Cursor;
use crate::encode::{EfBuf, encode, low_bits};
use std::alloc::{AllocError, Global};
use std::sync::ledger::Ledger;
use sx_fields::bank::{WordBank, Words, WordsBuf};
use sx_fields::fields::Fields;
use sx_fields::packed::Packed;
use sx_ranksel::directories::Directories;
use sx_ranksel::ranksel::RankSel;
use sx_steps::Steps;

/// Numbers that never fall, of which any is read in at most 80 ticks.
#[derive(Drop)]
pub struct EliasFano<B: WordBank + Copy, D: WordBank> {
    upper: RankSel<B, D>,
    low: Packed<B>,
    count: usize,
    width: u32,
    ghost narrow: { width ≤ 63 },
    ghost few: { count < 2 ^ 32 },
    ghost ones: { rank_of upper.bits (number_at upper.first (B.words_of upper.bank)) ≡ count },
    ghost lows: { low.len ≡ count },
    ghost low_width: { low.width ≡ width },
    ghost fit: { All (λ x. x < 2 ^ 64)
        (sums_of width
        (ones_of upper.bits (number_at upper.first (B.words_of upper.bank)))
        (fields low.width low.len (drop low.first (B.words_of low.bank)))) },
}

/// Where the upper bits of a list begin whose words stand from word `first` on, and how many there are.
#[inline]
fn upper_of(first: usize, count: u64, below: u64) -> (usize, u64)
    requires some { 0 < count }
    requires few { count < 2 ^ 32 }
    requires above { 0 < below }
    requires within { first + low_size count below < 2 ^ 64 }
    ensures start { result.0 ≡ first + low_size count below }
    ensures bits { result.1 ≡ upper_bits count below }
    ensures few { result.1 < 2 ^ 34 }
{
    let width = low_bits(count, below);
    let start = first + (count * u64::from(width)).div_ceil(64) as usize;
    let bits = count + ((below - 1) >> width);
    (start, bits)
}

impl EliasFano<Words<'static>, WordsBuf> {
    /// The low and the upper words of numbers that never fall. No number is 2^64 - 1.
    ///
    /// # Errors
    /// Only for want of memory.
    pub fn encode(alloc: Global, list: &[u64]) -> Result<EfBuf, AllocError>
        requires some { 0 < length list.now }
        requires short { length list.now < 2 ^ 32 }
        requires rising { (i : ℕ) → i + 1 < length list.now
            → slice_index list.now i ≤ slice_index list.now (i + 1) }
        requires last { below_of list.now < 2 ^ 64 }
        ensures count { IfOk result (λ e. e.count ≡ length list.now) }
        ensures below { IfOk result (λ e. e.below ≡ below_of list.now) }
        ensures low { IfOk result (λ e. e.low.items ≡ low_words list.now) }
        ensures upper { IfOk result (λ e. e.upper.items ≡ upper_words list.now) }
        ensures valid { IfOk result
            (λ e. is_sums_list e.count e.below (e.low.items ++ e.upper.items) ≡ true) }
        ensures numbers { IfOk result
            (λ e. numbers_in e.count e.below (e.low.items ++ e.upper.items) ≡ list.now) }
    {
        encode(alloc, list)
    }
}

impl<B: WordBank + Copy> EliasFano<B, WordsBuf> {
    /// The directories of the list of `count` numbers below `below` whose low and upper words stand
    /// from word `first` on.
    ///
    /// # Errors
    /// Only for want of memory.
    pub fn directories(
        alloc: Global,
        bank: B,
        first: usize,
        count: u64,
        below: u64,
    ) -> Result<Directories<Vec<u64>>, AllocError>
        requires some { 0 < count }
        requires few { count < 2 ^ 32 }
        requires above { 0 < below }
        requires within { first + low_size count below + upper_size count below
            ≤ length (B.words_of bank) }
        ensures made { IfOk result (λ d. AreListRooms (B.words_of bank) first count below
            d.directory.items d.groups.items d.places.items) }
    {
        let _words = bank.words();
        let (start, bits) = upper_of(first, count, below);
        Directories::of(alloc, bank, start, bits)
    }

    /// The list of `count` numbers below `below` whose low and upper words stand from word `first` on. No other call takes
    /// memory.
    ///
    /// # Errors
    /// Only for want of memory.
    pub fn build(
        alloc: Global,
        bank: B,
        first: usize,
        count: u64,
        below: u64,
    ) -> Result<EliasFano<B, WordsBuf>, AllocError>
        requires some { 0 < count }
        requires few { count < 2 ^ 32 }
        requires above { 0 < below }
        requires within { first + low_size count below + upper_size count below
            ≤ length (B.words_of bank) }
        requires valid { is_sums_list count below (drop first (B.words_of bank)) ≡ true }
        ensures items { IfOk result (λ e. ⟦<EliasFano<B, WordsBuf> as Fields>⟧.items e
            ≡ numbers_in count below (drop first (B.words_of bank))) }
        ensures len { IfOk result
            (λ e. length (⟦<EliasFano<B, WordsBuf> as Fields>⟧.items e) ≡ count) }
    {
        let directories = EliasFano::directories(alloc, bank, first, count, below)?;
        Ok(EliasFano::over(bank, first, count, below, directories.owned()))
    }
}

impl<B: WordBank + Copy, D: WordBank> EliasFano<B, D> {
    /// The list of `count` numbers below `below` whose low and upper words stand from word `first` on,
    /// with its directories. At most nine words are read.
    pub fn over(
        bank: B,
        first: usize,
        count: u64,
        below: u64,
        directories: Directories<D>,
    ) -> EliasFano<B, D>
        requires some { 0 < count }
        requires few { count < 2 ^ 32 }
        requires above { 0 < below }
        requires within { first + low_size count below + upper_size count below
            ≤ length (B.words_of bank) }
        requires valid { is_sums_list count below (drop first (B.words_of bank)) ≡ true }
        requires made { AreListRooms (B.words_of bank) first count below
            (D.words_of directories.directory) (D.words_of directories.groups)
            (D.words_of directories.places) }
        ensures items { ⟦<EliasFano<B, D> as Fields>⟧.items result
            ≡ numbers_in count below (drop first (B.words_of bank)) }
        ensures len { length (⟦<EliasFano<B, D> as Fields>⟧.items result) ≡ count }
    {
        let _words = bank.words();
        let width = low_bits(count, below);
        let low = Packed::new(bank, first, count as usize, width);
        let (start, bits) = upper_of(first, count, below);
        let upper = RankSel::over(bank, start, bits, directories);
        EliasFano {
            upper,
            low,
            count: count as usize,
            width,
        }
    }

    /// Number `i`, in at most 38 ticks.
    #[inline]
    fn number<L: Ledger>(&self, i: usize, steps: &mut Steps<L>) -> u64
        requires { i < length (⟦<EliasFano<B, D> as Fields>⟧.items self.now) }
        ensures value { result ≡ slice_index (⟦<EliasFano<B, D> as Fields>⟧.items self.now) i }
        ensures counted { steps.old < steps.new }
        ensures cost { steps.new ≤ steps.old + 38 }
    {
        self.cursor(i, steps).number
    }

    /// Number `i`, whose one stands at `place`, in at most two ticks.
    #[inline]
    fn number_of<L: Ledger>(&self, i: usize, place: u64, steps: &mut Steps<L>) -> u64
        requires within { i < length (⟦<EliasFano<B, D> as Fields>⟧.items self.now) }
        requires place { place ≡ slice_index (ones_of self.now.upper.bits
            (number_at self.now.upper.first (B.words_of self.now.upper.bank))) i }
        ensures value { result ≡ slice_index (⟦<EliasFano<B, D> as Fields>⟧.items self.now) i }
        ensures counted { steps.old ≤ steps.new }
        ensures cost { steps.new ≤ steps.old + 2 }
    {
        let high = place - i as u64;
        (high << self.width) + self.low.get(i, steps)
    }

    /// Number `i` with the place of its one, in at most 38 ticks.
    #[inline]
    pub fn cursor<L: Ledger>(&self, i: usize, steps: &mut Steps<L>) -> Cursor
        requires { i < length (⟦<EliasFano<B, D> as Fields>⟧.items self.now) }
        ensures cursor { IsCursor (ones_of self.now.upper.bits
            (number_at self.now.upper.first (B.words_of self.now.upper.bank)))
            (⟦<EliasFano<B, D> as Fields>⟧.items self.now) i result }
        ensures counted { steps.old < steps.new }
        ensures cost { steps.new ≤ steps.old + 38 }
    {
        let place = self.upper.select(i as u64, steps);
        let number = self.number_of(i, place, steps);
        Cursor { place, number }
    }

    /// Number `i + 1` with the place of its one, read on from those of number `i`, in at most 38 ticks.
    #[inline]
    pub fn next<L: Ledger>(&self, i: usize, at: Cursor, steps: &mut Steps<L>) -> Cursor
        requires within { i + 1 < length (⟦<EliasFano<B, D> as Fields>⟧.items self.now) }
        requires at { IsCursor (ones_of self.now.upper.bits
            (number_at self.now.upper.first (B.words_of self.now.upper.bank)))
            (⟦<EliasFano<B, D> as Fields>⟧.items self.now) i at }
        ensures cursor { IsCursor (ones_of self.now.upper.bits
            (number_at self.now.upper.first (B.words_of self.now.upper.bank)))
            (⟦<EliasFano<B, D> as Fields>⟧.items self.now) (i + 1) result }
        ensures counted { steps.old < steps.new }
        ensures cost { steps.new ≤ steps.old + 38 }
    {
        let place = self.upper.next(i as u64, at.place, steps);
        let number = self.number_of(i + 1, place, steps);
        Cursor { place, number }
    }

    /// Numbers `i` and `i + 1`, in at most 76 ticks.
    pub fn pair<L: Ledger>(&self, i: usize, steps: &mut Steps<L>) -> (u64, u64)
        requires { i + 1 < length (⟦<EliasFano<B, D> as Fields>⟧.items self.now) }
        ensures first { result.0 ≡ slice_index (⟦<EliasFano<B, D> as Fields>⟧.items self.now) i }
        ensures second { result.1
            ≡ slice_index (⟦<EliasFano<B, D> as Fields>⟧.items self.now) (i + 1) }
        ensures counted { steps.old < steps.new }
        ensures cost { steps.new ≤ steps.old + 76 }
    {
        let (place, next) = self.upper.select_pair(i as u64, steps);
        (
            self.number_of(i, place, steps),
            self.number_of(i + 1, next, steps),
        )
    }
}

impl<B: WordBank + Copy, D: WordBank> Fields for EliasFano<B, D> {
    ghost items = { λ e. sums_of e.width
        (ones_of e.upper.bits (number_at e.upper.first (B.words_of e.upper.bank)))
        (fields e.low.width e.low.len (drop e.low.first (B.words_of e.low.bank))) };

    ghost bits = { λ _. 64 };

    ghost ticks = { λ _. 80 };

    fn len(&self) -> usize {
        self.count
    }

    fn width(&self) -> u32 {
        64
    }

    fn cost(&self) -> u64 {
        80
    }

    fn get<L: Ledger>(&self, i: usize, steps: &mut Steps<L>) -> u64 {
        self.number(i, steps)
    }
}
