//! The ones below a bit, and the place of a one.
ghost use Rattle.std.specs.Prelude.{◌≡◌, ◌+◌, ◌*◌, ◌/◌, ◌<◌, ◌≤◌, ◌^◌, All, IfOk, IfSome, length, slice_index};
ghost use Rattle.std.specs.Int.{bit_at};
ghost use Rattle.sx_spec.specs.Fields.{ones_of, words_for};
ghost use Rattle.sx_ranksel.specs.Directory.{number_at, rank_of};
ghost use Rattle.sx_ranksel.specs.Groups.{IsShort, place_of};
ghost use Rattle.sx_ranksel.specs.Rooms.{AreDirectories};

use crate::counts::{next_between, ones_below, select_between};
use crate::directories::Directories;
use crate::groups::LISTED;
use std::alloc::{AllocError, Global};
use std::marker::Brand;
use std::sync::ledger::{Blank, Ledger};
use sx_fields::bank::{WordBank, WordsBuf};
use sx_steps::Steps;

/// The bits of a bank from a word on, with a directory of the ones before each block of eight words, and one of where each
/// group of 64 ones stands.
#[derive(Drop)]
pub struct RankSel<B: WordBank + Copy, D: WordBank> {
    bank: B,
    first: usize,
    bits: u64,
    ones: u64,
    directories: Directories<D>,
    ghost few: { bits ≤ 2 ^ 34 },
    ghost within: { first + words_for bits ≤ length (B.words_of bank) },
    ghost long: { length (B.words_of bank) < 2 ^ 64 },
    ghost small: { All (λ w. w < 2 ^ 64) (B.words_of bank) },
    ghost counted: { ones ≡ rank_of bits (number_at first (B.words_of bank)) },
    ghost made: { AreDirectories (B.words_of bank) first bits (D.words_of directories.directory)
        (D.words_of directories.groups) (D.words_of directories.places) },
}

/// What `RankSel::over` makes, with a count of its own.
fn over_counted<B: WordBank + Copy, D: WordBank, L: Ledger>(
    bank: B,
    first: usize,
    bits: u64,
    directories: Directories<D>,
    blank: Blank,
) -> RankSel<B, D>
    requires name { blank.name ≡ L.name }
    requires parts { blank.parts ≡ L.parts }
    requires some { 0 < blank.parts }
    requires few { bits ≤ 2 ^ 34 }
    requires within { first + words_for bits ≤ length (B.words_of bank) }
    requires made { AreDirectories (B.words_of bank) first bits
        (D.words_of directories.directory) (D.words_of directories.groups)
        (D.words_of directories.places) }
    ensures bank { result.bank ≡ bank }
    ensures first { result.first ≡ first }
    ensures bits { result.bits ≡ bits }
    ensures directories { result.directories ≡ directories }
{
    let mut steps = Steps::<L>::new(blank);
    let _words = bank.words();
    let before = directories
        .directory
        .word((bits / 512) as usize, &mut steps);
    let ones = ones_below(&bank, first, before, bits, &mut steps);
    RankSel {
        bank,
        first,
        bits,
        ones,
        directories,
    }
}

impl<B: WordBank + Copy> RankSel<B, WordsBuf> {
    /// The `bits` bits of the bank from word `first` on. No other call takes memory.
    ///
    /// # Errors
    /// Only for want of memory.
    pub fn build(
        alloc: Global,
        bank: B,
        first: usize,
        bits: u64,
    ) -> Result<RankSel<B, WordsBuf>, AllocError>
        requires few { bits ≤ 2 ^ 34 }
        requires within { first + words_for bits ≤ length (B.words_of bank) }
        ensures bank { IfOk result (λ r. r.bank ≡ bank) }
        ensures first { IfOk result (λ r. r.first ≡ first) }
        ensures bits { IfOk result (λ r. r.bits ≡ bits) }
    {
        let directories = Directories::of(alloc, bank, first, bits)?;
        Ok(RankSel::over(bank, first, bits, directories.owned()))
    }
}

impl<B: WordBank + Copy, D: WordBank> RankSel<B, D> {
    /// The `bits` bits of the bank from word `first` on, with their directories. At most nine words
    /// are read.
    pub fn over(bank: B, first: usize, bits: u64, directories: Directories<D>) -> RankSel<B, D>
        requires few { bits ≤ 2 ^ 34 }
        requires within { first + words_for bits ≤ length (B.words_of bank) }
        requires made { AreDirectories (B.words_of bank) first bits
            (D.words_of directories.directory) (D.words_of directories.groups)
            (D.words_of directories.places) }
        ensures bank { result.bank ≡ bank }
        ensures first { result.first ≡ first }
        ensures bits { result.bits ≡ bits }
        ensures directories { result.directories ≡ directories }
    {
        over_counted::<B, D, Brand>(bank, first, bits, directories, Blank::new(1))
    }

    /// How many ones there are.
    pub fn ones(&self) -> u64
        ensures { result
            ≡ rank_of self.now.bits (number_at self.now.first (B.words_of self.now.bank)) }
    {
        self.ones
    }

    /// The ones below bit `pos`, in at most 10 ticks.
    pub fn rank<L: Ledger>(&self, pos: u64, steps: &mut Steps<L>) -> u64
        requires { pos ≤ self.now.bits }
        ensures rank { result ≡ rank_of pos (number_at self.now.first (B.words_of self.now.bank)) }
        ensures counted { steps.old < steps.new }
        ensures cost { steps.new ≤ steps.old + 10 }
    {
        let before = self.directories.directory.word((pos / 512) as usize, steps);
        ones_below(&self.bank, self.first, before, pos, steps)
    }

    /// The place of one number `k`, counted from 0, in at most 36 ticks.
    pub fn select<L: Ledger>(&self, k: u64, steps: &mut Steps<L>) -> u64
        requires { k < rank_of self.now.bits (number_at self.now.first (B.words_of self.now.bank)) }
        ensures place { result
            ≡ slice_index (ones_of self.now.bits (number_at self.now.first (B.words_of self.now.bank)))
            k }
        ensures counted { steps.old < steps.new }
        ensures cost { steps.new ≤ steps.old + 36 }
    {
        self.one_at(k, steps)
    }

    /// The places of ones number `k` and `k + 1`, counted from 0, in at most 72 ticks.
    pub fn select_pair<L: Ledger>(&self, k: u64, steps: &mut Steps<L>) -> (u64, u64)
        requires { k + 1
            < rank_of self.now.bits (number_at self.now.first (B.words_of self.now.bank)) }
        ensures first { result.0
            ≡ place_of self.now.bits (number_at self.now.first (B.words_of self.now.bank)) k }
        ensures second { result.1
            ≡ place_of self.now.bits (number_at self.now.first (B.words_of self.now.bank)) (k + 1) }
        ensures counted { steps.old < steps.new }
        ensures cost { steps.new ≤ steps.old + 72 }
    {
        let place = self.one_at(k, steps);
        (place, self.next(k, place, steps))
    }

    /// The place of the one after one number `k`, which stands at `place`, in at most 36 ticks.
    #[inline]
    pub fn next<L: Ledger>(&self, k: u64, place: u64, steps: &mut Steps<L>) -> u64
        requires some { k + 1
            < rank_of self.now.bits (number_at self.now.first (B.words_of self.now.bank)) }
        requires place { place
            ≡ place_of self.now.bits (number_at self.now.first (B.words_of self.now.bank)) k }
        ensures place { result
            ≡ place_of self.now.bits (number_at self.now.first (B.words_of self.now.bank)) (k + 1) }
        ensures counted { steps.old < steps.new }
        ensures cost { steps.new ≤ steps.old + 36 }
    {
        match self.next_near(place, steps) {
            Some(next) => next,
            None => self.one_at(k + 1, steps),
        }
    }

    /// The place of one number `k`, in at most 32 ticks.
    #[inline]
    fn one_at<L: Ledger>(&self, k: u64, steps: &mut Steps<L>) -> u64
        requires { k < rank_of self.now.bits (number_at self.now.first (B.words_of self.now.bank)) }
        ensures place { result
            ≡ place_of self.now.bits (number_at self.now.first (B.words_of self.now.bank)) k }
        ensures counted { steps.old < steps.new }
        ensures cost { steps.new ≤ steps.old + 32 }
    {
        let word = self.directories.groups.word((k / 64) as usize, steps);
        if word < LISTED {
            return self.one_near(word, k, steps);
        }
        let place = (word - LISTED) as usize + (k % 64) as usize;
        self.directories.places.word(place, steps)
    }

    /// The place of one number `k` of a group whose ones stand in 30 words, the first of them at `start`.
    #[inline]
    fn one_near<L: Ledger>(&self, start: u64, k: u64, steps: &mut Steps<L>) -> u64
        requires some { k
            < rank_of self.now.bits (number_at self.now.first (B.words_of self.now.bank)) }
        requires short { IsShort self.now.bits
            (number_at self.now.first (B.words_of self.now.bank)) (k / 64) start }
        ensures place { result
            ≡ place_of self.now.bits (number_at self.now.first (B.words_of self.now.bank)) k }
        ensures counted { steps.old < steps.new }
        ensures cost { steps.new ≤ steps.old + 31 }
    {
        let from = (start / 64) as usize;
        let below = self.bank.word(self.first + from, steps) & ((1 << (start % 64)) - 1);
        let before = k / 64 * 64 - u64::from(below.count_ones());
        let to = (from + 30).min(self.bits.div_ceil(64) as usize);
        select_between(&self.bank, self.first, from, to, before, k, steps).place
    }

    /// The first one after `place`, where it is in the same word or in one of the three after.
    #[inline]
    fn next_near<L: Ledger>(&self, place: u64, steps: &mut Steps<L>) -> Option<u64>
        requires { place < self.now.bits }
        ensures one { IfSome result (λ p.
            bit_at (number_at self.now.first (B.words_of self.now.bank)) p ≡ 1) }
        ensures below { IfSome result (λ p.
            rank_of p (number_at self.now.first (B.words_of self.now.bank))
            ≡ rank_of (place + 1) (number_at self.now.first (B.words_of self.now.bank))) }
        ensures counted { steps.old < steps.new }
        ensures cost { steps.new ≤ steps.old + 4 }
    {
        let word = (place / 64) as usize;
        let rest = self.bank.word(self.first + word, steps) >> (place % 64) >> 1;
        if rest != 0 {
            return Some(place + 1 + u64::from(rest.trailing_zeros()));
        }
        let to = (word + 4).min(self.bits.div_ceil(64) as usize);
        next_between(&self.bank, self.first, word + 1, to, steps)
    }
}
