//! How many words a reply reads, counted by the bank itself.
ghost use Rattle.std.specs.Prelude.{◌≡◌, ◌<◌, ◌≤◌, length};

use crate::hollow_dist_tests::PAIRS;
use crate::open_tests::{FIVES, HOLLOW, LETTERS};
use crate::zfast_tests::MISLED;
use std::alloc::Global;
use std::cell::Cell;
use std::marker::Brand;
use std::sync::ledger::{Blank, Ledger};
use sx_dump::{Dump, open_dump};
use sx_fields::bank::{WordBank, Words, WordsBuf};
use sx_steps::Steps;

/// The dump of kind `lcp2` of the keys a, b, c and d, in blocks of two.
pub(crate) const CODES: [u64; 32] = [
    0x3150_4D55_4458_5553,
    32,
    2,
    0,
    4,
    0,
    192,
    1,
    0,
    0,
    1,
    4,
    0,
    9,
    0x82,
    2,
    4,
    0,
    9,
    0x1_4000,
    2,
    3,
    53,
    0,
    0,
    0,
    0,
    1,
    2,
    0,
    6,
    2,
];

/// A list of words that counts the reads itself, whatever the steps say.
#[derive(Drop)]
struct Counting<'a> {
    words: Words<'a>,
    reads: Cell<u64>,
}

impl WordBank for Counting<'_> {
    ghost words_of = { λ b. b.words.words.now };

    fn words(&self) -> usize {
        self.words.words()
    }

    fn word<L: Ledger>(&self, i: usize, steps: &mut Steps<L>) -> u64 {
        self.reads.set(self.reads.get().wrapping_add(1));
        self.words.word(i, steps)
    }
}

/// The reply of a dump to a line, under a fresh count of steps.
fn reply_under<B: WordBank + Copy, L: Ledger>(
    dump: &Dump<B, WordsBuf>,
    line: &[u8],
    blank: Blank,
) -> i128
    requires name { blank.name ≡ L.name }
    requires parts { blank.parts ≡ L.parts }
    requires some { 0 < blank.parts }
    requires short { length line.now ≤ 8191 }
{
    let mut steps = Steps::<L>::new(blank);
    dump.reply(line, &mut steps)
}

/// The reply of a dump to a line, and how many words it read of the bank, where the dump is opened.
fn counted_in(alloc: Global, words: &[u64], bank: &Counting<'_>, line: &[u8]) -> Option<(i128, u64)>
    requires bank { bank.now.words.words.now ≡ words.now }
    requires few { length words.now ≤ 64 }
    requires short { length line.now ≤ 8191 }
{
    match open_dump(alloc, words, 8 * words.len() as u64, bank) {
        Ok(dump) => {
            let before = bank.reads.get();
            let reply = reply_under::<&Counting<'_>, Brand>(&dump, line, Blank::new(1));
            Some((reply, bank.reads.get().wrapping_sub(before)))
        }
        Err(_) => None,
    }
}

/// The same of words alone.
pub(crate) fn counted(alloc: Global, words: &[u64], line: &[u8]) -> Option<(i128, u64)>
    requires few { length words.now ≤ 64 }
    requires short { length line.now ≤ 8191 }
{
    let bank = Counting {
        words: Words::new(words),
        reads: Cell::new(0),
    };
    counted_in(alloc, words, &bank, line)
}

/// Whether a key is replied its number, in one read of a word or more, and at most so many.
fn within(alloc: Global, words: &[u64], line: &[u8], number: i128, most: u64) -> bool
    requires few { length words.now ≤ 64 }
    requires short { length line.now ≤ 8191 }
{
    match counted(alloc, words, line) {
        Some((reply, reads)) => reply == number && 1 <= reads && reads <= most,
        None => false,
    }
}

#[test]
fn functions_read(rt: HostRuntime) {
    assert!(rt; within(rt.alloc(), &FIVES, b"a", 5, 8));
}

#[test]
fn distributors_read(rt: HostRuntime) {
    let alloc = rt.alloc();
    assert!(rt; within(alloc, &LETTERS, b"a", 0, 16));
    assert!(rt; within(alloc, &LETTERS, b"b", 1, 16));
    assert!(rt; within(alloc, &LETTERS, b"c", 2, 16));
    assert!(rt; within(alloc, &LETTERS, b"d", 3, 16));
}

#[test]
fn distributors_by_codes_read(rt: HostRuntime) {
    let alloc = rt.alloc();
    assert!(rt; within(alloc, &CODES, b"a", 0, 34));
    assert!(rt; within(alloc, &CODES, b"b", 1, 34));
    assert!(rt; within(alloc, &CODES, b"c", 2, 34));
    assert!(rt; within(alloc, &CODES, b"d", 3, 34));
}

#[test]
fn hollow_tries_read(rt: HostRuntime) {
    let alloc = rt.alloc();
    // a key of one byte has 16 bits, and 162 words are read for each at most
    assert!(rt; within(alloc, &HOLLOW, b"a", 0, 2592));
    assert!(rt; within(alloc, &HOLLOW, b"b", 1, 2592));
    assert!(rt; within(alloc, &HOLLOW, b"c", 2, 2592));
}

#[test]
fn hollow_distributors_read(rt: HostRuntime) {
    let alloc = rt.alloc();
    // 170 words for each of 16 bits, and 24
    assert!(rt; within(alloc, &PAIRS, b"A", 0, 2744));
    assert!(rt; within(alloc, &PAIRS, b"a", 1, 2744));
    assert!(rt; within(alloc, &PAIRS, b"b", 2, 2744));
    assert!(rt; within(alloc, &PAIRS, b"c", 3, 2744));
    assert!(rt; within(alloc, &PAIRS, b"d", 4, 2744));
}

#[test]
fn fat_searches_read(rt: HostRuntime) {
    let alloc = rt.alloc();
    // 16 bits have five binary digits, the two corrections two: 12 words, 3 words, and 32
    assert!(rt; within(alloc, &MISLED, b"A", 0, 98));
    assert!(rt; within(alloc, &MISLED, b"a", 1, 98));
    assert!(rt; within(alloc, &MISLED, b"b", 2, 98));
    assert!(rt; within(alloc, &MISLED, b"c", 3, 98));
    assert!(rt; within(alloc, &MISLED, b"d", 4, 98));
}
