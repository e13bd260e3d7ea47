//! Dumps that are cut off, and dumps of which one word is another: what is opened and what is
//! refused, with numbers that were computed elsewhere.
ghost use Rattle.std.specs.Prelude.{◌<◌, ◌≤◌, length};

use crate::hollow_dist_tests::PAIRS;
use crate::open_tests::{FIVES, HOLLOW, LETTERS as PREFIXED, failing};
use crate::reads_tests::{CODES, counted};
use crate::zfast_tests::{LETTERS, MISLED};
use std::alloc::Global;
use std::process::Abort;

/// Lines that a changed dump is asked. The longest have 24 bits.
const LINES: [&[u8]; 5] = [b"", b"a", b"c", b"zz", b"\xFF\xFF"];

/// How many changes of a dump are opened, and behind that how many each check refuses.
type Counts = [u32; 19];

/// A small dump, and what its changes come to.
#[derive(Clone, Copy)]
struct Changes {
    dump: &'static [u64],
    /// The most reads of a reply to one of the lines.
    most: u64,
    counts: Counts,
    /// The check that refuses it where a word behind the header is 2^64 - 1, or 0, for each word.
    greatest: &'static [u8],
}

/// The dump of each kind, each word of which is set to 0 and to 2^64 - 1, and raised and lowered
/// by 1.
const CHANGES: [Changes; 6] = [
    Changes {
        dump: &FIVES,
        most: 8,
        counts: [17, 0, 4, 4, 2, 2, 1, 2, 3, 2, 3, 2, 7, 1, 6, 2, 0, 0, 2],
        greatest: &[13, 12, 14, 14, 15],
    },
    Changes {
        dump: &PREFIXED,
        most: 16,
        counts: [20, 0, 4, 4, 1, 2, 1, 2, 3, 2, 3, 1, 17, 2, 12, 3, 0, 0, 3],
        greatest: &[13, 12, 14, 14, 15, 13, 12, 14, 14, 15],
    },
    Changes {
        dump: &CODES,
        most: 34,
        counts: [36, 0, 4, 4, 1, 2, 1, 2, 3, 2, 3, 1, 27, 8, 24, 7, 0, 0, 3],
        greatest: &[
            13, 12, 14, 14, 15, 13, 12, 14, 14, 15, 12, 13, 15, 13, 12, 14, 14, 13, 12, 14, 14, 15,
        ],
    },
    Changes {
        dump: &HOLLOW,
        most: 162 * 24,
        counts: [11, 0, 4, 4, 1, 3, 1, 2, 3, 2, 3, 2, 11, 0, 3, 6, 12, 0, 0],
        greatest: &[12, 16, 15, 12, 11, 15, 15],
    },
    Changes {
        dump: &PAIRS,
        most: 170 * 24 + 24,
        counts: [24, 0, 4, 4, 1, 2, 1, 2, 3, 2, 3, 1, 23, 2, 13, 10, 12, 0, 1],
        greatest: &[
            13, 12, 14, 14, 15, 12, 16, 15, 12, 16, 15, 15, 13, 12, 14, 14, 15,
        ],
    },
    // 24 bits have five binary digits; of its numbers of corrections only 2 passes
    Changes {
        dump: &MISLED,
        most: 12 * 5 + 3 * 2 + 32,
        counts: [68, 0, 4, 4, 2, 2, 1, 2, 2, 2, 2, 1, 53, 14, 18, 11, 0, 3, 3],
        greatest: &[
            13, 12, 14, 14, 12, 13, 15, 12, 13, 15, 12, 13, 15, 12, 13, 15, 13, 12, 14, 14, 15, 12,
            13, 13, 12, 14, 14, 15, 12, 17, 0, 0, 0, 0, 0, 12, 13, 15,
        ],
    },
];

/// The check that refuses a dump of each kind where a word of its header is 2^64 - 1. Any seed
/// passes.
const HEADERS: [u8; 10] = [2, 3, 4, 5, 6, 0, 7, 8, 9, 10];

/// The number of the check that fails where the dump of the four keys is cut to so many bytes.
fn cut(alloc: Global, bytes: u64) -> u8
    requires { bytes ≤ 328 }
{
    failing(alloc, &LETTERS[..bytes.div_ceil(8) as usize], bytes)
}

/// The same of so many words, where word 1 tells their number.
fn mended(alloc: Global, count: usize) -> u8
    requires { count ≤ 41 }
{
    let mut words = LETTERS;
    words[1] = count as u64;
    failing(alloc, &words[..count], 8 * count as u64)
}

/// The words of a dump, of which word `i` is another. Behind them stand zeros.
fn with_word(dump: &[u64], i: usize, word: u64) -> [u64; 48]
    requires within { i < length dump.now }
    requires few { length dump.now ≤ 48 }
{
    let mut words = [0; 48];
    words[..dump.len()].copy_from_slice(dump);
    words[i] = word;
    words
}

/// The number of the check that fails where word `i` of a dump is 2^64 - 1.
fn filled(alloc: Global, dump: &[u64], i: usize) -> u8
    requires within { i < length dump.now }
    requires few { length dump.now ≤ 48 }
{
    let count = dump.len();
    failing(
        alloc,
        &with_word(dump, i, u64::MAX)[..count],
        8 * count as u64,
    )
}

/// Whether the dump in these words is opened, and replies -1 or a number of 64 bits to each line,
/// in so many reads at most.
fn replies_within(alloc: Global, words: &[u64], most: u64) -> bool
    requires { length words.now ≤ 48 }
{
    for line in LINES {
        match counted(alloc, words, &line[..line.len().min(2)]) {
            Some((reply, reads)) => {
                if reply < -1 || reply > i128::from(u64::MAX) || reads > most {
                    return false;
                }
            }
            None => return false,
        }
    }
    true
}

/// What the changes of a dump come to. Each that is opened replies within its reads.
fn counts_of(rt: &impl Abort, alloc: Global, dump: &[u64], most: u64) -> Counts
    requires { length dump.now ≤ 48 }
{
    let mut counts = [0u32; 19];
    let count = dump.len();
    for i in 0..count {
        let old = dump[i];
        for word in [0, u64::MAX, old.wrapping_add(1), old.wrapping_sub(1)] {
            let changed = with_word(dump, i, word);
            let words = &changed[..count];
            let check = failing(alloc, words, 8 * count as u64);
            assert!(rt; check <= 18, "word {i}");
            assert!(rt; check > 0 || replies_within(alloc, words, most), "word {i}");
            counts[check as usize] = counts[check as usize].saturating_add(1);
        }
    }
    counts
}

#[test]
fn cut_files_are_refused(rt: HostRuntime) {
    for bytes in 0..328u64 {
        let check = if bytes % 8 == 0 && bytes >= 80 { 3 } else { 1 };
        assert_eq!(rt; cut(rt.alloc(), bytes), check, "{bytes} bytes");
    }
    assert_eq!(rt; cut(rt.alloc(), 328), 0);
}

#[test]
fn cut_dumps_are_refused(rt: HostRuntime) {
    for count in 10..41usize {
        assert_eq!(rt; mended(rt.alloc(), count), 11, "{count} words");
    }
    assert_eq!(rt; mended(rt.alloc(), 41), 0);
}

#[test]
fn changed_dumps_are_refused_or_reply(rt: HostRuntime) {
    for changes in CHANGES {
        let dump = changes.dump;
        assert!(rt; dump.len() <= 48);
        let counts = counts_of(&rt, rt.alloc(), dump, changes.most);
        assert_eq!(rt; counts, changes.counts);
    }
}

#[test]
fn the_greatest_words_are_refused(rt: HostRuntime) {
    for changes in CHANGES {
        let dump = changes.dump;
        assert!(rt; dump.len() <= 48);
        assert_eq!(rt; dump.len(), HEADERS.len() + changes.greatest.len());
        for (i, check) in HEADERS.iter().enumerate() {
            assert!(rt; i < dump.len());
            assert_eq!(rt; filled(rt.alloc(), dump, i), *check, "word {i}");
        }
        for (i, check) in changes.greatest.iter().enumerate() {
            assert_eq!(rt;
                filled(rt.alloc(), dump, 10 + i),
                *check,
                "word {i} behind the header"
            );
        }
    }
}
