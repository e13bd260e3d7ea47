//! Dumps of kind `hollowdist`, with numbers that were computed elsewhere.

use crate::open_tests::{changed_in, failing, replied, shown};
use std::test::Fail;

/// The dump without keys, in blocks of 32.
const NONE: [u64; 24] = [
    0x3150_4D55_4458_5553,
    24,
    4,
    0,
    0,
    0,
    192,
    5,
    0,
    0,
    0,
    0,
    0,
    0,
    1,
    1,
    1,
    1,
    1,
    1,
    0,
    0,
    0,
    0,
];

/// The dump of the keys A, a, b, c and d, in blocks of two: a and c are its delimiters.
pub(crate) const PAIRS: [u64; 27] = [
    0x3150_4D55_4458_5553,
    27,
    4,
    0,
    5,
    0,
    192,
    1,
    0,
    0,
    1,
    5,
    0,
    12,
    0x220,
    2,
    2,
    5,
    2,
    7,
    0,
    17,
    2,
    6,
    1 << 58,
    12,
    0x8_0011,
];

/// The last words of the signatures of these keys under the seed 0.
const LAST_WORDS: [u64; 5] = [
    0x6588_3285_B592_333F,
    0xC64F_75B3_1843_23FF,
    0x5987_EA23_E098_0056,
    0x42A3_8ADE_B388_42BD,
    0x8DDD_F024_0C56_4A80,
];

/// The same dump, of whose signatures 64 bits are kept.
fn signed_pairs() -> [u64; 34] {
    let mut words = [0; 34];
    words[..27].copy_from_slice(&PAIRS);
    words[1] = 34;
    words[8] = 64;
    words[27] = 5;
    words[28] = 64;
    words[29..].copy_from_slice(&LAST_WORDS);
    words
}

/// The dump of the five keys with other cells of the function of the turns.
fn turning(cells: u64) -> [u64; 27] {
    let mut words = PAIRS;
    words[26] = cells;
    words
}

/// The same dump with other sums of the leaves to the left of its one inner node.
fn leaning(below: u64, upper: u64) -> [u64; 27] {
    let mut words = PAIRS;
    words[16] = below;
    words[17] = upper;
    words
}

#[test]
fn sections_without_keys_are_checked(rt: HostRuntime) -> Result<(), Fail> {
    let alloc = rt.alloc();
    assert_eq!(rt; failing(alloc, &NONE, 192), 0);
    assert_eq!(rt; changed_in(alloc, &NONE, 2, 6), 4);
    assert_eq!(rt; changed_in(alloc, &NONE, 3, 2), 5);
    assert_eq!(rt; changed_in(alloc, &NONE, 7, 13), 8);
    assert_eq!(rt; changed_in(alloc, &NONE, 9, 1), 10);
    assert_eq!(rt; changed_in(alloc, &NONE, 11, 1), 12);
    assert_eq!(rt; changed_in(alloc, &NONE, 14, 2), 12);
    assert_eq!(rt; changed_in(alloc, &NONE, 17, 2), 12);
    assert_eq!(rt; changed_in(alloc, &NONE, 21, 1), 12);
    let mut words = [0; 25];
    words[..24].copy_from_slice(&NONE);
    assert_eq!(rt; failing(alloc, &words, 200), 3);
    words[1] = 25;
    assert_eq!(rt; failing(alloc, &words, 200), 18);
    words[1] = 23;
    assert_eq!(rt; failing(alloc, &words[..23], 184), 11);
    Ok(())
}

#[test]
fn sections_are_checked(rt: HostRuntime) {
    let alloc = rt.alloc();
    assert_eq!(rt; failing(alloc, &PAIRS, 216), 0);
    // a block of one, and of four
    assert_eq!(rt; changed_in(alloc, &PAIRS, 7, 0), 12);
    assert_eq!(rt; changed_in(alloc, &PAIRS, 7, 2), 12);
    // the offsets
    assert_eq!(rt; changed_in(alloc, &PAIRS, 11, 6), 12);
    assert_eq!(rt; changed_in(alloc, &PAIRS, 10, 33), 13);
    assert_eq!(rt; changed_in(alloc, &PAIRS, 12, 1), 14);
    assert_eq!(rt; changed_in(alloc, &PAIRS, 14, 0x1220), 15);
    // the two lists
    assert_eq!(rt; changed_in(alloc, &PAIRS, 15, 1), 12);
    assert_eq!(rt; changed_in(alloc, &PAIRS, 17, 1), 16);
    assert_eq!(rt; changed_in(alloc, &PAIRS, 18, 3), 12);
    assert_eq!(rt; changed_in(alloc, &PAIRS, 20, 4), 15);
    assert_eq!(rt; changed_in(alloc, &PAIRS, 21, 16), 16);
    // the turns, of which there are at most as many as keys and delimiters
    assert_eq!(rt; changed_in(alloc, &PAIRS, 23, 8), 12);
    assert_eq!(rt; changed_in(alloc, &PAIRS, 23, 7), 0);
    assert_eq!(rt; changed_in(alloc, &PAIRS, 22, 33), 13);
    assert_eq!(rt; changed_in(alloc, &PAIRS, 25, 13), 14);
    assert_eq!(rt; changed_in(alloc, &PAIRS, 26, 1 << 24), 15);
}

#[test]
fn ranks_are_replied(rt: HostRuntime) {
    let alloc = rt.alloc();
    assert_eq!(rt; replied(alloc, &NONE, b"x"), -1);
    assert_eq!(rt; replied(alloc, &NONE, b""), -1);
    assert_eq!(rt; replied(alloc, &PAIRS, b"A"), 0);
    assert_eq!(rt; replied(alloc, &PAIRS, b"a"), 1);
    assert_eq!(rt; replied(alloc, &PAIRS, b"b"), 2);
    assert_eq!(rt; replied(alloc, &PAIRS, b"c"), 3);
    assert_eq!(rt; replied(alloc, &PAIRS, b"d"), 4);
    // strangers
    assert_eq!(rt; replied(alloc, &PAIRS, b"z"), 2);
    assert_eq!(rt; replied(alloc, &PAIRS, b"e"), 4);
    assert_eq!(rt; replied(alloc, &PAIRS, b"x"), -1);
    assert_eq!(rt; replied(alloc, &PAIRS, b""), -1);
}

#[test]
fn other_turns_reply(rt: HostRuntime) {
    let alloc = rt.alloc();
    // at the root all to the left of the delimiters
    assert_eq!(rt; replied(alloc, &turning(0x55_5555), b"b"), 0);
    assert_eq!(rt; replied(alloc, &turning(0x55_5555), b"c"), 1);
    // all to the right, where the last block has one key
    assert_eq!(rt; replied(alloc, &turning(0xAA_AAAA), b"b"), 4);
    assert_eq!(rt; replied(alloc, &turning(0xAA_AAAA), b"c"), -1);
    // none turns off, and none at the leaf, or a turn that there isn't
    assert_eq!(rt; replied(alloc, &turning(0), b"b"), -1);
    assert_eq!(rt; replied(alloc, &turning(0xFF_FFFF), b"b"), -1);
    // the left child has no leaf, or every leaf
    assert_eq!(rt; replied(alloc, &leaning(1, 3), b"b"), -1);
    assert_eq!(rt; replied(alloc, &leaning(3, 9), b"b"), -1);
}

#[test]
fn signed_ranks_are_replied(rt: HostRuntime) {
    let alloc = rt.alloc();
    let words = signed_pairs();
    assert_eq!(rt; replied(alloc, &words, b"A"), 0);
    assert_eq!(rt; replied(alloc, &words, b"a"), 1);
    assert_eq!(rt; replied(alloc, &words, b"b"), 2);
    assert_eq!(rt; replied(alloc, &words, b"c"), 3);
    assert_eq!(rt; replied(alloc, &words, b"d"), 4);
    // strangers to which the unsigned dump replies 2, 4 and none
    assert_eq!(rt; replied(alloc, &words, b"z"), -1);
    assert_eq!(rt; replied(alloc, &words, b"e"), -1);
    assert_eq!(rt; replied(alloc, &words, b""), -1);
}

#[test]
fn dumps_are_shown(rt: HostRuntime) -> Result<(), Fail> {
    let text =
        b"layout 1\nkind hollowdist\nmethod mwhc\nkeys 0\nseed 0\nsig-bits 192\nlog-bucket 5\nsigned 0\nhandle-bits 0\nfunction offsets width 0 pairs 0 chunks 1 cells 0\nchunk 0 segment 0 try 0\nsums left count 1 below 1\nitem 0 0\nsums skip count 1 below 1\nitem 0 0\nfunction turns width 0 pairs 0 chunks 1 cells 0\nchunk 0 segment 0 try 0\n".as_slice();
    let (out, failed) = shown(rt.alloc(), &NONE, 4096)?;
    assert!(rt; !failed);
    assert_eq!(rt; out.bytes(), text);
    Ok(())
}
