//! Dumps of kind `zfast`, with numbers that were computed elsewhere.
ghost use Rattle.std.specs.Prelude.{◌<◌};

use crate::open_tests::{failing, replied};
use std::alloc::Global;

/// The dump without keys, in blocks of 32, with 8 bits of each handle.
const NONE: [u64; 35] = [
    0x3150_4D55_4458_5553,
    35,
    5,
    0,
    0,
    0,
    192,
    5,
    0,
    8,
    0,
    0,
    0,
    0,
    0,
    0,
    0,
    0,
    0,
    0,
    0,
    0,
    0,
    0,
    0,
    0,
    0,
    8,
    0,
    0,
    0,
    0,
    0,
    0,
    0,
];

/// The dump of the keys A, a and b, in blocks of two: a is its delimiter.
const PAIRS: [u64; 37] = [
    0x3150_4D55_4458_5553,
    37,
    5,
    0,
    3,
    0,
    192,
    1,
    0,
    8,
    1,
    3,
    1 << 58,
    9,
    8,
    0,
    0,
    0,
    0,
    0,
    0,
    0,
    0,
    0,
    0,
    0,
    0,
    0,
    8,
    1,
    3,
    1 << 58,
    9,
    4,
    0,
    0,
    0,
];

/// The dump of the keys a, b, c and d, in blocks of one, with 8 bits of its handle.
pub(crate) const LETTERS: [u64; 41] = [
    0x3150_4D55_4458_5553,
    41,
    5,
    0,
    4,
    0,
    192,
    0,
    0,
    8,
    0,
    4,
    0,
    9,
    2,
    3,
    0x3E,
    2,
    1,
    2,
    2,
    2,
    9,
    2,
    2,
    15,
    0,
    1,
    0,
    6,
    1,
    8,
    0x8D,
    2,
    4,
    0,
    9,
    0x3_C006,
    0,
    0,
    0,
];

/// The dump of the keys A, a, b, c and d, in blocks of one, with no bits of its two handles. They
/// mislead A and a, whose blocks are corrected.
pub(crate) const MISLED: [u64; 48] = [
    0x3150_4D55_4458_5553,
    48,
    5,
    0,
    5,
    0,
    192,
    0,
    0,
    0,
    0,
    5,
    0,
    12,
    3,
    3,
    0x1F2,
    3,
    2,
    0x24,
    3,
    2,
    0x39,
    3,
    3,
    0x124,
    1,
    2,
    0,
    6,
    1,
    2,
    0,
    2,
    5,
    0,
    12,
    24,
    2,
    0x9D90_B6BA_00B9_47CF,
    0xE335_DE5A_6D15_8B5A,
    0x6588_3285_B592_333F,
    0xDAAB_2149_4F25_9E28,
    0x3F83_DFAC_080B_8640,
    0xC64F_75B3_1843_23FF,
    2,
    1,
    2,
];

/// The first signature among its corrections.
const FIRST: [u64; 3] = [
    0x9D90_B6BA_00B9_47CF,
    0xE335_DE5A_6D15_8B5A,
    0x6588_3285_B592_333F,
];

/// The last words of the signatures of these five keys under the seed 0.
const LAST_WORDS: [u64; 5] = [
    0x6588_3285_B592_333F,
    0xC64F_75B3_1843_23FF,
    0x5987_EA23_E098_0056,
    0x42A3_8ADE_B388_42BD,
    0x8DDD_F024_0C56_4A80,
];

/// The number of the check that fails where word `i` of the dump with corrections is another.
fn changed(alloc: Global, i: usize, word: u64) -> u8
    requires { i < 48 }
{
    let mut words = MISLED;
    words[i] = word;
    failing(alloc, &words, 384)
}

/// The same where these are the words of the second signature.
fn second(alloc: Global, sig: &[u64; 3]) -> u8 {
    let mut words = MISLED;
    words[42..45].copy_from_slice(sig);
    failing(alloc, &words, 384)
}

/// The same dump without its corrections.
fn uncorrected() -> [u64; 41] {
    let mut words = [0; 41];
    words[..38].copy_from_slice(&MISLED[..38]);
    words[1] = 41;
    words
}

/// The same dump, of whose signatures 64 bits are kept.
fn signed_misled() -> [u64; 55] {
    let mut words = [0; 55];
    words[..48].copy_from_slice(&MISLED);
    words[1] = 55;
    words[8] = 64;
    words[48] = 5;
    words[49] = 64;
    words[50..].copy_from_slice(&LAST_WORDS);
    words
}

/// The dump of the four keys with another number at word `i`.
fn lettered(i: usize, word: u64) -> [u64; 41]
    requires { i < 41 }
{
    let mut words = LETTERS;
    words[i] = word;
    words
}

#[test]
fn sizes_are_checked(rt: HostRuntime) {
    let alloc = rt.alloc();
    assert_eq!(rt; failing(alloc, &NONE, 280), 0);
    assert_eq!(rt; failing(alloc, &PAIRS, 296), 0);
    assert_eq!(rt; failing(alloc, &LETTERS, 328), 0);
    assert_eq!(rt; failing(alloc, &MISLED, 384), 0);
    assert_eq!(rt; failing(alloc, &uncorrected(), 328), 0);
    assert_eq!(rt; failing(alloc, &signed_misled(), 440), 0);
    let mut words = [0; 49];
    words[..48].copy_from_slice(&MISLED);
    assert_eq!(rt; failing(alloc, &words, 392), 3);
    words[1] = 49;
    assert_eq!(rt; failing(alloc, &words, 392), 18);
    words[1] = 47;
    assert_eq!(rt; failing(alloc, &words[..47], 376), 11);
    words[1] = 45;
    assert_eq!(rt; failing(alloc, &words[..45], 360), 11);
    words[1] = 44;
    assert_eq!(rt; failing(alloc, &words[..44], 352), 11);
}

#[test]
fn headers_are_checked(rt: HostRuntime) {
    let alloc = rt.alloc();
    assert_eq!(rt; changed(alloc, 2, 6), 4);
    assert_eq!(rt; changed(alloc, 3, 1), 0);
    assert_eq!(rt; changed(alloc, 3, 2), 5);
    assert_eq!(rt; changed(alloc, 7, 13), 8);
    // blocks of two have one delimiter, and no inner node
    assert_eq!(rt; changed(alloc, 7, 1), 12);
    assert_eq!(rt; changed(alloc, 8, 8), 11);
    assert_eq!(rt; changed(alloc, 9, 65), 10);
    // the marks are exactly as wide as the header says
    assert_eq!(rt; changed(alloc, 9, 1), 13);
}

#[test]
fn functions_are_checked(rt: HostRuntime) {
    let alloc = rt.alloc();
    // the offsets
    assert_eq!(rt; changed(alloc, 11, 4), 12);
    assert_eq!(rt; changed(alloc, 10, 33), 13);
    assert_eq!(rt; changed(alloc, 12, 1), 14);
    // the handles
    assert_eq!(rt; changed(alloc, 27, 3), 12);
    assert_eq!(rt; changed(alloc, 26, 33), 13);
    assert_eq!(rt; changed(alloc, 29, 7), 14);
    assert_eq!(rt; changed(alloc, 30, 1 << 6), 15);
    // the codes
    assert_eq!(rt; changed(alloc, 34, 4), 12);
    assert_eq!(rt; changed(alloc, 33, 33), 13);
    assert_eq!(rt; changed(alloc, 36, 13), 14);
    assert_eq!(rt; changed(alloc, 37, 1 << 24), 15);
}

#[test]
fn lists_are_checked(rt: HostRuntime) {
    let alloc = rt.alloc();
    // the extents
    assert_eq!(rt; changed(alloc, 14, 2), 12);
    assert_eq!(rt; changed(alloc, 15, 33), 13);
    assert_eq!(rt; changed(alloc, 16, 1 << 9), 15);
    // the first leaves
    assert_eq!(rt; changed(alloc, 17, 2), 12);
    assert_eq!(rt; changed(alloc, 18, 33), 13);
    assert_eq!(rt; changed(alloc, 19, 1 << 6), 15);
    // those of the right children
    assert_eq!(rt; changed(alloc, 20, 2), 12);
    assert_eq!(rt; changed(alloc, 21, 33), 13);
    assert_eq!(rt; changed(alloc, 22, 1 << 6), 15);
    // those behind the last ones
    assert_eq!(rt; changed(alloc, 23, 2), 12);
    assert_eq!(rt; changed(alloc, 24, 33), 13);
    assert_eq!(rt; changed(alloc, 25, 1 << 9), 15);
    // the marks
    assert_eq!(rt; changed(alloc, 31, 1), 12);
    assert_eq!(rt; changed(alloc, 32, 1), 13);
}

#[test]
fn corrections_are_checked(rt: HostRuntime) {
    let alloc = rt.alloc();
    assert_eq!(rt; changed(alloc, 38, 6), 12);
    assert_eq!(rt; changed(alloc, 38, 5), 11);
    assert_eq!(rt; changed(alloc, 38, u64::MAX), 12);
    // they rise: by the first words, then the second, then the third
    assert_eq!(rt; second(alloc, &FIRST), 17);
    assert_eq!(rt;
        second(alloc, &[FIRST[0], FIRST[1], 0x6588_3285_B592_3340]),
        0
    );
    assert_eq!(rt;
        second(alloc, &[FIRST[0], FIRST[1], 0x6588_3285_B592_333E]),
        17
    );
    assert_eq!(rt; second(alloc, &[FIRST[0], 0xE335_DE5A_6D15_8B5B, 0]), 0);
    assert_eq!(rt;
        second(alloc, &[FIRST[0], 0xE335_DE5A_6D15_8B59, u64::MAX]),
        17
    );
    assert_eq!(rt; second(alloc, &[0x9D90_B6BA_00B9_47D0, 0, 0]), 0);
    assert_eq!(rt; changed(alloc, 39, u64::MAX), 17);
    // the blocks, as many as corrections
    assert_eq!(rt; changed(alloc, 45, 1), 12);
    assert_eq!(rt; changed(alloc, 45, 3), 12);
    assert_eq!(rt; changed(alloc, 46, 33), 13);
    assert_eq!(rt; changed(alloc, 47, 4), 15);
}

#[test]
fn ranks_are_replied(rt: HostRuntime) {
    let alloc = rt.alloc();
    assert_eq!(rt; replied(alloc, &NONE, b"x"), -1);
    assert_eq!(rt; replied(alloc, &NONE, b""), -1);
    assert_eq!(rt; replied(alloc, &PAIRS, b"A"), 0);
    assert_eq!(rt; replied(alloc, &PAIRS, b"a"), 1);
    assert_eq!(rt; replied(alloc, &PAIRS, b"b"), 2);
    assert_eq!(rt; replied(alloc, &LETTERS, b"a"), 0);
    assert_eq!(rt; replied(alloc, &LETTERS, b"b"), 1);
    assert_eq!(rt; replied(alloc, &LETTERS, b"c"), 2);
    assert_eq!(rt; replied(alloc, &LETTERS, b"d"), 3);
    // strangers
    assert_eq!(rt; replied(alloc, &LETTERS, b"A"), 0);
    assert_eq!(rt; replied(alloc, &LETTERS, b"x"), 3);
    assert_eq!(rt; replied(alloc, &LETTERS, b"B"), 1);
    assert_eq!(rt; replied(alloc, &LETTERS, b""), 0);
    // another mark, by which the handle of c isn't known
    assert_eq!(rt; replied(alloc, &lettered(32, 0x8C), b"c"), 1);
    // nodes whose extents are as long as the strings have no children for them
    let mut words = lettered(15, 6);
    words[16] = 0xFFF;
    assert_eq!(rt; replied(alloc, &words, b"c"), -1);
    assert_eq!(rt; replied(alloc, &words, b"d"), 3);
}

#[test]
fn other_codes_reply(rt: HostRuntime) {
    let alloc = rt.alloc();
    // the beginning of the node's leaves
    assert_eq!(rt; replied(alloc, &lettered(37, 0), b"c"), 1);
    assert_eq!(rt; replied(alloc, &lettered(37, 0), b"d"), 0);
    // their end
    assert_eq!(rt; replied(alloc, &lettered(37, 0x1_5555), b"a"), 3);
    // the beginning of the child's leaves, and their end
    assert_eq!(rt; replied(alloc, &lettered(37, 0x2_AAAA), b"d"), 0);
    assert_eq!(rt; replied(alloc, &lettered(37, 0x2_AAAA), b"z"), 1);
    assert_eq!(rt; replied(alloc, &lettered(37, 0x3_FFFF), b"a"), 1);
    assert_eq!(rt; replied(alloc, &lettered(37, 0x3_FFFF), b"c"), 3);
}

#[test]
fn corrections_reply(rt: HostRuntime) {
    let alloc = rt.alloc();
    assert_eq!(rt; replied(alloc, &MISLED, b"A"), 0);
    assert_eq!(rt; replied(alloc, &MISLED, b"a"), 1);
    assert_eq!(rt; replied(alloc, &MISLED, b"b"), 2);
    assert_eq!(rt; replied(alloc, &MISLED, b"c"), 3);
    assert_eq!(rt; replied(alloc, &MISLED, b"d"), 4);
    // strangers
    assert_eq!(rt; replied(alloc, &MISLED, b"x"), 1);
    assert_eq!(rt; replied(alloc, &MISLED, b"e"), 2);
    assert_eq!(rt; replied(alloc, &MISLED, b"aa"), 4);
    // without the corrections
    let words = uncorrected();
    assert_eq!(rt; replied(alloc, &words, b"A"), 3);
    assert_eq!(rt; replied(alloc, &words, b"a"), 3);
    assert_eq!(rt; replied(alloc, &words, b"b"), 2);
    // with the blocks of each other
    let mut words = MISLED;
    words[47] = 1;
    assert_eq!(rt; replied(alloc, &words, b"A"), 1);
    assert_eq!(rt; replied(alloc, &words, b"a"), 0);
}

#[test]
fn numbers_past_the_keys_reply(rt: HostRuntime) {
    let alloc = rt.alloc();
    // blocks of corrections that don't exist
    let mut words = MISLED;
    words[46] = 32;
    words[47] = u64::MAX;
    assert_eq!(rt; failing(alloc, &words, 384), 0);
    assert_eq!(rt; replied(alloc, &words, b"A"), -1);
    assert_eq!(rt; replied(alloc, &words, b"a"), -1);
    assert_eq!(rt; replied(alloc, &words, b"b"), 2);
    // nodes whose extents are longer than any line
    let mut words = lettered(15, 32);
    words[16] = u64::MAX;
    assert_eq!(rt; failing(alloc, &words, 328), 0);
    assert_eq!(rt; replied(alloc, &words, b"c"), -1);
    assert_eq!(rt; replied(alloc, &words, b"d"), 3);
    assert_eq!(rt; replied(alloc, &words, &[b'd'; 8191]), 3);
}

#[test]
fn signed_ranks_are_replied(rt: HostRuntime) {
    let alloc = rt.alloc();
    let words = signed_misled();
    assert_eq!(rt; replied(alloc, &words, b"A"), 0);
    assert_eq!(rt; replied(alloc, &words, b"a"), 1);
    assert_eq!(rt; replied(alloc, &words, b"b"), 2);
    assert_eq!(rt; replied(alloc, &words, b"c"), 3);
    assert_eq!(rt; replied(alloc, &words, b"d"), 4);
    // strangers to which the unsigned dump replies 1 and 2
    assert_eq!(rt; replied(alloc, &words, b"x"), -1);
    assert_eq!(rt; replied(alloc, &words, b"e"), -1);
}
