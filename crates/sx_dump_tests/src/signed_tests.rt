//! Signed dumps, with numbers of digests that were computed elsewhere.

use crate::open_tests::{FIVES, HOLLOW, LETTERS, changed_in, failing, replied, shown};
use std::test::Fail;

/// The last words of the signatures of the keys a, b, c and d under the seed 0.
const LAST_WORDS: [u64; 4] = [
    0xC64F_75B3_1843_23FF,
    0x5987_EA23_E098_0056,
    0x42A3_8ADE_B388_42BD,
    0x8DDD_F024_0C56_4A80,
];

/// The dump of kind `hollow` of the keys a, b and c, of whose signatures 64 bits are kept.
fn hollow_64() -> [u64; 22] {
    let mut words = [0; 22];
    words[..17].copy_from_slice(&HOLLOW);
    words[1] = 22;
    words[8] = 64;
    words[17] = 3;
    words[18] = 64;
    words[19..].copy_from_slice(&LAST_WORDS[..3]);
    words
}

/// The same dump, with four bits of each signature.
fn hollow_4() -> [u64; 20] {
    let mut words = [0; 20];
    words[..17].copy_from_slice(&HOLLOW);
    words[1] = 20;
    words[8] = 4;
    words[17..].copy_from_slice(&[3, 4, 0x45C]);
    words
}

#[test]
fn signed_hollow_tries_reply(rt: HostRuntime) {
    let alloc = rt.alloc();
    let words = hollow_64();
    assert_eq!(rt; replied(alloc, &words, b"a"), 0);
    assert_eq!(rt; replied(alloc, &words, b"b"), 1);
    assert_eq!(rt; replied(alloc, &words, b"c"), 2);
    // strangers to which the unsigned dump replies 0, 1 and 0
    assert_eq!(rt; replied(alloc, &words, b"a\x00"), -1);
    assert_eq!(rt; replied(alloc, &words, b"z"), -1);
    assert_eq!(rt; replied(alloc, &words, b""), -1);
    let words = hollow_4();
    assert_eq!(rt; replied(alloc, &words, b"a"), 0);
    assert_eq!(rt; replied(alloc, &words, b"b"), 1);
    assert_eq!(rt; replied(alloc, &words, b"c"), 2);
    assert_eq!(rt; replied(alloc, &words, b"z"), -1);
}

#[test]
fn signed_distributors_reply(rt: HostRuntime) {
    let alloc = rt.alloc();
    let mut words = [0; 26];
    words[..20].copy_from_slice(&LETTERS);
    words[1] = 26;
    words[8] = 64;
    words[20] = 4;
    words[21] = 64;
    words[22..].copy_from_slice(&LAST_WORDS);
    assert_eq!(rt; replied(alloc, &words, b"a"), 0);
    assert_eq!(rt; replied(alloc, &words, b"b"), 1);
    assert_eq!(rt; replied(alloc, &words, b"c"), 2);
    assert_eq!(rt; replied(alloc, &words, b"d"), 3);
    assert_eq!(rt; replied(alloc, &words, b"z"), -1);
    // another number is kept of c
    words[24] = LAST_WORDS[3];
    assert_eq!(rt; replied(alloc, &words, b"c"), -1);
}

#[test]
fn signed_functions_reply(rt: HostRuntime) {
    let alloc = rt.alloc();
    // a function of one key that answers 5 to each line, and so no place of the one that is kept
    let mut words = [0; 18];
    words[..15].copy_from_slice(&FIVES);
    words[1] = 18;
    words[8] = 64;
    words[15..].copy_from_slice(&[1, 64, 0x2731_8439_CBA5_4A67]);
    assert_eq!(rt; replied(alloc, &words, b"a"), -1);
    // one that answers 0, which is the place of a
    words[14] = 0;
    assert_eq!(rt; replied(alloc, &words, b"a"), 0);
    assert_eq!(rt; replied(alloc, &words, b"b"), -1);
}

#[test]
fn kept_numbers_are_checked(rt: HostRuntime) {
    let alloc = rt.alloc();
    let words = hollow_64();
    assert_eq!(rt; failing(alloc, &words, 176), 0);
    assert_eq!(rt; changed_in(alloc, &words, 8, 65), 9);
    assert_eq!(rt; changed_in(alloc, &words, 8, 63), 13);
    assert_eq!(rt; changed_in(alloc, &words, 8, 0), 18);
    assert_eq!(rt; changed_in(alloc, &words, 17, 2), 12);
    assert_eq!(rt; changed_in(alloc, &words, 17, 4), 12);
    assert_eq!(rt; changed_in(alloc, &words, 18, 63), 13);
    let words = hollow_4();
    assert_eq!(rt; failing(alloc, &words, 160), 0);
    assert_eq!(rt; changed_in(alloc, &words, 19, 0x145C), 15);
    assert_eq!(rt; changed_in(alloc, &words, 19, 0xF5C), 0);
    assert_eq!(rt; changed_in(alloc, &HOLLOW, 8, 1), 11);
}

#[test]
fn kept_numbers_are_shown(rt: HostRuntime) -> Result<(), Fail> {
    let text =
        b"layout 1\nkind hollow\nmethod mwhc\nkeys 3\nseed 0\nsig-bits 192\nlog-bucket 0\nsigned 4\nhandle-bits 0\nsums left count 3 below 3\nitem 0 0\nitem 1 1\nitem 2 2\nsums skip count 3 below 7\nitem 0 0\nitem 1 6\nitem 2 6\nlist signatures count 3 width 4\nitem 0 12\nitem 1 5\nitem 2 4\n".as_slice();
    let (out, failed) = shown(rt.alloc(), &hollow_4(), 4096)?;
    assert!(rt; !failed);
    assert_eq!(rt; out.bytes(), text);
    Ok(())
}
