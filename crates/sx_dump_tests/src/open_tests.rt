//! Small dumps that are opened and shown, and files that are none.
ghost use Rattle.std.specs.Prelude.{◌≡◌, ◌<◌, ◌≤◌, length};
ghost use Rattle.std.specs.Int.{div_ceil};

use std::alloc::Global;
use std::marker::Brand;
use std::sync::ledger::{Blank, Ledger};
use std::test::Fail;
use sx_dump::{Dump, OpenFault, open_dump};
use sx_fields::bank::{WordBank, Words, WordsBuf};
use sx_memory::sink::MemSink;
use sx_sig::Kind;
use sx_steps::Steps;

/// The dump of a function without keys.
const EMPTY: [u64; 14] = [
    0x3150_4D55_4458_5553,
    14,
    0,
    0,
    0,
    0,
    192,
    0,
    0,
    0,
    0,
    0,
    0,
    0,
];

/// The dump of a function whose six cells are all 5.
pub(crate) const FIVES: [u64; 15] = [
    0x3150_4D55_4458_5553,
    15,
    0,
    1,
    1,
    7,
    192,
    0,
    0,
    0,
    8,
    1,
    0,
    6,
    0x0505_0505_0505,
];

/// The dump of kind `lcp` without keys.
const LCP: [u64; 18] = [
    0x3150_4D55_4458_5553,
    18,
    1,
    0,
    0,
    0,
    192,
    5,
    0,
    0,
    0,
    0,
    0,
    0,
    0,
    0,
    0,
    0,
];

/// The dump of kind `lcp2` without keys.
const LCP2: [u64; 28] = [
    0x3150_4D55_4458_5553,
    28,
    2,
    0,
    0,
    0,
    192,
    5,
    0,
    0,
    0,
    0,
    0,
    0,
    0,
    0,
    0,
    0,
    0,
    0,
    0,
    0,
    0,
    0,
    0,
    0,
    0,
    0,
];

/// The dump of kind `lcp` of the keys a, b, c and d, in blocks of two.
pub(crate) const LETTERS: [u64; 20] = [
    0x3150_4D55_4458_5553,
    20,
    1,
    0,
    4,
    0,
    192,
    1,
    0,
    0,
    4,
    4,
    0,
    9,
    0x1600_00DC,
    1,
    2,
    0,
    6,
    2,
];

/// The dump of kind `hollow` of the keys a, b and c.
pub(crate) const HOLLOW: [u64; 17] = [
    0x3150_4D55_4458_5553,
    17,
    3,
    0,
    3,
    0,
    192,
    0,
    0,
    0,
    3,
    3,
    21,
    3,
    7,
    0,
    49,
];

/// The number of the check that fails, 0 where the file is opened, or 255.
pub(crate) fn failing(alloc: Global, words: &[u64], bytes: u64) -> u8
    requires { length words.now ≡ div_ceil bytes 8 }
{
    match open_dump(alloc, words, bytes, Words::new(words)) {
        Ok(_) => 0,
        Err(OpenFault::Malformed { check }) => check,
        Err(OpenFault::Memory) => 255,
    }
}

/// The number of the check that fails where word `i` of a dump is another.
pub(crate) fn changed_in(alloc: Global, dump: &[u64], i: usize, word: u64) -> u8
    requires within { i < length dump.now }
    requires few { length dump.now ≤ 28 }
{
    let count = dump.len();
    let mut words = [0; 28];
    words[..count].copy_from_slice(dump);
    words[i] = word;
    failing(alloc, &words[..count], 8 * count as u64)
}

/// The same of the dump of a function without keys.
fn changed(alloc: Global, i: usize, word: u64) -> u8
    requires { i < 14 }
{
    changed_in(alloc, &EMPTY, i, word)
}

fn counted<B: WordBank + Copy, L: Ledger>(
    dump: &Dump<B, WordsBuf>,
    line: &[u8],
    blank: Blank,
) -> i128
    requires name { blank.name ≡ L.name }
    requires parts { blank.parts ≡ L.parts }
    requires some { 0 < blank.parts }
    requires short { length line.now ≤ 8191 }
{
    let mut steps = Steps::<L>::new(blank);
    dump.reply(line, &mut steps)
}

fn reply<B: WordBank + Copy>(dump: &Dump<B, WordsBuf>, line: &[u8]) -> i128
    requires { length line.now ≤ 8191 }
{
    counted::<B, Brand>(dump, line, Blank::new(1))
}

#[test]
fn headers_are_checked(rt: HostRuntime) -> Result<(), Fail> {
    let alloc = rt.alloc();
    assert_eq!(rt; failing(alloc, &EMPTY, 112), 0);
    assert_eq!(rt; failing(alloc, &EMPTY[..9], 72), 1);
    assert_eq!(rt; failing(alloc, &FIVES[..14], 111), 1);
    assert_eq!(rt; changed(alloc, 0, 0), 2);
    assert_eq!(rt; changed(alloc, 1, 15), 3);
    assert_eq!(rt; changed(alloc, 2, 5), 11);
    assert_eq!(rt; changed(alloc, 2, 6), 4);
    assert_eq!(rt; changed(alloc, 3, 2), 5);
    assert_eq!(rt; changed(alloc, 4, 1 << 32), 6);
    assert_eq!(rt; changed(alloc, 6, 193), 7);
    assert_eq!(rt; changed(alloc, 7, 1), 8);
    assert_eq!(rt; changed(alloc, 8, 65), 9);
    assert_eq!(rt; changed(alloc, 8, 8), 11);
    assert_eq!(rt; changed(alloc, 9, 1), 10);
    Ok(())
}

#[test]
fn sections_are_checked(rt: HostRuntime) -> Result<(), Fail> {
    let alloc = rt.alloc();
    assert_eq!(rt; changed(alloc, 11, 1), 12);
    assert_eq!(rt; changed(alloc, 10, 65), 13);
    assert_eq!(rt; changed(alloc, 13, 1), 14);
    let mut longer = [0; 15];
    longer[..14].copy_from_slice(&EMPTY);
    assert_eq!(rt; failing(alloc, &longer, 120), 3);
    longer[1] = 15;
    assert_eq!(rt; failing(alloc, &longer, 120), 18);
    Ok(())
}

#[test]
fn sections_of_distributors_are_checked(rt: HostRuntime) -> Result<(), Fail> {
    let alloc = rt.alloc();
    assert_eq!(rt; failing(alloc, &LETTERS, 160), 0);
    assert_eq!(rt; changed_in(alloc, &LETTERS, 7, 13), 8);
    assert_eq!(rt; changed_in(alloc, &LETTERS, 11, 5), 12);
    assert_eq!(rt; changed_in(alloc, &LETTERS, 10, 33), 13);
    assert_eq!(rt; changed_in(alloc, &LETTERS, 16, 3), 12);
    assert_eq!(rt; changed_in(alloc, &LETTERS, 15, 33), 13);
    assert_eq!(rt; failing(alloc, &LCP2, 224), 0);
    // offsets, codes, the table's count and width, escaped lengths, and prefixes
    assert_eq!(rt; changed_in(alloc, &LCP2, 11, 1), 12);
    assert_eq!(rt; changed_in(alloc, &LCP2, 15, 1), 12);
    assert_eq!(rt; changed_in(alloc, &LCP2, 18, 1), 12);
    assert_eq!(rt; changed_in(alloc, &LCP2, 19, 33), 13);
    assert_eq!(rt; changed_in(alloc, &LCP2, 21, 1), 12);
    assert_eq!(rt; changed_in(alloc, &LCP2, 25, 1), 12);
    Ok(())
}

#[test]
fn sections_of_hollow_tries_are_checked(rt: HostRuntime) -> Result<(), Fail> {
    let alloc = rt.alloc();
    assert_eq!(rt; failing(alloc, &HOLLOW, 136), 0);
    assert_eq!(rt; changed_in(alloc, &HOLLOW, 3, 1), 5);
    assert_eq!(rt; changed_in(alloc, &HOLLOW, 8, 1), 11);
    assert_eq!(rt; changed_in(alloc, &HOLLOW, 4, 4), 12);
    assert_eq!(rt; changed_in(alloc, &HOLLOW, 10, u64::MAX), 12);
    assert_eq!(rt; changed_in(alloc, &HOLLOW, 12, 53), 15);
    assert_eq!(rt; changed_in(alloc, &HOLLOW, 12, 5), 16);
    assert_eq!(rt; changed_in(alloc, &HOLLOW, 11, 0), 16);
    assert_eq!(rt; changed_in(alloc, &HOLLOW, 11, u64::MAX), 16);
    let mut words = [0; 18];
    words[..17].copy_from_slice(&HOLLOW);
    words[1] = 16;
    assert_eq!(rt; failing(alloc, &words[..16], 128), 11);
    words[1] = 18;
    assert_eq!(rt; failing(alloc, &words, 144), 18);
    Ok(())
}

/// The reply of a dump to a line, or -2 where the dump isn't opened.
pub(crate) fn replied(alloc: Global, words: &[u64], line: &[u8]) -> i128
    requires few { length words.now ≤ 55 }
    requires short { length line.now ≤ 8191 }
{
    match open_dump(alloc, words, 8 * words.len() as u64, Words::new(words)) {
        Ok(dump) => reply(&dump, line),
        Err(_) => -2,
    }
}

#[test]
fn distributors_reply(rt: HostRuntime) {
    let alloc = rt.alloc();
    assert_eq!(rt; replied(alloc, &LCP, b"x"), -1);
    assert_eq!(rt; replied(alloc, &LCP, b""), -1);
    assert_eq!(rt; replied(alloc, &LCP2, b"x"), -1);
    assert_eq!(rt; replied(alloc, &LCP2, b""), -1);
    assert_eq!(rt; replied(alloc, &LETTERS, b"a"), 0);
    assert_eq!(rt; replied(alloc, &LETTERS, b"b"), 1);
    assert_eq!(rt; replied(alloc, &LETTERS, b"c"), 2);
    assert_eq!(rt; replied(alloc, &LETTERS, b"d"), 3);
}

#[test]
fn hollow_tries_reply(rt: HostRuntime) {
    let alloc = rt.alloc();
    assert_eq!(rt; replied(alloc, &HOLLOW, b"a"), 0);
    assert_eq!(rt; replied(alloc, &HOLLOW, b"b"), 1);
    assert_eq!(rt; replied(alloc, &HOLLOW, b"c"), 2);
    assert_eq!(rt; replied(alloc, &HOLLOW, b"a\x00"), 0);
    assert_eq!(rt; replied(alloc, &HOLLOW, b"z"), 1);
    assert_eq!(rt; replied(alloc, &HOLLOW, b""), 0);
    let mut words = HOLLOW;
    words[12] = 19;
    assert_eq!(rt; replied(alloc, &words, b"a"), -1);
}

#[test]
fn dumps_reply(rt: HostRuntime) -> Result<(), Fail> {
    let alloc = rt.alloc();
    match open_dump(alloc, &EMPTY, 112, Words::new(&EMPTY)) {
        Ok(dump) => assert_eq!(rt; reply(&dump, b"a"), 0),
        Err(fault) => assert!(rt; false, "{fault}"),
    }
    match open_dump(alloc, &FIVES, 120, Words::new(&FIVES)) {
        Ok(dump) => {
            assert!(rt; dump.kind() == Kind::Func);
            assert_eq!(rt; (dump.keys(), dump.seed(), dump.words()), (1, 7, 15));
            assert_eq!(rt; reply(&dump, b"a"), 5);
        }
        Err(fault) => assert!(rt; false, "{fault}"),
    }
    Ok(())
}

/// A sink with so much room that a dump was shown to, and whether that failed.
pub(crate) fn shown(alloc: Global, words: &[u64], room: usize) -> Result<(MemSink, bool), Fail>
    requires { length words.now ≤ 42 }
{
    let mut out = MemSink::new(alloc, room, 100, Vec::new(alloc))?;
    let failed = match open_dump(alloc, words, 8 * words.len() as u64, Words::new(words)) {
        Ok(dump) => dump.show(&mut out).is_err(),
        Err(_) => true,
    };
    Ok((out, failed))
}

#[test]
fn dumps_are_shown(rt: HostRuntime) -> Result<(), Fail> {
    let text =
        b"layout 1\nkind func\nmethod mwhc\nkeys 0\nseed 0\nsig-bits 192\nlog-bucket 0\nsigned 0\nhandle-bits 0\nfunction values width 0 pairs 0 chunks 1 cells 0\nchunk 0 segment 0 try 0\n".as_slice();
    let (out, failed) = shown(rt.alloc(), &EMPTY, 4096)?;
    assert!(rt; !failed);
    assert_eq!(rt; out.bytes(), text);
    let (out, failed) = shown(rt.alloc(), &EMPTY, 10)?;
    assert!(rt; failed);
    assert_eq!(rt; out.bytes(), &text[..10]);
    Ok(())
}

#[test]
fn hollow_tries_are_shown(rt: HostRuntime) -> Result<(), Fail> {
    let text =
        b"layout 1\nkind hollow\nmethod mwhc\nkeys 3\nseed 0\nsig-bits 192\nlog-bucket 0\nsigned 0\nhandle-bits 0\nsums left count 3 below 3\nitem 0 0\nitem 1 1\nitem 2 2\nsums skip count 3 below 7\nitem 0 0\nitem 1 6\nitem 2 6\n".as_slice();
    let (out, failed) = shown(rt.alloc(), &HOLLOW, 4096)?;
    assert!(rt; !failed);
    assert_eq!(rt; out.bytes(), text);
    Ok(())
}
