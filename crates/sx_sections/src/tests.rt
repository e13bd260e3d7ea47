//! Small dumps of several kinds, and words that are none.
ghost use Rattle.std.specs.Prelude.{◌≡◌, ◌<◌, ◌^◌, length};

use crate::number::Check;
use crate::open::{Opened, open_offered, open_words};
use crate::place::Place;
use std::test::Fail;
use sx_spec::Kind;

const MAGIC: u64 = 0x3150_4D55_4458_5553;

/// The hollow trie of the keys a, b and c.
const HOLLOW: [u64; 17] = [MAGIC, 17, 3, 0, 3, 0, 192, 0, 0, 0, 3, 3, 21, 3, 7, 0, 49];

/// A function whose six cells are all 5.
const FIVES: [u64; 15] = [
    MAGIC,
    15,
    0,
    1,
    1,
    7,
    192,
    0,
    0,
    0,
    8,
    1,
    0,
    6,
    0x0505_0505_0505,
];

/// A signed dump of lcp2 of four keys in blocks of two, with a table of two lengths.
const LCP2: [u64; 35] = [
    MAGIC,
    35,
    2,
    0,
    4,
    0,
    192,
    1,
    8,
    0, // the front
    1,
    4,
    0,
    9,
    0, // offsets
    2,
    4,
    0,
    9,
    0, // codes
    2,
    3,
    53, // table
    0,
    0,
    0,
    0, // escaped
    1,
    2,
    0,
    6,
    0, // prefixes
    4,
    8,
    0xFF03_0201, // signatures
];

/// The hollow distributor of the keys a, b, c and d in blocks of one.
const HOLLOW_DIST: [u64; 26] = [
    MAGIC, 26, 4, 0, 4, 0, 192, 0, 0, 0, // the front
    0, 4, 0, 9, // offsets
    3, 3, 21, // left
    3, 7, 0, 49, // skip
    2, 6, 0, 12, 0xC4_4042, // turns
];

/// A z-fast dump of four keys in blocks of one, with two corrections.
const ZFAST: [u64; 48] = [
    MAGIC,
    48,
    5,
    0,
    4,
    9,
    192,
    0,
    0,
    32, // the front
    0,
    4,
    0,
    9, // offsets
    2,
    3,
    62, // extents
    2,
    1,
    2, // firsts
    2,
    2,
    9, // middles
    2,
    2,
    15, // afters
    0,
    1,
    0,
    6, // handles
    1,
    32,
    0x1234_5678, // marks
    2,
    4,
    0,
    9,
    0, // codes
    2,
    1,
    0,
    0,
    2,
    0,
    0, // corrections
    2,
    2,
    15, // blocks
];

/// The check that fails, or how many sections the dump has.
fn opened(words: &[u64]) -> Result<usize, u8>
    requires { length words.now < 2 ^ 27 }
{
    match open_words(words, 8 * words.len() as u64) {
        Ok(dump) => Ok(dump.places.len()),
        Err(check) => Err(check.number()),
    }
}

/// The same of the hollow trie with one word changed.
fn hollow_with(i: usize, word: u64) -> Result<usize, u8>
    requires { i < 17 }
{
    let mut words = HOLLOW;
    words[i] = word;
    opened(&words)
}

#[test]
fn dumps_are_opened(rt: HostRuntime) -> Result<(), Fail> {
    assert_eq!(rt; opened(&FIVES), Ok(1));
    assert_eq!(rt; opened(&HOLLOW), Ok(2));
    assert_eq!(rt; opened(&LCP2), Ok(6));
    assert_eq!(rt; opened(&HOLLOW_DIST), Ok(4));
    assert_eq!(rt; opened(&ZFAST), Ok(10));
    let empty = [MAGIC, 16, 3, 0, 0, 0, 192, 0, 0, 0, 1, 1, 1, 1, 1, 1];
    assert_eq!(rt; opened(&empty), Ok(2));
    let mut equal = ZFAST;
    equal[42] = 1;
    assert_eq!(rt; opened(&equal), Err(17));
    Ok(())
}

#[test]
fn checks_of_the_front(rt: HostRuntime) -> Result<(), Fail> {
    assert_eq!(rt; opened(&HOLLOW[..9]), Err(1));
    assert_eq!(rt; hollow_with(0, 0), Err(2));
    assert_eq!(rt; opened(&HOLLOW[..16]), Err(3));
    assert_eq!(rt; hollow_with(2, 6), Err(4));
    assert_eq!(rt; hollow_with(3, 1), Err(5));
    assert_eq!(rt; hollow_with(4, 1 << 32), Err(6));
    assert_eq!(rt; hollow_with(6, 193), Err(7));
    assert_eq!(rt; hollow_with(7, 1), Err(8));
    assert_eq!(rt; hollow_with(8, 65), Err(9));
    assert_eq!(rt; hollow_with(9, 1), Err(10));
    Ok(())
}

#[test]
fn checks_of_sections(rt: HostRuntime) -> Result<(), Fail> {
    assert_eq!(rt; hollow_with(4, 4), Err(12));
    assert_eq!(rt; hollow_with(8, 1), Err(11));
    assert_eq!(rt; hollow_with(11, 0), Err(16));
    assert_eq!(rt; hollow_with(12, 53), Err(15));
    assert_eq!(rt; hollow_with(12, 5), Err(16));
    let mut wide = ZFAST;
    wide[33] = 33;
    assert_eq!(rt; opened(&wide), Err(13));
    let mut broken = ZFAST;
    broken[13] = 8;
    assert_eq!(rt; opened(&broken), Err(14));
    Ok(())
}

/// As many pairs of turns as keys and delimiters pass, and the lists have a number for each
/// delimiter.
#[test]
fn checks_of_turns(rt: HostRuntime) -> Result<(), Fail> {
    let mut most = HOLLOW_DIST;
    most[22] = 7;
    assert_eq!(rt; opened(&most), Ok(4));
    most[22] = 8;
    assert_eq!(rt; opened(&most), Err(12));
    let mut few = HOLLOW_DIST;
    few[7] = 1;
    assert_eq!(rt; opened(&few), Err(12));
    Ok(())
}

#[test]
fn places_of_sections(rt: HostRuntime) -> Result<(), Fail> {
    match open_words(&HOLLOW, 136) {
        Ok(Opened { header, places }) => {
            assert_eq!(rt; header.keys, 3);
            match places.as_slice() {
                [Place::Sums(left), Place::Sums(skip)] => {
                    assert_eq!(rt;
                        (left.count, left.below, left.body, left.after),
                        (3, 3, 12, 13)
                    );
                    assert_eq!(rt;
                        (skip.count, skip.below, skip.body, skip.after),
                        (3, 7, 15, 17)
                    );
                }
                _ => assert!(rt; false, "two lists"),
            }
        }
        Err(check) => assert!(rt; false, "check {}", check.number()),
    }
    Ok(())
}

/// A part of all dumps: functions, and lcp2 unsigned.
#[test]
fn dumps_that_are_offered(rt: HostRuntime) -> Result<(), Fail> {
    let kinds = [Kind::Func, Kind::Lcp2];
    assert!(rt; open_offered(&FIVES, 120, &kinds, 0).is_ok());
    assert!(rt; open_offered(&LCP2, 280, &kinds, 8).is_ok());
    assert_eq!(rt;
        open_offered(&LCP2, 280, &kinds, 7).err(),
        Some(Check::Signed)
    );
    assert_eq!(rt;
        open_offered(&HOLLOW, 136, &kinds, 8).err(),
        Some(Check::Kind)
    );
    Ok(())
}
