//! Distributors over functions that answer one number to every string.
ghost use Rattle.std.specs.Prelude.{◌≡◌, ◌<◌, ◌≤◌, ◌^◌, length};

use crate::{Lcp2View, LcpView};
use std::marker::Brand;
use std::sync::ledger::{Blank, Ledger};
use std::test::Fail;
use sx_bits::BitView;
use sx_fields::bank::Words;
use sx_fields::packed::Packed;
use sx_sig::sign;
use sx_static::{FuncView, function_check};
use sx_steps::Steps;

/// The section of a function without keys, which answers 0.
const EMPTY: [u64; 4] = [0, 0, 0, 0];

/// The section of a function whose six cells are all the number, which it then answers.
fn always(number: u64) -> [u64; 10] {
    [64, 1, 0, 6, number, number, number, number, number, number]
}

/// The function whose section the words are.
fn function_in(words: &[u64]) -> Option<FuncView<Words<'_>>> {
    match function_check(words, 0, 0, 1, 0, 64) {
        Ok(section) => Some(FuncView::new(
            Words::new(words),
            section.body,
            section.width,
            section.count as u32,
        )),
        Err(_) => None,
    }
}

fn lcp_counted<L: Ledger>(
    lengths: &[u64],
    prefixes: &[u64],
    keys: u64,
    log_bucket: u32,
    line: &[u8],
    blank: Blank,
) -> Option<u64>
    requires name { blank.name ≡ L.name }
    requires parts { blank.parts ≡ L.parts }
    requires some { 0 < blank.parts }
    requires few { keys < 2 ^ 32 }
    requires bucket { log_bucket ≤ 12 }
    requires short { length line.now ≤ 8191 }
{
    let mut steps = Steps::<L>::new(blank);
    let view = LcpView::new(
        function_in(lengths)?,
        function_in(prefixes)?,
        keys,
        log_bucket,
    );
    let key = BitView::key_bits(line);
    view.answer(&key, &sign(7, &key, None, 192), 7, 192, &mut steps)
}

/// The reply to a line by the sections of the lengths and the prefixes.
fn lcp_reply(
    lengths: &[u64],
    prefixes: &[u64],
    keys: u64,
    log_bucket: u32,
    line: &[u8],
) -> Option<u64>
    requires few { keys < 2 ^ 32 }
    requires bucket { log_bucket ≤ 12 }
    requires short { length line.now ≤ 8191 }
{
    lcp_counted::<Brand>(lengths, prefixes, keys, log_bucket, line, Blank::new(1))
}

/// A string gets the place of its offset in the block of its prefix, where there is a key.
#[test]
fn one_number_gives_offset_and_length(rt: HostRuntime) -> Result<(), Fail> {
    assert_eq!(rt; lcp_reply(&EMPTY, &EMPTY, 1, 0, b""), Some(0));
    assert_eq!(rt; lcp_reply(&EMPTY, &EMPTY, 0, 0, b""), None);
    // offset 3 in block 2 of blocks of 4, for a string of 16 bits: by 16 bits of it, and by 17
    let block = always(2);
    assert_eq!(rt; lcp_reply(&always(67), &block, 12, 2, b"a"), Some(11));
    assert_eq!(rt; lcp_reply(&always(67), &block, 11, 2, b"a"), None);
    assert_eq!(rt; lcp_reply(&always(71), &block, 12, 2, b"a"), None);
    // a length of more than 32 bits, and a place of 2 to the power 64
    assert_eq!(rt; lcp_reply(&always(1 << 32), &EMPTY, 12, 0, b"a"), None);
    assert_eq!(rt; lcp_reply(&EMPTY, &always(1 << 52), 12, 12, b"a"), None);
    Ok(())
}

fn lcp2_counted<L: Ledger>(codes: &[u64], escaped: &[u64], blank: Blank) -> Option<u64>
    requires name { blank.name ≡ L.name }
    requires parts { blank.parts ≡ L.parts }
    requires some { 0 < blank.parts }
{
    let mut steps = Steps::<L>::new(blank);
    let table = [0x0011_1005];
    let offset = always(3);
    let block = always(2);
    let view = Lcp2View::new(
        function_in(&offset)?,
        function_in(codes)?,
        Packed::new(Words::new(&table), 0, 3, 8),
        function_in(escaped)?,
        function_in(&block)?,
        12,
        2,
    );
    let key = BitView::key_bits(b"a");
    view.answer(&key, &sign(7, &key, None, 192), 7, 192, &mut steps)
}

/// The reply to a string of 16 bits with this code and this escaped length, where the codes 0, 1
/// and 2 stand for 5, 16 and 17 bits.
fn lcp2_reply(code: u64, escaped: u64) -> Option<u64> {
    lcp2_counted::<Brand>(&always(code), &always(escaped), Blank::new(1))
}

/// A code below the table's length stands for a length of the table, and any other for the
/// escaped length.
#[test]
fn codes_give_lengths(rt: HostRuntime) -> Result<(), Fail> {
    assert_eq!(rt; lcp2_reply(0, 17), Some(11));
    assert_eq!(rt; lcp2_reply(1, 17), Some(11));
    assert_eq!(rt; lcp2_reply(2, 16), None);
    assert_eq!(rt; lcp2_reply(3, 16), Some(11));
    assert_eq!(rt; lcp2_reply(3, 17), None);
    assert_eq!(rt; lcp2_reply(u64::MAX, 0), Some(11));
    Ok(())
}
