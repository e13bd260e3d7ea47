//! Blocks by literal words: where there are few delimiters, where a correction stands, and at the nodes
//! of three delimiters by functions that answer one place and one code to all strings.

ghost use Rattle.std.specs.Prelude.{◌≡◌, ◌<◌, ◌≤◌, length};

use crate::{Corrections, ZfastView, largest_in};
use std::marker::Brand;
use std::sync::ledger::{Blank, Ledger};
use std::test::Fail;
use sx_bits::BitView;
use sx_fields::bank::Words;
use sx_fields::packed::Packed;
use sx_sig::sign;
use sx_signed::SignedView;
use sx_spec::Signature;
use sx_static::{FuncView, function_check};
use sx_steps::Steps;

/// The words of the signature of the key a under the seed 0.
const A: [u64; 3] = [
    0xDAAB_2149_4F25_9E28,
    0x3F83_DFAC_080B_8640,
    0xC64F_75B3_1843_23FF,
];

/// The words of a signature that is none of a key of the tests.
const OTHER: [u64; 3] = [1, 2, 3];

/// The section of a function whose six cells are all the number, which it then answers.
fn always(number: u64) -> [u64; 10] {
    [64, 1, 0, 6, number, number, number, number, number, number]
}

/// The function whose section the words are.
fn function_in(words: &[u64]) -> Option<FuncView<Words<'_>>> {
    match function_check(words, 0, 0, 1, 0, 64) {
        Ok(section) => Some(FuncView::new(
            Words::new(words),
            section.body,
            section.width,
            section.count as u32,
        )),
        Err(_) => None,
    }
}

/// What stands beside the string at a place, a code and one correction: the trie of a, b and c, as far
/// as there are so many delimiters, and marks of no bits.
#[derive(Clone, Copy)]
struct Kept {
    delimiters: u64,
    place: u64,
    code: u64,
    corrected: [u64; 3],
    ghost few: { delimiters ≤ 3 },
}

fn block_counted<L: Ledger>(kept: Kept, line: &[u8], blank: Blank) -> Option<u64>
    requires name { blank.name ≡ L.name }
    requires parts { blank.parts ≡ L.parts }
    requires some { 0 < blank.parts }
    requires short { length line.now ≤ 8191 }
{
    let mut steps = Steps::<L>::new(blank);
    let nodes = kept.delimiters.saturating_sub(1) as usize;
    let marks = kept.delimiters.saturating_sub(2) as usize;
    // fields of three bits: 6 and 7, 0 and 1, 1 and 2, 3 and 3
    let extents = [0o76];
    let firsts = [0o10];
    let middles = [0o21];
    let afters = [0o33];
    let blocks = [9];
    let places = always(kept.place);
    let codes = always(kept.code);
    let map = SignedView::new(
        function_in(&places)?,
        Packed::new(Words::new(&blocks), 0, marks, 0),
    );
    let blocks = Packed::new(Words::new(&blocks), 0, 1, 4);
    let corrections = Corrections::new(Words::new(&kept.corrected), 0, 1, blocks);
    let extents = Packed::new(Words::new(&extents), 0, nodes, 3);
    let longest = largest_in(&extents);
    let view = ZfastView::new(
        kept.delimiters,
        extents,
        Packed::new(Words::new(&firsts), 0, nodes, 3),
        Packed::new(Words::new(&middles), 0, nodes, 3),
        Packed::new(Words::new(&afters), 0, nodes, 3),
        map,
        function_in(&codes)?,
        corrections,
        longest,
    );
    let bits = BitView::key_bits(line);
    let sig = sign(0, &bits, None, 192);
    view.block(&bits, &sig, 0, 192, &mut steps)
}

/// The block of a string at so many delimiters where one place and one code are answered and one
/// signature is corrected.
fn block(delimiters: u64, place: u64, code: u64, corrected: [u64; 3], line: &[u8]) -> Option<u64>
    requires few { delimiters ≤ 3 }
    requires short { length line.now ≤ 8191 }
{
    let kept = Kept {
        delimiters,
        place,
        code,
        corrected,
    };
    block_counted::<Brand>(kept, line, Blank::new(1))
}

#[test]
fn few_delimiters(rt: HostRuntime) {
    assert_eq!(rt; block(0, 0, 5, OTHER, b"a"), Some(0));
    assert_eq!(rt; block(1, 0, 0, OTHER, b"a"), Some(0));
    assert_eq!(rt; block(1, 0, 1, OTHER, b"a"), Some(1));
    assert_eq!(rt; block(1, 0, 4, OTHER, b"a"), Some(0));
    assert_eq!(rt; block(1, 0, 5, OTHER, b"a"), Some(1));
}

#[test]
fn corrections_stand_first(rt: HostRuntime) {
    assert_eq!(rt; block(0, 0, 0, A, b"a"), Some(9));
    assert_eq!(rt; block(1, 0, 0, A, b"a"), Some(9));
    assert_eq!(rt; block(3, 0, 0, A, b"a"), Some(9));
    assert_eq!(rt; block(3, 0, 4, A, b"a"), Some(9));
    assert_eq!(rt; block(3, 0, 0, A, b"b"), Some(1));
    assert_eq!(rt; block(3, 0, 4, A, b"b"), None);
    // only the last word differs, by one
    let beside = [A[0], A[1], A[2] - 1];
    assert_eq!(rt; block(3, 0, 0, beside, b"a"), Some(1));
}

#[test]
fn codes_name_ends_of_the_node_answered(rt: HostRuntime) {
    // each prefix of at most seven bits leads to node 1
    assert_eq!(rt; block(3, 0, 0, OTHER, b"b"), Some(1));
    assert_eq!(rt; block(3, 0, 1, OTHER, b"b"), Some(3));
    assert_eq!(rt; block(3, 0, 2, OTHER, b"b"), Some(1));
    assert_eq!(rt; block(3, 0, 3, OTHER, b"b"), Some(2));
    assert_eq!(rt; block(3, 0, 2, OTHER, b"c"), Some(2));
    assert_eq!(rt; block(3, 0, 3, OTHER, b"c"), Some(3));
    assert_eq!(rt; block(3, 0, 4, OTHER, b"b"), None);
    assert_eq!(rt; block(3, 0, u64::MAX, OTHER, b"b"), None);
}

#[test]
fn codes_name_ends_of_the_root(rt: HostRuntime) {
    // no mark stands at this place
    assert_eq!(rt; block(3, 1, 0, OTHER, b"a"), Some(0));
    assert_eq!(rt; block(3, 1, 1, OTHER, b"a"), Some(3));
    assert_eq!(rt; block(3, 1, 2, OTHER, b"a"), Some(0));
    assert_eq!(rt; block(3, 1, 3, OTHER, b"a"), Some(1));
    assert_eq!(rt; block(3, 1, 2, OTHER, b"b"), Some(1));
    assert_eq!(rt; block(3, 1, 3, OTHER, b"b"), Some(3));
    assert_eq!(rt; block(2, 0, 3, OTHER, b"b"), Some(3));
    assert_eq!(rt; block(3, 1, 4, OTHER, b"a"), None);
}

fn beside_counted<L: Ledger>(sig: &Signature, blank: Blank) -> Option<u64>
    requires name { blank.name ≡ L.name }
    requires parts { blank.parts ≡ L.parts }
    requires some { 0 < blank.parts }
{
    let mut steps = Steps::<L>::new(blank);
    // three signatures, of which each differs from the next in another word
    let words = [1, 2, 3, 1, 2, 5, 1, 3, 0];
    let blocks = [0x857];
    let blocks = Packed::new(Words::new(&blocks), 0, 3, 4);
    Corrections::new(Words::new(&words), 0, 3, blocks).lookup(sig, &mut steps)
}

/// What stands beside a signature.
fn beside(w0: u64, w1: u64, w2: u64) -> Option<u64> {
    beside_counted::<Brand>(&Signature { w0, w1, w2 }, Blank::new(1))
}

#[test]
fn blocks_stand_beside_their_signatures(rt: HostRuntime) {
    assert_eq!(rt; beside(1, 2, 3), Some(7));
    assert_eq!(rt; beside(1, 2, 5), Some(5));
    assert_eq!(rt; beside(1, 3, 0), Some(8));
    assert_eq!(rt; beside(1, 2, 2), None);
    assert_eq!(rt; beside(1, 2, 4), None);
    assert_eq!(rt; beside(1, 3, 1), None);
    assert_eq!(rt; beside(0, 2, 3), None);
    assert_eq!(rt; beside(2, 2, 3), None);
}
