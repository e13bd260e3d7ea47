//! Numbers that are kept of a few signatures, and what is answered beside them.
ghost use Rattle.std.specs.Prelude.{◌≡◌, ◌<◌, ◌≤◌, length};

use crate::{SignedView, agrees, keep};
use std::alloc::{AllocError, Global};
use std::marker::Brand;
use std::sync::ledger::{Blank, Ledger};
use std::test::Fail;
use sx_fields::bank::Words;
use sx_fields::packed::Packed;
use sx_fields::packed_buf::PackedBuf;
use sx_spec::Signature;
use sx_static::{FuncView, function_check};
use sx_steps::Steps;

/// The signature of the key a under the seed 0.
const A: Signature = Signature {
    w0: 0xDAAB_2149_4F25_9E28,
    w1: 0x3F83_DFAC_080B_8640,
    w2: 0xC64F_75B3_1843_23FF,
};

/// A signature with this last word.
fn ending(w2: u64) -> Signature {
    Signature { w0: 1, w1: 2, w2 }
}

/// What is kept of three signatures at the places 2, 0 and 1.
fn kept_of_three(alloc: Global, width: u32) -> Result<PackedBuf, AllocError>
    requires { width ≤ 64 }
{
    let sigs = [ending(1 << 63), ending(3), A];
    keep(alloc, &sigs, &[2, 0, 1], width)
}

#[test]
fn highest_bits_are_kept_at_the_places(rt: HostRuntime) -> Result<(), Fail> {
    let list = kept_of_three(rt.alloc(), 64)?;
    assert_eq!(rt;
        list.words(),
        [3, 0xC64F_75B3_1843_23FF, 1 << 63].as_slice()
    );
    let list = kept_of_three(rt.alloc(), 8)?;
    assert_eq!(rt; list.words(), [0x80_C600].as_slice());
    let list = kept_of_three(rt.alloc(), 1)?;
    assert_eq!(rt; list.words(), [6].as_slice());
    let list = kept_of_three(rt.alloc(), 0)?;
    assert_eq!(rt; list.words().len(), 0);
    Ok(())
}

/// The section of a function whose six cells are all the number, which it then answers.
fn always(number: u64) -> [u64; 10] {
    [64, 1, 0, 6, number, number, number, number, number, number]
}

/// The function whose section the words are.
fn function_in(words: &[u64]) -> Option<FuncView<Words<'_>>> {
    match function_check(words, 0, 0, 1, 0, 64) {
        Ok(section) => Some(FuncView::new(
            Words::new(words),
            section.body,
            section.width,
            section.count as u32,
        )),
        Err(_) => None,
    }
}

fn found_counted<L: Ledger>(function: &[u64], blank: Blank) -> Option<u64>
    requires name { blank.name ≡ L.name }
    requires parts { blank.parts ≡ L.parts }
    requires some { 0 < blank.parts }
{
    let mut steps = Steps::<L>::new(blank);
    // 8 bits are kept at each of three places: the last ones of the signature, others, and the first ones
    let kept = [0xC6_11FF];
    let kept = Packed::new(Words::new(&kept), 0, 3, 8);
    SignedView::new(function_in(function)?, kept).lookup(&A, &mut steps)
}

/// What is found for the signature where the function answers this place.
fn found(place: u64) -> Option<u64> {
    found_counted::<Brand>(&always(place), Blank::new(1))
}

#[test]
fn places_are_answered_where_the_number_is_kept(rt: HostRuntime) {
    assert_eq!(rt; found(0), None);
    assert_eq!(rt; found(1), None);
    assert_eq!(rt; found(2), Some(2));
    assert_eq!(rt; found(3), None);
    assert_eq!(rt; found(u64::MAX), None);
}

fn agrees_counted<L: Ledger>(word: u64, width: u32, sig: &Signature, blank: Blank) -> bool
    requires name { blank.name ≡ L.name }
    requires parts { blank.parts ≡ L.parts }
    requires some { 0 < blank.parts }
    requires narrow { width ≤ 64 }
{
    let mut steps = Steps::<L>::new(blank);
    let words = [word];
    let kept = Packed::new(Words::new(&words), 0, 1, width);
    agrees(&kept, 0, sig, &mut steps)
}

/// Whether the number in a word, of so many bits, is that of a signature with this last word.
fn agrees_with(word: u64, width: u32, w2: u64) -> bool
    requires { width ≤ 64 }
{
    agrees_counted::<Brand>(word, width, &ending(w2), Blank::new(1))
}

#[test]
fn numbers_agree_in_their_highest_bits(rt: HostRuntime) {
    assert!(rt; agrees_with(1, 1, 1 << 63));
    assert!(rt; !agrees_with(1, 1, (1 << 63) - 1));
    assert!(rt; agrees_with(u64::MAX, 64, u64::MAX));
    assert!(rt; !agrees_with(u64::MAX, 64, u64::MAX - 1));
    assert!(rt; agrees_with(0, 0, u64::MAX));
}
