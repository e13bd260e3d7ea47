//! Function sections that were computed elsewhere, and what they answer.
ghost use Rattle.std.specs.Prelude.{◌≡◌, ◌<◌};
ghost use Rattle.sx_static.specs.Viewing.{IsViewed};
ghost use Rattle.sx_steps.specs.Blanks.{IsBlankOf};

use crate::{FuncView, Signature, function_check};
use std::marker::Brand;
use std::sync::ledger::{Blank, Ledger};
use std::test::Fail;
use sx_fields::bank::Words;
use sx_steps::Steps;

fn counted<L: Ledger>(
    words: &[u64],
    first: usize,
    width: u32,
    pairs: u32,
    sig: &Signature,
    blank: Blank,
) -> u64
    requires blank { IsBlankOf L.Ledger blank }
    requires stands { IsViewed words.now first width pairs }
{
    let mut steps = Steps::<L>::new(blank);
    FuncView::new(Words::new(words), first, width, pairs).answer(sig, &mut steps)
}

fn answer(words: &[u64], first: usize, width: u32, pairs: u32, sig: &Signature) -> u64
    requires stands { IsViewed words.now first width pairs }
{
    counted::<Brand>(words, first, width, pairs, sig, Blank::new(1))
}

/// Two chunks, of segments of three cells at try 1 and of two cells at try 0, with cells of eight bits.
const TWO_CHUNKS: [u64; 8] = [
    77,
    8,
    1025,
    1 << 58,
    9,
    15,
    0x4400_0022_0000_1100,
    0x0010_0080_0001_0100,
];

/// The chunks' starts stand in the words from the second on.
#[test]
fn two_chunks_answer(rt: HostRuntime) -> Result<(), Fail> {
    let words = TWO_CHUNKS;
    match function_check(&words, 1, 1025, 1025, 8, 8) {
        Ok(section) => {
            assert_eq!(rt;
                (section.width, section.count, section.body, section.after),
                (8, 1025, 3, 8)
            );
            let mut sig = Signature {
                w0: 0,
                w1: 0,
                w2: 0,
            };
            let pairs = section.count as u32;
            assert_eq!(rt;
                answer(&words, section.body, section.width, pairs, &sig),
                0x77
            );
            sig.w0 = 1 << 63;
            assert_eq!(rt;
                answer(&words, section.body, section.width, pairs, &sig),
                0x91
            );
        }
        Err(check) => assert!(rt; false, "check {check}"),
    }
    Ok(())
}

/// The number of the check that fails, or 0.
fn failing(words: &[u64], most: u64) -> u8
    requires { most < 4294967296 }
{
    match function_check(words, 0, 0, most, 0, 64) {
        Ok(_) => 0,
        Err(check) => check,
    }
}

#[test]
fn checks_fail_in_order(rt: HostRuntime) -> Result<(), Fail> {
    assert_eq!(rt; failing(&[64], 0), 11);
    assert_eq!(rt; failing(&[65, 1], 0), 12);
    assert_eq!(rt; failing(&[65, u64::MAX], 4294967295), 12);
    assert_eq!(rt; failing(&[65, 1], 1), 13);
    assert_eq!(rt; failing(&[64, 1, 0], 1), 11);
    assert_eq!(rt; failing(&[64, 4294967295, 0, 0], 4294967295), 11);
    assert_eq!(rt; failing(&[64, 1, 0, 7], 1), 14);
    assert_eq!(rt; failing(&[64, 1, 1 << 58, 0], 1), 14);
    assert_eq!(rt; failing(&[64, 1, 3, 6], 1), 14);
    assert_eq!(rt; failing(&[64, 1, 0, 6, 1, 2, 3, 4, 5], 1), 11);
    assert_eq!(rt; failing(&[1, 1, 0, 6, 64], 1), 15);
    assert_eq!(rt; failing(&[1, 1, 0, 6, 63], 1), 0);
    assert_eq!(rt; failing(&[0, 0, 0, 0], 0), 0);
    Ok(())
}
