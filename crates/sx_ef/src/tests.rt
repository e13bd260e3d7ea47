//! Worked rows of Elias-Fano lists.
ghost use Rattle.std.specs.Prelude.{◌≡◌, ◌+◌, ◌<◌, length};
ghost use Rattle.sx_steps.specs.Blanks.{IsBlankOf};

use crate::check::ef_valid;
use crate::section::sums_check;
use crate::view::EliasFano;
use std::marker::Brand;
use std::sync::ledger::{Blank, Ledger};
use std::test::Fail;
use sx_fields::bank::{WordBank, Words};
use sx_fields::fields::Fields;
use sx_steps::Steps;

/// Number `i`, and it with the next, where there are such. The next one is also read on to.
fn read<B: WordBank + Copy, D: WordBank, L: Ledger>(
    list: &EliasFano<B, D>,
    i: usize,
    blank: Blank,
) -> (Option<u64>, Option<(u64, u64)>)
    requires blank { IsBlankOf L.Ledger blank }
{
    let mut steps = Steps::<L>::new(blank);
    let len = list.len();
    let number = if i < len {
        Some(list.get(i, &mut steps))
    } else {
        None
    };
    let pair = if i < len.saturating_sub(1) {
        let first = list.cursor(i, &mut steps);
        let second = list.next(i, first, &mut steps);
        let pair = list.pair(i, &mut steps);
        if pair == (first.number, second.number) {
            Some(pair)
        } else {
            None
        }
    } else {
        None
    };
    (number, pair)
}

fn at<B: WordBank + Copy, D: WordBank>(
    list: &EliasFano<B, D>,
    i: usize,
) -> (Option<u64>, Option<(u64, u64)>) {
    read::<B, D, Brand>(list, i, Blank::new(1))
}

#[test]
fn encoded_lists(rt: HostRuntime) -> Result<(), Fail> {
    let list = EliasFano::encode(rt.alloc(), &[2, 3, 5, 7, 11, 13, 24])?;
    assert_eq!(rt; (list.count, list.below), (7, 25));
    assert_eq!(rt; list.low.as_slice(), [62].as_slice());
    assert_eq!(rt; list.upper.as_slice(), [264_790].as_slice());
    let zero = EliasFano::encode(rt.alloc(), &[0])?;
    assert_eq!(rt; (zero.count, zero.below, zero.low.len()), (1, 1, 0));
    assert_eq!(rt; zero.upper.as_slice(), [1].as_slice());
    Ok(())
}

/// Whether the words are a list of seven numbers of which the last is 24.
fn is_list(low: u64, upper: u64) -> bool {
    ef_valid(&[low, upper], 7, 25)
}

#[test]
fn lists_in_words(rt: HostRuntime) -> Result<(), Fail> {
    for (low, upper, valid) in [
        (62, 264_790, true),
        (62, 264_788, false),
        (63, 264_790, true),
        (61, 264_790, false),
        (62 + 128, 264_790, false),
        (62, 264_790 + (1 << 19), false),
    ] {
        assert_eq!(rt; is_list(low, upper), valid);
    }
    Ok(())
}

#[test]
fn sections(rt: HostRuntime) -> Result<(), Fail> {
    // the numbers 0 1 6: one low bit each, low bits 0 1 0, ones at 0, 1 and 5
    let words = [9, 3, 7, 2, 35, 9];
    let Ok(found) = sums_check(&words, 1, 3) else {
        assert!(rt; false);
        return Ok(());
    };
    assert_eq!(rt;
        (found.count, found.below, found.body, found.after),
        (3, 7, 3, 5)
    );
    let list = EliasFano::build(
        rt.alloc(),
        Words::new(&words),
        found.body,
        found.count,
        found.below,
    )?;
    assert_eq!(rt; (list.len(), list.width(), list.cost()), (3, 64, 80));
    assert_eq!(rt;
        (at(&list, 0), at(&list, 1)),
        ((Some(0), Some((0, 1))), (Some(1), Some((1, 6))))
    );
    assert_eq!(rt;
        (at(&list, 2), at(&list, 3)),
        ((Some(6), None), (None, None))
    );
    for (words, check) in [
        ([2, 7, 2, 35], 12),
        ([3, 0, 2, 35], 16),
        ([3, 7, 10, 35], 15),
        ([3, 7, 2, 99], 15),
        ([3, 7, 3, 35], 16),
        ([3, 7, 2, 33], 16),
        ([3, 8, 2, 35], 16),
        ([3, 7, 1, 35], 16),
    ] {
        assert_eq!(rt; sums_check(&words, 0, 3).err(), Some(check));
    }
    assert_eq!(rt;
        (
            sums_check(&[3], 0, 3).err(),
            sums_check(&[3, 7, 2], 0, 3).err()
        ),
        (Some(11), Some(11))
    );
    Ok(())
}

#[test]
fn equal_numbers_and_far_ones(rt: HostRuntime) -> Result<(), Fail> {
    // 65 zeros and then 60, without low bits: ones at the last bit of a word, at the first of the next, and far behind
    let words = [66, 61, u64::MAX, 1 + (1 << 61)];
    let Ok(found) = sums_check(&words, 0, 66) else {
        assert!(rt; false);
        return Ok(());
    };
    let list = EliasFano::build(
        rt.alloc(),
        Words::new(&words),
        found.body,
        found.count,
        found.below,
    )?;
    for (i, pair) in [(0, (0, 0)), (62, (0, 0)), (63, (0, 0)), (64, (0, 60))] {
        assert_eq!(rt; at(&list, i), (Some(pair.0), Some(pair)));
    }
    assert_eq!(rt; at(&list, 65), (Some(60), None));
    Ok(())
}
