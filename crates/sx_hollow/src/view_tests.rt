//! Walks over the lists of three keys, over lists of no trie, also of equal numbers, over lists of which
//! the first nodes are kept, and where there is one key or none.

ghost use Rattle.std.specs.Prelude.{◌≡◌, ◌+◌, ◌<◌, ◌≤◌, ◌^◌, ℕ, length, slice_index};
ghost use Rattle.sx_spec.specs.Fields.{below_of};
ghost use Rattle.sx_steps.specs.Blanks.{IsBlankOf};

use crate::HollowView;
use std::alloc::{AllocError, Global};
use std::marker::Brand;
use std::sync::ledger::{Blank, Ledger};
use std::test::Fail;
use sx_bits::BitView;
use sx_ef::section::sums_check;
use sx_ef::view::EliasFano;
use sx_fields::bank::Words;
use sx_steps::Steps;

/// What a walk ends at over words that are no lists of as many sums as keys.
const NO_LISTS: Option<u64> = Some(u64::MAX);

/// The section of the sums.
fn section(alloc: Global, sums: &[u64]) -> Result<Vec<u64>, AllocError>
    requires some { 0 < length sums.now }
    requires short { length sums.now < 2 ^ 32 }
    requires rising { (i : ℕ) → i + 1 < length sums.now
        → slice_index sums.now i ≤ slice_index sums.now (i + 1) }
    requires last { below_of sums.now < 2 ^ 64 }
{
    let list = EliasFano::encode(alloc, sums)?;
    let mut words = Vec::new(alloc);
    words.push(list.count)?;
    words.push(list.below)?;
    words.extend_from_slice(&list.low)?;
    words.extend_from_slice(&list.upper)?;
    Ok(words)
}

fn walk_counted<L: Ledger>(
    alloc: Global,
    lists: (&[u64], &[u64]),
    keys: u64,
    line: &[u8],
    blank: Blank,
) -> Result<Option<u64>, AllocError>
    requires blank { IsBlankOf L.Ledger blank }
    requires few { keys < 2 ^ 32 }
    requires short { length line.now ≤ 8191 }
{
    let mut steps = Steps::<L>::new(blank);
    let count = keys.max(1);
    let (Ok(left), Ok(skip)) = (sums_check(lists.0, 0, count), sums_check(lists.1, 0, count)) else {
        return Ok(NO_LISTS);
    };
    let view = HollowView::build(
        alloc,
        EliasFano::build(alloc, Words::new(lists.0), left.body, count, left.below)?,
        EliasFano::build(alloc, Words::new(lists.1), skip.body, count, skip.below)?,
        keys,
    )?;
    Ok(view.answer(&BitView::key_bits(line), &mut steps))
}

/// Where the walk of a line over the sections of its two lists ends.
fn walk(
    alloc: Global,
    left: &[u64],
    skip: &[u64],
    keys: u64,
    line: &[u8],
) -> Result<Option<u64>, AllocError>
    requires few { keys < 2 ^ 32 }
    requires short { length line.now ≤ 8191 }
{
    walk_counted::<Brand>(alloc, (left, skip), keys, line, Blank::new(1))
}

#[test]
fn keys_and_strangers(rt: HostRuntime) -> Result<(), Fail> {
    // the keys a, b and c
    let left = section(rt.alloc(), &[0, 1, 2])?;
    let skip = section(rt.alloc(), &[0, 6, 6])?;
    let rows: [(&[u8], u64); 6] = [
        (b"a", 0),
        (b"b", 1),
        (b"c", 2),
        (b"a\x00", 0),
        (b"z", 1),
        (b"", 0),
    ];
    for (line, want) in rows {
        assert!(rt; line.len() < 20);
        assert_eq!(rt; walk(rt.alloc(), &left, &skip, 3, line)?, Some(want));
    }
    Ok(())
}

#[test]
fn lists_of_no_trie(rt: HostRuntime) -> Result<(), Fail> {
    let left = section(rt.alloc(), &[0, 1, 2])?;
    let skip = section(rt.alloc(), &[0, 6, 6])?;
    let none = section(rt.alloc(), &[0, 0, 0])?;
    let many = section(rt.alloc(), &[0, 9, 9])?;
    let far = section(rt.alloc(), &[0, u64::MAX - 1, u64::MAX - 1])?;
    let short = section(rt.alloc(), &[0, 15, 15])?;
    assert_eq!(rt; walk(rt.alloc(), &none, &skip, 3, b"a")?, None);
    assert_eq!(rt; walk(rt.alloc(), &many, &skip, 3, b"a")?, None);
    assert_eq!(rt; walk(rt.alloc(), &left, &far, 3, b"a")?, None);
    assert_eq!(rt; walk(rt.alloc(), &left, &short, 3, b"")?, None);
    // the last of 16 bits leads to a leaf, or to a node where no bit is left
    let wide = section(rt.alloc(), &[0, 2, 3])?;
    assert_eq!(rt; walk(rt.alloc(), &left, &short, 3, b"a")?, Some(0));
    assert_eq!(rt; walk(rt.alloc(), &wide, &short, 3, b"a")?, None);
    Ok(())
}

#[test]
fn one_key_or_none(rt: HostRuntime) -> Result<(), Fail> {
    let sums = section(rt.alloc(), &[0])?;
    for line in [b"a".as_slice(), b"".as_slice()] {
        assert!(rt; line.len() < 20);
        assert_eq!(rt; walk(rt.alloc(), &sums, &sums, 0, line)?, None);
        assert_eq!(rt; walk(rt.alloc(), &sums, &sums, 1, line)?, Some(0));
    }
    Ok(())
}

#[test]
fn kept_nodes(rt: HostRuntime) -> Result<(), Fail> {
    // 2,048 leaves without a skip: the root's right child is the last one, and below its left child each
    // left child is a leaf; so the sums are 0, 2047, 2048 and so on, and the first 63 nodes are kept
    const EVEN: u64 = 0x5555_5555_5555_5555;
    let mut left = [0; 98];
    left[0] = 2048;
    left[1] = 4094;
    left[2] = 1;
    for word in 34..97 {
        left[word] = EVEN;
    }
    left[97] = EVEN >> 2;
    let mut skip = [u64::MAX; 34];
    skip[0] = 2048;
    skip[1] = 1;
    let rows: [(&[u8], u64); 8] = [
        (b"", 0),
        (b"\x80", 2047),
        (b"\x40", 1),
        (b"\x60", 2),
        (b"\x70", 3),
        (b"\x7f\x80", 8),
        (b"\x7f\xff\xff\xff\xff\xff\xff\xff", 63),
        (b"\x7f\xff\xff\xff\xff\xff\xff\xff\xfe", 70),
    ];
    for (line, want) in rows {
        assert!(rt; line.len() < 20);
        assert_eq!(rt; walk(rt.alloc(), &left, &skip, 2048, line)?, Some(want));
    }
    Ok(())
}

#[test]
fn many_equal_numbers(rt: HostRuntime) -> Result<(), Fail> {
    // the left child of the root has no leaf
    let mut equal = [u64::MAX; 34];
    equal[0] = 2048;
    equal[1] = 1;
    for line in [b"a".as_slice(), b"".as_slice()] {
        assert!(rt; line.len() < 20);
        assert_eq!(rt; walk(rt.alloc(), &equal, &equal, 2048, line)?, None);
    }
    Ok(())
}
