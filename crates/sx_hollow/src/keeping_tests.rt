//! How many words are kept of a trie, and of lists of no trie.

use crate::keeping::top_of;
use std::alloc::{AllocError, Global};
use std::test::Fail;
use sx_ef::section::sums_check;
use sx_ef::view::EliasFano;
use sx_fields::bank::Words;

/// How many leaves there are.
const LEAVES: u64 = 2048;

/// How many words are kept by the sections of two lists, or none where they are no lists.
fn kept(alloc: Global, left: &[u64], skip: &[u64]) -> Result<Option<usize>, AllocError> {
    let (Ok(lefts), Ok(skips)) = (sums_check(left, 0, LEAVES), sums_check(skip, 0, LEAVES)) else {
        return Ok(None);
    };
    let words = top_of(
        alloc,
        &EliasFano::build(alloc, Words::new(left), lefts.body, LEAVES, lefts.below)?,
        &EliasFano::build(alloc, Words::new(skip), skips.body, LEAVES, skips.below)?,
        LEAVES - 1,
    )?;
    Ok(Some(words.len()))
}

#[test]
fn nodes_of_tries(rt: HostRuntime) -> Result<(), Fail> {
    // no node skips a bit, so these sums are equal
    let mut skip = [u64::MAX; 34];
    skip[0] = LEAVES;
    skip[1] = 1;
    // each left child is a leaf: the sums are 0, 1, 2 and so on
    let mut left = [0x5555_5555_5555_5555; 66];
    left[0] = LEAVES;
    left[1] = LEAVES;
    assert_eq!(rt; kept(rt.alloc(), &left, &skip)?, Some(126));
    Ok(())
}

#[test]
fn lists_of_no_trie(rt: HostRuntime) -> Result<(), Fail> {
    let mut equal = [u64::MAX; 34];
    equal[0] = LEAVES;
    equal[1] = 1;
    // the left child of the first node has no leaf
    assert_eq!(rt; kept(rt.alloc(), &equal, &equal)?, Some(0));
    // it has all but one, and its own left child has none: the sums are 0, 2047, 2047 and so on
    let mut all_but_one = [0; 66];
    all_but_one[0] = LEAVES;
    all_but_one[1] = LEAVES;
    all_but_one[2] = 1;
    for word in 34..65 {
        all_but_one[word] = u64::MAX;
    }
    all_but_one[65] = u64::MAX >> 1;
    assert_eq!(rt; kept(rt.alloc(), &all_but_one, &equal)?, Some(2));
    // it has all: the sums are 0, 2048, 2048 and so on
    let mut all = [0; 66];
    all[0] = LEAVES;
    all[1] = LEAVES + 1;
    all[2] = 1;
    all[34] = u64::MAX << 1;
    for word in 35..66 {
        all[word] = u64::MAX;
    }
    assert_eq!(rt; kept(rt.alloc(), &all, &equal)?, Some(0));
    Ok(())
}
