//! Blocks by the lists and the function of three delimiters, by functions that answer one turn to all
//! strings, by lists of no trie, and where there is one delimiter or none.

ghost use Rattle.std.specs.Prelude.{◌≡◌, ◌+◌, ◌*◌, ◌<◌, ◌≤◌, ◌^◌, ℕ, length, slice_index};
ghost use Rattle.sx_spec.specs.Fields.{below_of};
ghost use Rattle.sx_steps.specs.Blanks.{IsBlankOf};

use crate::HollowDistView;
use std::alloc::{AllocError, Global};
use std::marker::Brand;
use std::sync::ledger::{Blank, Ledger};
use std::test::Fail;
use sx_bits::BitView;
use sx_ef::section::sums_check;
use sx_ef::view::EliasFano;
use sx_fields::bank::Words;
use sx_sig::sign;
use sx_static::{Built, FuncView, Method, Signature, build, function_check};
use sx_steps::Steps;

/// What a string gets over words that are no lists and no function.
const NO_SECTIONS: Option<u64> = Some(u64::MAX);

const SEED: u64 = 7;

/// The sections of two lists and of a function.
#[derive(Clone, Copy)]
struct Sections<'a> {
    left: &'a [u64],
    skip: &'a [u64],
    turns: &'a [u64],
}

/// The section of the function whose six cells are all the turn, which it then answers.
fn always(turn: u64) -> [u64; 10] {
    [64, 1, 0, 6, turn, turn, turn, turn, turn, turn]
}

/// The section of the sums.
fn section(alloc: Global, sums: &[u64]) -> Result<Vec<u64>, AllocError>
    requires some { 0 < length sums.now }
    requires short { length sums.now < 2 ^ 32 }
    requires rising { (i : ℕ) → i + 1 < length sums.now
        → slice_index sums.now i ≤ slice_index sums.now (i + 1) }
    requires last { below_of sums.now < 2 ^ 64 }
{
    let list = EliasFano::encode(alloc, sums)?;
    let mut words = Vec::new(alloc);
    words.push(list.count)?;
    words.push(list.below)?;
    words.extend_from_slice(&list.low)?;
    words.extend_from_slice(&list.upper)?;
    Ok(words)
}

/// The signature of the bits `from` up to before `to` of a line, with a tag.
fn fragment(tag: u32, line: &[u8], from: u32, to: u32) -> Signature
    requires short { length line.now ≤ 8191 }
    requires ordered { from ≤ to }
    requires within { to ≤ 8 * (length line.now + 1) }
{
    sign(
        SEED,
        &BitView::key_bits(line).range(from, to),
        Some(tag),
        192,
    )
}

/// The section of the function of the turns of the keys a, b, c and d at the delimiters a, b and c.
fn turns_of_four(alloc: Global) -> Result<Vec<u64>, AllocError> {
    // 011000, 011001, no bit, 100000000 and twice 00000000
    let sigs = [
        fragment(0, b"a", 0, 6),
        fragment(0, b"d", 0, 6),
        fragment(1, b"b", 7, 7),
        fragment(2, b"a", 7, 16),
        fragment(3, b"b", 8, 16),
        fragment(4, b"c", 8, 16),
    ];
    let mut words = Vec::new(alloc);
    if let Built::Done(function) = build(alloc, &sigs, &[0, 2, 0, 1, 1, 1], 2, Method::Mwhc)? {
        words.push(u64::from(function.width))?;
        words.push(u64::from(function.pairs))?;
        words.extend_from_slice(&function.table)?;
        words.extend_from_slice(&function.cells.into_words())?;
    }
    Ok(words)
}

fn block_counted<L: Ledger>(
    alloc: Global,
    sections: Sections<'_>,
    delimiters: u64,
    line: &[u8],
    blank: Blank,
) -> Result<Option<u64>, AllocError>
    requires blank { IsBlankOf L.Ledger blank }
    requires few { delimiters < 2 ^ 32 }
    requires short { length line.now ≤ 8191 }
{
    let mut steps = Steps::<L>::new(blank);
    let Sections { left, skip, turns } = sections;
    let count = delimiters.max(1);
    let (Ok(lefts), Ok(skips), Ok(function)) = (
        sums_check(left, 0, count),
        sums_check(skip, 0, count),
        function_check(turns, 0, 0, 6, 0, 64),
    ) else {
        return Ok(NO_SECTIONS);
    };
    let view = HollowDistView::build(
        alloc,
        EliasFano::build(alloc, Words::new(left), lefts.body, count, lefts.below)?,
        EliasFano::build(alloc, Words::new(skip), skips.body, count, skips.below)?,
        FuncView::new(
            Words::new(turns),
            function.body,
            function.width,
            function.count as u32,
        ),
        delimiters,
    )?;
    Ok(view.block(&BitView::key_bits(line), SEED, 192, &mut steps))
}

/// The block of a line by sections of lists and of a function.
fn block(
    alloc: Global,
    sections: Sections<'_>,
    delimiters: u64,
    line: &[u8],
) -> Result<Option<u64>, AllocError>
    requires few { delimiters < 2 ^ 32 }
    requires short { length line.now ≤ 8191 }
{
    block_counted::<Brand>(alloc, sections, delimiters, line, Blank::new(1))
}

#[test]
fn blocks_of_four_keys(rt: HostRuntime) -> Result<(), Fail> {
    let left = section(rt.alloc(), &[0, 1, 2])?;
    let skip = section(rt.alloc(), &[0, 6, 6])?;
    let turns = turns_of_four(rt.alloc())?;
    let sections = Sections {
        left: &left,
        skip: &skip,
        turns: &turns,
    };
    let rows: [(&[u8], u64); 4] = [(b"a", 0), (b"b", 1), (b"c", 2), (b"d", 3)];
    for (line, want) in rows {
        assert!(rt; line.len() < 20);
        assert_eq!(rt; block(rt.alloc(), sections, 3, line)?, Some(want));
    }
    Ok(())
}

#[test]
fn one_turn_for_all(rt: HostRuntime) -> Result<(), Fail> {
    let left = section(rt.alloc(), &[0, 1, 2])?;
    let skip = section(rt.alloc(), &[0, 6, 6])?;
    // the root skips more bits than the strings have, and the left child of another has no leaf
    let far = section(rt.alloc(), &[0, u64::MAX - 1, u64::MAX - 1])?;
    let none = section(rt.alloc(), &[0, 0, 0])?;
    let many = section(rt.alloc(), &[0, 3, 6])?;
    let rows = [(0, None), (1, Some(0)), (2, Some(3)), (3, None)];
    for (turn, want) in rows {
        let turns = always(turn);
        let trie = Sections {
            left: &left,
            skip: &skip,
            turns: &turns,
        };
        for line in [b"a".as_slice(), b"".as_slice()] {
            assert!(rt; line.len() < 20);
            assert_eq!(rt; block(rt.alloc(), trie, 3, line)?, want);
            let skipping = Sections { skip: &far, ..trie };
            assert_eq!(rt; block(rt.alloc(), skipping, 3, line)?, want);
            // no turn counts where the lists are of no trie
            for left in [&none, &many] {
                let no_trie = Sections { left, ..trie };
                assert_eq!(rt; block(rt.alloc(), no_trie, 3, line)?, None);
            }
        }
    }
    Ok(())
}

#[test]
fn many_equal_numbers(rt: HostRuntime) -> Result<(), Fail> {
    // the left child of the root has no leaf, so its turn doesn't count
    let mut equal = [u64::MAX; 34];
    equal[0] = 2048;
    equal[1] = 1;
    for turn in 0..4 {
        let turns = always(turn);
        let sections = Sections {
            left: &equal,
            skip: &equal,
            turns: &turns,
        };
        assert_eq!(rt; block(rt.alloc(), sections, 2048, b"a")?, None);
    }
    Ok(())
}

#[test]
fn one_delimiter_or_none(rt: HostRuntime) -> Result<(), Fail> {
    let sums = section(rt.alloc(), &[0])?;
    let rows = [(0, None), (1, Some(0)), (2, Some(1)), (3, None)];
    for (turn, want) in rows {
        let turns = always(turn);
        let sections = Sections {
            left: &sums,
            skip: &sums,
            turns: &turns,
        };
        assert_eq!(rt; block(rt.alloc(), sections, 1, b"a")?, want);
        assert_eq!(rt; block(rt.alloc(), sections, 0, b"a")?, Some(0));
    }
    Ok(())
}
