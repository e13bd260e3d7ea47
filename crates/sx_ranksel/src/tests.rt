//! Worked rows of rank and select.
ghost use Rattle.std.specs.Prelude.{◌≡◌, ◌<◌, ◌≤◌};
ghost use Rattle.sx_ranksel.specs.Directory.{number_at, rank_of};

use crate::ranksel::RankSel;
use std::marker::Brand;
use std::sync::ledger::{Blank, Ledger};
use std::test::Fail;
use sx_fields::bank::{WordBank, Words};
use sx_steps::Steps;

fn counted_rank<B: WordBank + Copy, D: WordBank, L: Ledger>(
    bits: &RankSel<B, D>,
    pos: u64,
    blank: Blank,
) -> u64
    requires name { blank.name ≡ L.name }
    requires parts { blank.parts ≡ L.parts }
    requires some { 0 < blank.parts }
    requires within { pos ≤ bits.now.bits }
{
    let mut steps = Steps::<L>::new(blank);
    bits.rank(pos, &mut steps)
}

fn rank<B: WordBank + Copy, D: WordBank>(bits: &RankSel<B, D>, pos: u64) -> u64
    requires { pos ≤ bits.now.bits }
{
    counted_rank::<B, D, Brand>(bits, pos, Blank::new(1))
}

fn counted_select<B: WordBank + Copy, D: WordBank, L: Ledger>(
    bits: &RankSel<B, D>,
    k: u64,
    blank: Blank,
) -> Option<u64>
    requires name { blank.name ≡ L.name }
    requires parts { blank.parts ≡ L.parts }
    requires some { 0 < blank.parts }
{
    let mut steps = Steps::<L>::new(blank);
    if k < bits.ones() {
        Some(bits.select(k, &mut steps))
    } else {
        None
    }
}

fn select<B: WordBank + Copy, D: WordBank>(bits: &RankSel<B, D>, k: u64) -> Option<u64> {
    counted_select::<B, D, Brand>(bits, k, Blank::new(1))
}

#[test]
fn bits_at_the_edge_of_a_word(rt: HostRuntime) -> Result<(), Fail> {
    let words = [1 << 63, 1];
    let bits = RankSel::build(rt.alloc(), Words::new(&words), 0, 128)?;
    assert_eq!(rt; bits.ones(), 2);
    assert_eq!(rt;
        (select(&bits, 0), select(&bits, 1), select(&bits, 2)),
        (Some(63), Some(64), None)
    );
    assert_eq!(rt;
        (rank(&bits, 63), rank(&bits, 64), rank(&bits, 128)),
        (0, 1, 2)
    );
    Ok(())
}

#[test]
fn many_blocks(rt: HostRuntime) -> Result<(), Fail> {
    let mut words = [0; 40];
    words[1] = 5;
    words[17] = 1 << 40;
    words[38] = u64::MAX;
    let bits = RankSel::build(rt.alloc(), Words::new(&words), 1, 64 * 38 - 32)?;
    assert_eq!(rt; bits.ones(), 35);
    for (k, place) in [
        (0, 0),
        (1, 2),
        (2, 64 * 16 + 40),
        (3, 64 * 37),
        (34, 64 * 37 + 31),
    ] {
        assert_eq!(rt; select(&bits, k), Some(place));
    }
    assert_eq!(rt;
        (
            rank(&bits, 3),
            rank(&bits, 64 * 16 + 41),
            rank(&bits, 64 * 37 + 1)
        ),
        (2, 3, 4)
    );
    let none = RankSel::build(rt.alloc(), Words::new(&words), 40, 0)?;
    assert_eq!(rt;
        (none.ones(), rank(&none, 0), select(&none, 0)),
        (0, 0, None)
    );
    Ok(())
}

/// The places of ones number `k` and `k + 1`.
fn counted_pair<B: WordBank + Copy, D: WordBank, L: Ledger>(
    bits: &RankSel<B, D>,
    k: u64,
    blank: Blank,
) -> Option<(u64, u64)>
    requires name { blank.name ≡ L.name }
    requires parts { blank.parts ≡ L.parts }
    requires some { 0 < blank.parts }
{
    let mut steps = Steps::<L>::new(blank);
    if k < bits.ones().saturating_sub(1) {
        Some(bits.select_pair(k, &mut steps))
    } else {
        None
    }
}

fn pair<B: WordBank + Copy, D: WordBank>(bits: &RankSel<B, D>, k: u64) -> Option<(u64, u64)> {
    counted_pair::<B, D, Brand>(bits, k, Blank::new(1))
}

#[test]
fn ones_far_apart(rt: HostRuntime) -> Result<(), Fail> {
    let mut words = [0; 12_500];
    for k in 0..200 {
        words[125 * k / 2] |= 1 << (k % 2 * 32);
    }
    let bits = RankSel::build(rt.alloc(), Words::new(&words), 0, 64 * 12_500)?;
    assert_eq!(rt; bits.ones(), 200);
    for k in 0..199 {
        assert_eq!(rt; select(&bits, k), Some(4_000 * k));
        assert_eq!(rt; pair(&bits, k), Some((4_000 * k, 4_000 * k + 4_000)));
    }
    assert_eq!(rt; select(&bits, 199), Some(4_000 * 199));
    assert_eq!(rt; (select(&bits, 200), pair(&bits, 199)), (None, None));
    Ok(())
}

#[test]
fn groups_at_the_bound(rt: HostRuntime) -> Result<(), Fail> {
    // 63 ones at the start and the last of a group in the thirtieth word or the one after
    for (word, far) in [(29, 1), (30, 0)] {
        let mut words = [0; 40];
        words[0] = u64::MAX >> 1;
        words[word] = 1 << far;
        words[39] = 1 << 63;
        let bits = RankSel::build(rt.alloc(), Words::new(&words), 0, 64 * 40)?;
        let last = 64 * word as u64 + far;
        assert_eq!(rt;
            (select(&bits, 62), select(&bits, 63), select(&bits, 64)),
            (Some(62), Some(last), Some(64 * 39 + 63))
        );
        assert_eq!(rt;
            (pair(&bits, 61), pair(&bits, 62), pair(&bits, 63)),
            (Some((61, 62)), Some((62, last)), Some((last, 64 * 39 + 63)))
        );
    }
    Ok(())
}
