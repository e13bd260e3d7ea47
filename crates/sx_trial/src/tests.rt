//! Trials over memory, and the lines that are made.

ghost use Rattle.std.specs.Prelude.{◌≤◌};
ghost use Rattle.sx_steps.specs.Blanks.{IsBlankOf};

use crate::made::{eight_digits, made_keys, made_values};
use crate::trial::{Trial, default_plan, try_kind};
use std::alloc::{AllocError, Global};
use std::marker::Brand;
use std::process::Abort;
use std::sync::ledger::{Blank, Ledger};
use std::test::Fail;
use sx_assemble::assemble;
use sx_dump::open_dump;
use sx_fields::bank::Words;
use sx_parts::Assembled;
use sx_spec::Kind;
use sx_steps::Steps;

/// A trial under a fresh count of steps.
fn tried_under<L: Ledger>(
    alloc: Global,
    kind: Kind,
    count: u32,
    blank: Blank,
) -> Result<Trial, AllocError>
    requires blank { IsBlankOf L.Ledger blank }
    requires few { count ≤ 1000000 }
{
    let mut steps = Steps::<L>::new(blank);
    try_kind(alloc, kind, count, &mut steps)
}

/// Checks the line of a trial.
fn check(rt: &(impl Abort + AllocGlobal), kind: Kind, count: u32, wanted: &str) -> Result<(), Fail>
    requires { count ≤ 1000000 }
{
    match tried_under::<Brand>(rt.alloc(), kind, count, Blank::new(1))? {
        Trial::Line(line) => assert_eq!(rt; line.as_slice(), wanted.as_bytes()),
        Trial::Failed(_) => assert!(rt; false, "no seed works"),
    }
    Ok(())
}

/// The sum of the replies that the dump in these words gives the numbers from one on, so many.
fn replies_in<L: Ledger>(
    rt: &(impl Abort + AllocGlobal),
    words: &[u64],
    first: u32,
    count: u32,
    steps: &mut Steps<L>,
) -> Result<i128, Fail>
    requires first { first ≤ 1000000 }
    requires few { count ≤ 1000000 }
{
    let alloc = rt.alloc();
    let mut sum: i128 = 0;
    match open_dump(alloc, words, words.len() as u64 * 8, Words::new(words)) {
        Ok(dump) => {
            for number in first..first + count {
                let line = format!(in alloc; "{number:08}")?;
                assert!(rt; line.len() <= 8191);
                sum = sum.wrapping_add(dump.reply(line.as_bytes(), steps).max(0));
            }
        }
        Err(_) => assert!(rt; false, "the dump isn't opened"),
    }
    Ok(sum)
}

/// The sum of the replies to the strangers, by a dump that is built of the parts of a trial here.
fn strangers_under<L: Ledger>(
    rt: &(impl Abort + AllocGlobal),
    kind: Kind,
    count: u32,
    blank: Blank,
) -> Result<i128, Fail>
    requires blank { IsBlankOf L.Ledger blank }
    requires few { count ≤ 1000000 }
{
    let mut steps = Steps::<L>::new(blank);
    let keys = made_keys(rt.alloc(), count)?;
    let values = made_values(rt.alloc(), count)?;
    let plan = default_plan(kind);
    for seed in 0..4 {
        match assemble(rt.alloc(), &keys, &values, &plan, seed, &mut steps)? {
            Assembled::Words(words) => return replies_in(rt, &words, count, count, &mut steps),
            Assembled::SeedFailed(_) => {}
        }
    }
    Ok(-1)
}

/// Checks the line of a trial, of which the last number is made here.
fn compare(rt: &(impl Abort + AllocGlobal), kind: Kind, count: u32, head: &str) -> Result<(), Fail>
    requires { count ≤ 1000000 }
{
    let strangers = strangers_under::<Brand>(rt, kind, count, Blank::new(1))?;
    check(
        rt,
        kind,
        count,
        &format!(in rt.alloc(); "{head} strangers {strangers}\n")?,
    )
}

#[test]
fn lines_of_eight_digits(rt: HostRuntime) -> Result<(), Fail> {
    assert_eq!(rt; eight_digits(0), *b"00000000");
    assert_eq!(rt; eight_digits(1_999_999), *b"01999999");
    assert_eq!(rt; eight_digits(12_345_678), *b"12345678");
    let keys = made_keys(rt.alloc(), 1001)?;
    assert_eq!(rt; keys.len(), 1001);
    assert_eq!(rt; keys.get(1000), b"00001000".as_slice());
    Ok(())
}

#[test]
fn small_trials(rt: HostRuntime) -> Result<(), Fail> {
    check(
        &rt,
        Kind::Hollow,
        3,
        "trial hollow keys 3 answers 3 sum 3 strangers 3\n",
    )?;
    check(
        &rt,
        Kind::Func,
        0,
        "trial func keys 0 answers 0 sum 0 strangers 0\n",
    )?;
    check(
        &rt,
        Kind::Zfast,
        0,
        "trial zfast keys 0 answers 0 sum 0 strangers 0\n",
    )
}

#[test]
fn one_key(rt: HostRuntime) -> Result<(), Fail> {
    compare(&rt, Kind::Func, 1, "trial func keys 1 answers 1 sum 0")?;
    compare(&rt, Kind::Lcp, 1, "trial lcp keys 1 answers 1 sum 0")?;
    compare(&rt, Kind::Lcp2, 1, "trial lcp2 keys 1 answers 1 sum 0")?;
    compare(&rt, Kind::Hollow, 1, "trial hollow keys 1 answers 1 sum 0")?;
    compare(
        &rt,
        Kind::HollowDist,
        1,
        "trial hollowdist keys 1 answers 1 sum 0",
    )?;
    compare(&rt, Kind::Zfast, 1, "trial zfast keys 1 answers 1 sum 0")
}

#[test]
fn twenty_keys(rt: HostRuntime) -> Result<(), Fail> {
    compare(&rt, Kind::Func, 20, "trial func keys 20 answers 20 sum 190")?;
    compare(&rt, Kind::Lcp, 20, "trial lcp keys 20 answers 20 sum 190")?;
    compare(&rt, Kind::Lcp2, 20, "trial lcp2 keys 20 answers 20 sum 190")?;
    compare(
        &rt,
        Kind::Hollow,
        20,
        "trial hollow keys 20 answers 20 sum 190",
    )?;
    compare(
        &rt,
        Kind::HollowDist,
        20,
        "trial hollowdist keys 20 answers 20 sum 190",
    )?;
    compare(
        &rt,
        Kind::Zfast,
        20,
        "trial zfast keys 20 answers 20 sum 190",
    )
}

#[test]
fn keys_in_many_blocks(rt: HostRuntime) -> Result<(), Fail> {
    compare(
        &rt,
        Kind::Zfast,
        20_000,
        "trial zfast keys 20000 answers 20000 sum 199990000",
    )?;
    compare(
        &rt,
        Kind::HollowDist,
        500,
        "trial hollowdist keys 500 answers 500 sum 124750",
    )
}
