//! Words of small dumps of the kinds that answer each key its number.

ghost use Rattle.std.specs.Prelude.{◌≡◌, ◌≤◌};
ghost use Rattle.sx_spec.specs.declared.Method.TheVariants.{Mwhc};
ghost use Rattle.sx_spec_program.specs.Program.{IsOfferedPlan};

use crate::tests::{assembled_under, keys_of, twins_in};
use std::marker::Brand;
use std::process::Abort;
use std::sync::ledger::Blank;
use std::test::Fail;
use sx_bits::KeyList;
use sx_parts::Assembled;
use sx_parts::numbers::numbers_to;
use sx_sig::{Kind, Method, Plan};

/// A plan of whole signatures, with blocks of 2 to the power `log_bucket` keys.
pub(crate) fn plan_of(kind: Kind, log_bucket: u32) -> Plan
    ensures { result ≡ record {
      kind = kind;
      method = Mwhc;
      log_bucket = log_bucket;
      sig_bits = 192;
      handle_bits = 0;
      signed = 0;
    } }
{
    Plan {
        kind,
        method: Method::Mwhc,
        log_bucket,
        sig_bits: 192,
        handle_bits: 0,
        signed: 0,
    }
}

/// The same of a signed kind, with blocks of one key.
fn signed_plan(kind: Kind, signed: u32) -> Plan
    ensures { result ≡ record {
      kind = kind;
      method = Mwhc;
      log_bucket = 0;
      sig_bits = 192;
      handle_bits = 0;
      signed = signed;
    } }
{
    let mut plan = plan_of(kind, 0);
    plan.signed = signed;
    plan
}

/// What keys with their numbers come to with seed 0.
fn numbered_keys(
    rt: &(impl Abort + AllocGlobal),
    plan: &Plan,
    keys: &KeyList,
) -> Result<Assembled, Fail>
    requires { IsOfferedPlan plan.now }
{
    let values = numbers_to(rt.alloc(), keys.len())?;
    let blank = Blank::new(1);
    Ok(assembled_under::<Brand>(rt.alloc(), keys, &values, plan, blank)?)
}

/// The same of keys that are given line by line.
pub(crate) fn numbered(
    rt: &(impl Abort + AllocGlobal),
    plan: &Plan,
    lines: &[&[u8]],
) -> Result<Assembled, Fail>
    requires { IsOfferedPlan plan.now }
{
    let keys = keys_of(rt, lines)?;
    numbered_keys(rt, plan, &keys)
}

/// The words of the dump of keys, for which seed 0 works.
pub(crate) fn ranked_keys(
    rt: &(impl Abort + AllocGlobal),
    plan: &Plan,
    keys: &KeyList,
) -> Result<Vec<u64>, Fail>
    requires { IsOfferedPlan plan.now }
{
    let words = match numbered_keys(rt, plan, keys)? {
        Assembled::Words(words) => Some(words),
        Assembled::SeedFailed(_) => None,
    };
    Ok(words.ok_or("the seed fails")?)
}

/// The same of keys that are given line by line.
pub(crate) fn ranked(
    rt: &(impl Abort + AllocGlobal),
    plan: &Plan,
    lines: &[&[u8]],
) -> Result<Vec<u64>, Fail>
    requires { IsOfferedPlan plan.now }
{
    let keys = keys_of(rt, lines)?;
    ranked_keys(rt, plan, &keys)
}

/// The first two words of the section at a place: the width and the number of pairs of a function.
pub(crate) fn head_at(words: &[u64], at: usize) -> Option<(u64, u64)> {
    let rest = words.get(at..)?;
    Some((*rest.first()?, *rest.get(1)?))
}

#[test]
fn lengths_and_prefixes(rt: HostRuntime) -> Result<(), Fail> {
    // the prefixes of the blocks have 6 and 5 bits, so the greatest number is 1 + 2 * 6
    let words = ranked(&rt, &plan_of(Kind::Lcp, 1), &[b"a", b"b", b"c", b"d"])?;
    assert_eq!(rt; head_at(&words, 10), Some((4, 4)));
    assert_eq!(rt; head_at(&words, 15), Some((1, 2)));
    // the empty key has 8 bits
    let words = ranked(&rt, &plan_of(Kind::Lcp, 1), &[b""])?;
    assert_eq!(rt; head_at(&words, 10), Some((5, 1)));
    Ok(())
}

#[test]
fn the_widest_lengths(rt: HostRuntime) -> Result<(), Fail> {
    // the longest key has 65,536 bits, and a block at most 4,096 keys
    let line = vec![in rt.alloc(); b'x'; 8191]?;
    let words = ranked(&rt, &plan_of(Kind::Lcp, 12), &[&line])?;
    assert_eq!(rt; head_at(&words, 10), Some((29, 1)));
    Ok(())
}

#[test]
fn codes_and_their_table(rt: HostRuntime) -> Result<(), Fail> {
    let words = ranked(&rt, &plan_of(Kind::Lcp2, 1), &[b"a", b"b", b"c", b"d"])?;
    assert_eq!(rt; head_at(&words, 10), Some((1, 4)));
    assert_eq!(rt; head_at(&words, 15), Some((2, 4)));
    // the lengths are 6 6 5 5, which the table has in rising order
    assert_eq!(rt; words.get(20..23), Some([2, 3, 53].as_slice()));
    Ok(())
}

#[test]
fn sums_of_a_trie(rt: HostRuntime) -> Result<(), Fail> {
    let front = [0x3150_4D55_4458_5553, 17, 3, 0, 3, 0, 192, 0, 0, 0];
    // one leaf is left of each node; the root skips 6 bits, and the other node none
    let words = ranked(&rt, &plan_of(Kind::Hollow, 0), &[b"a", b"b", b"c"])?;
    assert_eq!(rt; words.get(..10), Some(front.as_slice()));
    assert_eq!(rt; words.get(10..13), Some([3, 3, 21].as_slice()));
    assert_eq!(rt; words.get(13..), Some([3, 7, 0, 49].as_slice()));
    // no node: the lists have the one number 0
    let words = ranked(&rt, &plan_of(Kind::Hollow, 0), &[])?;
    assert_eq!(rt; (words.len(), words.get(4)), (16, Some(&0)));
    assert_eq!(rt; words.get(10..), Some([1, 1, 1, 1, 1, 1].as_slice()));
    let words = ranked(&rt, &plan_of(Kind::Hollow, 0), &[b"a"])?;
    assert_eq!(rt; (words.len(), words.get(4)), (16, Some(&1)));
    assert_eq!(rt; words.get(10..), Some([1, 1, 1, 1, 1, 1].as_slice()));
    Ok(())
}

#[test]
fn turns_of_a_trie(rt: HostRuntime) -> Result<(), Fail> {
    let words = ranked(
        &rt,
        &plan_of(Kind::HollowDist, 0),
        &[b"a", b"b", b"c", b"d"],
    )?;
    let front = [0x3150_4D55_4458_5553, 26, 4, 0, 4, 0, 192, 0, 0, 0];
    assert_eq!(rt; words.get(..10), Some(front.as_slice()));
    assert_eq!(rt; head_at(&words, 10), Some((0, 4)));
    // the sums are 0 1 2 and 0 6 6
    assert_eq!(rt; words.get(14..21), Some([3, 3, 21, 3, 7, 0, 49].as_slice()));
    // two pairs of the root, one of the other node and three of leaves
    assert_eq!(rt; head_at(&words, 21), Some((2, 6)));
    // one block: no delimiters, and no pairs
    let words = ranked(&rt, &plan_of(Kind::HollowDist, 5), &[b"a", b"b"])?;
    assert_eq!(rt; head_at(&words, 10), Some((1, 2)));
    assert_eq!(rt;
        words.get(15..),
        Some([1, 1, 1, 1, 1, 1, 0, 0, 0, 0].as_slice())
    );
    let words = ranked(&rt, &plan_of(Kind::HollowDist, 0), &[])?;
    assert_eq!(rt; words.len(), 24);
    assert_eq!(rt; words.get(10..14), Some([0, 0, 0, 0].as_slice()));
    assert_eq!(rt;
        words.get(14..),
        Some([1, 1, 1, 1, 1, 1, 0, 0, 0, 0].as_slice())
    );
    Ok(())
}

#[test]
fn twins_of_the_first_part(rt: HostRuntime) -> Result<(), Fail> {
    let mut plan = plan_of(Kind::HollowDist, 0);
    plan.sig_bits = 0;
    let twins = match numbered(&rt, &plan, &[b"a", b"b", b"c"])? {
        Assembled::SeedFailed(fault) => twins_in(fault),
        Assembled::Words(_) => None,
    };
    assert_eq!(rt; twins, Some((0, 0, 1)));
    Ok(())
}

// three numbers of 64 bits: the last words of the signatures of a, b and c with seed 0
const KEPT: [u64; 5] = [
    3,
    64,
    0xC64F_75B3_1843_23FF,
    0x5987_EA23_E098_0056,
    0x42A3_8ADE_B388_42BD,
];

#[test]
fn signatures_behind_sums(rt: HostRuntime) -> Result<(), Fail> {
    let front = [0x3150_4D55_4458_5553, 22, 3, 0, 3, 0, 192, 0, 64, 0];
    let words = ranked(&rt, &signed_plan(Kind::Hollow, 64), &[b"a", b"b", b"c"])?;
    assert_eq!(rt; words.get(..10), Some(front.as_slice()));
    assert_eq!(rt; words.get(10..17), Some([3, 3, 21, 3, 7, 0, 49].as_slice()));
    assert_eq!(rt; words.get(17..), Some(KEPT.as_slice()));
    Ok(())
}

#[test]
fn signatures_behind_functions(rt: HostRuntime) -> Result<(), Fail> {
    let words = ranked(&rt, &signed_plan(Kind::Func, 8), &[b"a", b"b"])?;
    assert!(rt; words.ends_with(&[2, 8, 0x59C6]));
    let words = ranked(&rt, &signed_plan(Kind::Lcp, 64), &[b"a", b"b", b"c"])?;
    assert!(rt; words.ends_with(&KEPT));
    let words = ranked(&rt, &signed_plan(Kind::Lcp2, 64), &[b"a", b"b", b"c"])?;
    assert!(rt; words.ends_with(&KEPT));
    let words = ranked(&rt, &signed_plan(Kind::HollowDist, 64), &[b"a", b"b", b"c"])?;
    assert!(rt; words.ends_with(&KEPT));
    Ok(())
}
