//! Words of small dumps, and seeds that don't work.

ghost use Rattle.std.specs.Prelude.{◌≡◌, ◌≢◌, length};
ghost use Rattle.sx_spec.specs.Values.{plain_values};
ghost use Rattle.sx_spec_program.specs.Program.{IsOfferedPlan};
ghost use Rattle.sx_steps.specs.Blanks.{IsBlankOf};

use std::alloc::{AllocError, Global};
use std::marker::Brand;
use std::process::Abort;
use std::sync::ledger::{Blank, Ledger};
use std::test::Fail;
use sx_assemble::assemble;
use sx_bits::KeyList;
use sx_parts::{Assembled, PartCause, PartFault};
use sx_sig::{Kind, Method, Plan};
use sx_spec::Limits;
use sx_steps::Steps;

/// Keys of at most 8,191 bytes, in order.
pub(crate) fn keys_of(rt: &(impl Abort + AllocGlobal), lines: &[&[u8]]) -> Result<KeyList, Fail> {
    let mut keys = KeyList::new(rt.alloc(), Limits::standard());
    for line in lines {
        assert!(rt; line.len() <= 8191);
        assert!(rt; matches!(keys.push(line), Ok(())));
    }
    Ok(keys)
}

/// What keys and values come to with seed 0, under a fresh count of steps.
pub(crate) fn assembled_under<L: Ledger>(
    alloc: Global,
    keys: &KeyList,
    values: &[u64],
    plan: &Plan,
    blank: Blank,
) -> Result<Assembled, AllocError>
    requires blank { IsBlankOf L.Ledger blank }
    requires plan { IsOfferedPlan plan.now }
    requires values { length values.now ≡ length keys.now.lines }
    requires ranks { plan.now.signed ≢ 0
        → values.now ≡ plain_values (length keys.now.lines) }
{
    let mut steps = Steps::<L>::new(blank);
    assemble(alloc, keys, values, plan, 0, &mut steps)
}

/// What keys and values come to with seed 0 and signatures of so many bits.
fn assembled(
    rt: &(impl Abort + AllocGlobal),
    plan: (Method, u32),
    lines: &[&[u8]],
    values: &[u64],
) -> Result<Assembled, Fail> {
    let keys = keys_of(rt, lines)?;
    let plan = Plan {
        kind: Kind::Func,
        method: plan.0,
        log_bucket: 0,
        sig_bits: plan.1,
        handle_bits: 0,
        signed: 0,
    };
    assert!(rt; plan.sig_bits <= 192);
    assert!(rt; values.len() == keys.len() as usize);
    let blank = Blank::new(1);
    Ok(assembled_under::<Brand>(rt.alloc(), &keys, values, &plan, blank)?)
}

/// The words of the dump of keys and values, for which seed 0 works.
fn words_with(
    rt: &(impl Abort + AllocGlobal),
    method: Method,
    lines: &[&[u8]],
    values: &[u64],
) -> Result<Vec<u64>, Fail> {
    let words = match assembled(rt, (method, 192), lines, values)? {
        Assembled::Words(words) => Some(words),
        Assembled::SeedFailed(_) => None,
    };
    Ok(words.ok_or("the seed fails")?)
}

/// The part and the numbers of twins.
pub(crate) fn twins_in(fault: PartFault) -> Option<(u32, u32, u32)> {
    let PartFault { part, cause } = fault;
    match cause {
        PartCause::Twins { first, second } => Some((part, first, second)),
        PartCause::Stuck { .. } => None,
    }
}

#[test]
fn no_keys(rt: HostRuntime) -> Result<(), Fail> {
    let words = words_with(&rt, Method::Mwhc, &[], &[])?;
    let want = [
        0x3150_4D55_4458_5553,
        14,
        0,
        0,
        0,
        0,
        192,
        0,
        0,
        0,
        0,
        0,
        0,
        0,
    ];
    assert_eq!(rt; words.as_slice(), want.as_slice());
    Ok(())
}

#[test]
fn the_longest_key(rt: HostRuntime) -> Result<(), Fail> {
    let line = vec![in rt.alloc(); b'x'; 8191]?;
    let words = words_with(&rt, Method::Gov3, &[&line], &[0])?;
    let want = [
        0x3150_4D55_4458_5553,
        14,
        0,
        1,
        1,
        0,
        192,
        0,
        0,
        0,
        0,
        1,
        0,
        6,
    ];
    assert_eq!(rt; words.as_slice(), want.as_slice());
    Ok(())
}

#[test]
fn widths_of_values(rt: HostRuntime) -> Result<(), Fail> {
    let words = words_with(&rt, Method::Mwhc, &[b"a", b"b"], &[10, 7])?;
    assert_eq!(rt; words.len(), 15);
    assert_eq!(rt; words.get(10), Some(&4));
    assert_eq!(rt; words.get(13), Some(&6));
    let words = words_with(&rt, Method::Mwhc, &[b"a"], &[u64::MAX])?;
    assert_eq!(rt; words.len(), 20);
    assert_eq!(rt; words.get(10), Some(&64));
    Ok(())
}

#[test]
fn signatures_of_no_bits_are_twins(rt: HostRuntime) -> Result<(), Fail> {
    let lines: [&[u8]; 3] = [b"a", b"b", b"c"];
    let twins = match assembled(&rt, (Method::Mwhc, 0), &lines, &[0, 1, 2])? {
        Assembled::SeedFailed(fault) => twins_in(fault),
        Assembled::Words(_) => None,
    };
    assert_eq!(rt; twins, Some((0, 0, 1)));
    Ok(())
}
