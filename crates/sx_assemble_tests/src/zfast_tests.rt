//! Words of small dumps of distributors that keep handles.

ghost use Rattle.std.specs.Prelude.{◌≡◌, ◌≤◌};
ghost use Rattle.sx_spec.specs.declared.Method.TheVariants.{Mwhc};
ghost use Rattle.sx_spec_kinds.specs.declared.Kind.TheVariants.{Zfast};

use crate::ranked_tests::{head_at, numbered, ranked};
use crate::tests::twins_in;
use std::test::Fail;
use sx_parts::Assembled;
use sx_sig::{Kind, Method, Plan};

/// A plan with blocks of one key.
fn plan_of(sig_bits: u32, handle_bits: u32) -> Plan
    ensures { result ≡ record {
      kind = Zfast;
      method = Mwhc;
      log_bucket = 0;
      sig_bits = sig_bits;
      handle_bits = handle_bits;
      signed = 0;
    } }
{
    Plan {
        kind: Kind::Zfast,
        method: Method::Mwhc,
        log_bucket: 0,
        sig_bits,
        handle_bits,
        signed: 0,
    }
}

#[test]
fn no_keys(rt: HostRuntime) -> Result<(), Fail> {
    let words = ranked(&rt, &plan_of(192, 8), &[])?;
    assert_eq!(rt; words.len(), 35);
    Ok(())
}

#[test]
fn nodes_and_handles(rt: HostRuntime) -> Result<(), Fail> {
    let words = ranked(&rt, &plan_of(192, 8), &[b"a", b"b", b"c", b"d"])?;
    assert_eq!(rt; head_at(&words, 10), Some((0, 4)));
    // a and b begin with the same 6 bits, b and c with the same 7
    assert_eq!(rt;
        words.get(14..26),
        Some(&[2, 3, 62, 2, 1, 2, 2, 2, 9, 2, 2, 15][..])
    );
    assert_eq!(rt; head_at(&words, 26), Some((0, 1)));
    assert_eq!(rt; head_at(&words, 30), Some((1, 8)));
    // the codes are 2 2 2 1
    assert_eq!(rt; head_at(&words, 33), Some((2, 4)));
    Ok(())
}

#[test]
fn a_key_that_is_misled(rt: HostRuntime) -> Result<(), Fail> {
    // with nothing kept of it, each string passes for the one handle; that misleads a alone
    let words = ranked(&rt, &plan_of(192, 0), &[b"a", b"b", b"c", b"d"])?;
    let end = words.len();
    assert!(rt; end >= 6);
    assert_eq!(rt; words.get(end - 6), Some(&1));
    assert_eq!(rt; words.get(end - 2..), Some(&[1, 0][..]));
    Ok(())
}

#[test]
fn twins_of_the_offsets(rt: HostRuntime) -> Result<(), Fail> {
    let twins = match numbered(&rt, &plan_of(0, 8), &[b"a", b"b"])? {
        Assembled::SeedFailed(fault) => twins_in(fault),
        Assembled::Words(_) => None,
    };
    assert_eq!(rt; twins, Some((0, 0, 1)));
    Ok(())
}
