//! What is told of a few cases.
use super::*;
use std::alloc::Global;
use std::test::Fail;

/// The text on the cases, as those of seed 7.
fn told(alloc: Global, tally: &Tally) -> Result<Vec<u8>, Fail> {
    let mut text = Vec::new(alloc);
    tally.tell(&mut text, 7)?;
    Ok(text)
}

#[test]
fn counts_are_told(rt: HostRuntime) -> Result<(), Fail> {
    let mut tally = Tally::new();
    for check in [18, 1, 1] {
        tally.count(Ok(Outcome::Refused { check }));
    }
    assert!(rt; tally.broken().is_none());
    let text = b"cases 3 opened 0\ncheck 1: 2\ncheck 18: 1\n".as_slice();
    assert_eq!(rt; told(rt.alloc(), &tally)?.as_slice(), text);
    Ok(())
}

#[test]
fn the_first_broken_bound_is_told(rt: HostRuntime) -> Result<(), Fail> {
    let mut tally = Tally::new();
    tally.count(Ok(Outcome::Refused { check: 2 }));
    tally.count(Err(Broken::Reads { reads: 9, most: 8 }));
    tally.count(Err(Broken::Again));
    assert!(rt; tally.broken().is_some());
    let text = told(rt.alloc(), &tally)?;
    let counts = b"cases 3 opened 0\ncheck 2: 1\n".as_slice();
    let first = b"case 2 of seed 7: a reply takes 9 reads, and 8 are allowed\n".as_slice();
    assert_eq!(rt; text.strip_prefix(counts), Some(first));
    Ok(())
}

#[test]
fn other_checks_break_a_bound(rt: HostRuntime) -> Result<(), Fail> {
    for check in [0, 19] {
        let mut tally = Tally::new();
        tally.count(Ok(Outcome::Refused { check }));
        assert!(rt; tally.broken().is_some());
    }
    Ok(())
}
