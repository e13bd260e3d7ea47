//! Lists after pushes and unlinks, as they are read back.

use crate::{Links, Seat};
use std::test::Fail;

#[test]
fn two_items_on_one_list(rt: HostRuntime) -> Result<(), Fail> {
    let mut links = Links::new(rt.alloc(), 2, 1, 1)?;
    links.push(0, 0, 0);
    links.push(0, 1, 0);
    assert_eq!(rt; links.len(0), 2);
    assert_eq!(rt; links.first(0), Some(Seat { item: 1, hook: 0 }));
    assert_eq!(rt; links.next(1, 0), Some(Seat { item: 0, hook: 0 }));
    links.unlink(1, 0);
    assert_eq!(rt; links.list_of(1, 0), None);
    assert_eq!(rt; links.first(0), Some(Seat { item: 0, hook: 0 }));
    assert_eq!(rt; links.next(0, 0), None);
    Ok(())
}

#[test]
fn a_seat_between_two_is_taken_out(rt: HostRuntime) -> Result<(), Fail> {
    let mut links = Links::new(rt.alloc(), 2, 2, 3)?;
    links.push(1, 0, 2);
    links.push(1, 1, 0);
    links.push(1, 1, 1);
    links.push(0, 0, 1);
    links.unlink(1, 0);
    assert_eq!(rt; links.len(0), 1);
    assert_eq!(rt; links.first(0), Some(Seat { item: 0, hook: 1 }));
    assert_eq!(rt; links.len(1), 2);
    assert_eq!(rt; links.first(1), Some(Seat { item: 1, hook: 1 }));
    assert_eq!(rt; links.next(1, 1), Some(Seat { item: 0, hook: 2 }));
    assert_eq!(rt; links.next(0, 2), None);
    assert_eq!(rt; links.list_of(0, 2), Some(1));
    assert_eq!(rt; links.list_of(1, 2), None);
    Ok(())
}

#[test]
fn a_list_is_emptied_and_filled_again(rt: HostRuntime) -> Result<(), Fail> {
    let mut links = Links::new(rt.alloc(), 1, 2, 3)?;
    links.push(0, 0, 0);
    links.push(0, 0, 1);
    links.unlink(0, 0);
    links.unlink(0, 1);
    assert_eq!(rt; links.len(0), 0);
    assert_eq!(rt; links.first(0), None);
    links.push(1, 0, 1);
    links.push(0, 0, 0);
    assert_eq!(rt; links.first(0), Some(Seat { item: 0, hook: 0 }));
    assert_eq!(rt; links.next(0, 0), None);
    assert_eq!(rt; links.first(1), Some(Seat { item: 0, hook: 1 }));
    Ok(())
}
