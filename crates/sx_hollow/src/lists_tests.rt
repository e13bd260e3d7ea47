//! Lists of three keys, of one key and of no key.

ghost use Rattle.std.specs.Prelude.{◌≤◌, length};

use crate::{HollowLists, hollow_lists};
use std::alloc::{AllocError, Global};
use std::test::Fail;
use sx_bits::{KeyList, Limits};

/// The lists of three of three keys or more.
fn lists_of_three(alloc: Global, keys: &KeyList) -> Result<HollowLists, AllocError>
    requires { 3 ≤ length keys.now.lines }
{
    hollow_lists(alloc, keys, &[0, 1, 2])
}

/// The lists of the first key.
fn lists_of_one(alloc: Global, keys: &KeyList) -> Result<HollowLists, AllocError>
    requires { 1 ≤ length keys.now.lines }
{
    hollow_lists(alloc, keys, &[0])
}

#[test]
fn lists_of_few_keys(rt: HostRuntime) -> Result<(), Fail> {
    let mut keys = KeyList::new(rt.alloc(), Limits::standard());
    keys.push(b"a")?;
    keys.push(b"b")?;
    keys.push(b"c")?;
    assert_eq!(rt; keys.len(), 3);
    let found = lists_of_three(rt.alloc(), &keys)?;
    assert_eq!(rt; found.left.as_slice(), [1, 1].as_slice());
    assert_eq!(rt; found.skip.as_slice(), [6, 0].as_slice());
    let found = lists_of_one(rt.alloc(), &keys)?;
    assert_eq!(rt; (found.left.len(), found.skip.len()), (0, 0));
    let found = hollow_lists(rt.alloc(), &keys, &[])?;
    assert_eq!(rt; (found.left.len(), found.skip.len()), (0, 0));
    Ok(())
}
