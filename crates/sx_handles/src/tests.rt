//! Handles and codes of a few keys.

ghost use Rattle.std.specs.Prelude.{◌≤◌, length};
ghost use Rattle.sx_trie.specs.Tries.{AreRising};

use crate::{ZfastParts, zfast_parts};
use std::alloc::{AllocError, Global};
use std::test::Fail;
use sx_bits::{KeyList, Limits, Piece};
use sx_trie::Trie;

/// The parts of keys with some of them as delimiters.
fn parts_by(alloc: Global, keys: &KeyList, delimiters: &[u32]) -> Result<ZfastParts, AllocError>
    requires { AreRising keys.now.lines delimiters.now }
{
    let trie = Trie::build(alloc, keys, delimiters)?;
    zfast_parts(alloc, keys, delimiters, &trie)
}

/// The parts of three keys or more with the first three as delimiters.
fn parts_by_three(alloc: Global, keys: &KeyList) -> Result<ZfastParts, AllocError>
    requires { 3 ≤ length keys.now.lines }
{
    parts_by(alloc, keys, &[0, 1, 2])
}

/// The parts of two keys or more with the first two as delimiters.
fn parts_by_two(alloc: Global, keys: &KeyList) -> Result<ZfastParts, AllocError>
    requires { 2 ≤ length keys.now.lines }
{
    parts_by(alloc, keys, &[0, 1])
}

/// The parts of three keys or more with the second and the third as delimiters.
fn parts_by_last_two(alloc: Global, keys: &KeyList) -> Result<ZfastParts, AllocError>
    requires { 3 ≤ length keys.now.lines }
{
    parts_by(alloc, keys, &[1, 2])
}

/// The parts of one key or more with the first as the only delimiter.
fn parts_by_one(alloc: Global, keys: &KeyList) -> Result<ZfastParts, AllocError>
    requires { 1 ≤ length keys.now.lines }
{
    parts_by(alloc, keys, &[0])
}

#[test]
fn parts_of_four_keys(rt: HostRuntime) -> Result<(), Fail> {
    let mut keys = KeyList::new(rt.alloc(), Limits::standard());
    keys.push(b"a")?;
    keys.push(b"b")?;
    keys.push(b"c")?;
    keys.push(b"d")?;
    assert_eq!(rt; keys.len(), 4);
    let parts = parts_by_three(rt.alloc(), &keys)?;
    let handle = Piece {
        tag: None,
        key: 1,
        from: 0,
        to: 7,
    };
    assert_eq!(rt; parts.handles.as_slice(), [handle].as_slice());
    assert_eq!(rt; parts.codes.as_slice(), [2, 2, 2, 1].as_slice());
    Ok(())
}

#[test]
fn parts_of_three_keys(rt: HostRuntime) -> Result<(), Fail> {
    let mut keys = KeyList::new(rt.alloc(), Limits::standard());
    keys.push(b"a")?;
    keys.push(b"b")?;
    keys.push(b"c")?;
    assert_eq!(rt; keys.len(), 3);
    // the root has no handle
    let parts = parts_by_two(rt.alloc(), &keys)?;
    assert_eq!(rt; parts.handles.len(), 0);
    assert_eq!(rt; parts.codes.as_slice(), [2, 2, 3].as_slice());
    // the first key leaves the root's extent below both delimiters
    let parts = parts_by_last_two(rt.alloc(), &keys)?;
    assert_eq!(rt; parts.handles.len(), 0);
    assert_eq!(rt; parts.codes.as_slice(), [0, 2, 2].as_slice());
    Ok(())
}

#[test]
fn parts_by_one_delimiter_or_none(rt: HostRuntime) -> Result<(), Fail> {
    let mut keys = KeyList::new(rt.alloc(), Limits::standard());
    let parts = parts_by(rt.alloc(), &keys, &[])?;
    assert_eq!(rt; parts.handles.len(), 0);
    assert_eq!(rt; parts.codes.len(), 0);
    keys.push(b"a")?;
    keys.push(b"b")?;
    assert_eq!(rt; keys.len(), 2);
    let parts = parts_by_one(rt.alloc(), &keys)?;
    assert_eq!(rt; parts.handles.len(), 0);
    assert_eq!(rt; parts.codes.as_slice(), [0, 1].as_slice());
    Ok(())
}
