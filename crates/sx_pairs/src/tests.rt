//! Pairs of few keys.

ghost use Rattle.std.specs.Prelude.{◌≤◌, length};

use crate::{NodePair, Turn, pairs};
use std::alloc::{AllocError, Global};
use std::test::Fail;
use sx_bits::{KeyList, Limits, Piece};

/// A pair with the bits of key number `key` from `from` up to before `to`.
fn pair(tag: u32, key: u32, from: u32, to: u32, turn: Turn) -> NodePair {
    NodePair {
        piece: Piece {
            tag: Some(tag),
            key,
            from,
            to,
        },
        turn,
    }
}

/// The pairs of four keys or more with the first three as delimiters.
fn pairs_of_three(alloc: Global, keys: &KeyList) -> Result<Vec<NodePair>, AllocError>
    requires { 3 ≤ length keys.now.lines }
{
    pairs(alloc, keys, &[0, 1, 2])
}

/// The pairs of the keys with the first as delimiter.
fn pairs_of_one(alloc: Global, keys: &KeyList) -> Result<Vec<NodePair>, AllocError>
    requires { 1 ≤ length keys.now.lines }
{
    pairs(alloc, keys, &[0])
}

#[test]
fn pairs_of_few_keys(rt: HostRuntime) -> Result<(), Fail> {
    let mut keys = KeyList::new(rt.alloc(), Limits::standard());
    keys.push(b"a")?;
    keys.push(b"b")?;
    let found = pairs(rt.alloc(), &keys, &[])?;
    assert_eq!(rt; found.len(), 0);
    assert_eq!(rt; keys.len(), 2);
    let found = pairs_of_one(rt.alloc(), &keys)?;
    let want = [
        pair(0, 0, 0, 16, Turn::Left),
        pair(0, 1, 0, 16, Turn::Right),
    ];
    assert_eq!(rt; found.as_slice(), want.as_slice());
    keys.push(b"c")?;
    keys.push(b"d")?;
    assert_eq!(rt; keys.len(), 4);
    let found = pairs_of_three(rt.alloc(), &keys)?;
    // a, b, c and d are 01100001, 01100010, 01100011 and 01100100, with eight zero bits behind each
    let want = [
        pair(0, 0, 0, 6, Turn::Follow),
        pair(0, 3, 0, 6, Turn::Right),
        pair(1, 1, 7, 7, Turn::Follow),
        pair(2, 0, 7, 16, Turn::Left),
        pair(3, 1, 8, 16, Turn::Left),
        pair(4, 2, 8, 16, Turn::Left),
    ];
    assert_eq!(rt; found.as_slice(), want.as_slice());
    assert_eq!(rt;
        (
            Turn::Follow.number(),
            Turn::Left.number(),
            Turn::Right.number()
        ),
        (0, 1, 2)
    );
    Ok(())
}
