//! Parts of blocks of two keys, of a last block of one key, of the longest keys on both sides of where
//! a full block ends, and of no key.

use crate::lcp_parts;
use std::process::Abort;
use std::test::Fail;
use sx_bits::{KeyList, Limits, Piece};

/// The first `to` bits of a key.
fn piece(key: u32, to: u32) -> Piece {
    Piece {
        tag: None,
        key,
        from: 0,
        to,
    }
}

#[test]
fn blocks_of_two_keys(rt: HostRuntime) -> Result<(), Fail> {
    let mut keys = KeyList::new(rt.alloc(), Limits::standard());
    keys.push(b"a")?;
    keys.push(b"b")?;
    keys.push(b"c")?;
    keys.push(b"d")?;
    assert_eq!(rt; keys.len(), 4);
    let parts = lcp_parts(rt.alloc(), &keys, 1)?;
    assert_eq!(rt; parts.lengths.as_slice(), [6, 6, 5, 5].as_slice());
    let prefixes = [piece(0, 6), piece(2, 5)];
    assert_eq!(rt; parts.prefixes.as_slice(), prefixes.as_slice());
    let mut buf = [0u8; 64];
    for (key, len, bits) in [(0, 6, 0b0110_0000), (2, 5, 0b0110_0000)] {
        assert!(rt; key < keys.len());
        let view = keys.view(key);
        assert!(rt; len < view.len());
        assert_eq!(rt; view.prefix(len).fill(0, &mut buf), 1);
        assert_eq!(rt; buf[0], bits);
    }
    Ok(())
}

#[test]
fn a_last_block_of_one_key(rt: HostRuntime) -> Result<(), Fail> {
    let mut keys = KeyList::new(rt.alloc(), Limits::standard());
    keys.push(b"c")?;
    keys.push(b"d")?;
    keys.push(b"e")?;
    let parts = lcp_parts(rt.alloc(), &keys, 1)?;
    assert_eq!(rt; parts.lengths.as_slice(), [5, 5, 16].as_slice());
    let prefixes = [piece(0, 5), piece(2, 16)];
    assert_eq!(rt; parts.prefixes.as_slice(), prefixes.as_slice());
    Ok(())
}

/// So many short keys that with the first of the longest keys, which end as told, a block is full.
fn longest_keys(rt: &(impl Abort + AllocGlobal), ends: &[u8]) -> Result<KeyList, Fail> {
    let mut keys = KeyList::new(rt.alloc(), Limits::standard());
    for number in 0..4095u32 {
        let line = [b'x', b'x', (1 + number / 64) as u8, (1 + number % 64) as u8];
        assert!(rt; matches!(keys.push(&line), Ok(())));
    }
    let mut line = vec![in rt.alloc(); b'x'; 8191]?;
    for end in ends {
        line[8190] = *end;
        assert!(rt; matches!(keys.push(&line), Ok(())));
    }
    Ok(keys)
}

#[test]
fn the_longest_key_behind_a_full_block(rt: HostRuntime) -> Result<(), Fail> {
    let keys = longest_keys(&rt, b"ab")?;
    let parts = lcp_parts(rt.alloc(), &keys, 12)?;
    assert_eq!(rt; parts.lengths.len(), 4097);
    assert_eq!(rt; parts.lengths.get(4095), Some(&17));
    assert_eq!(rt; parts.lengths.get(4096), Some(&65536));
    let prefixes = [piece(0, 17), piece(4096, 65536)];
    assert_eq!(rt; parts.prefixes.as_slice(), prefixes.as_slice());
    Ok(())
}

#[test]
fn the_longest_keys_behind_a_full_block(rt: HostRuntime) -> Result<(), Fail> {
    // the bytes b and c share seven bits
    let keys = longest_keys(&rt, b"abc")?;
    let parts = lcp_parts(rt.alloc(), &keys, 12)?;
    assert_eq!(rt; parts.lengths.len(), 4098);
    assert_eq!(rt; parts.lengths.get(4095), Some(&17));
    assert_eq!(rt; parts.lengths.get(4096), Some(&65527));
    assert_eq!(rt; parts.lengths.get(4097), Some(&65527));
    let prefixes = [piece(0, 17), piece(4096, 65527)];
    assert_eq!(rt; parts.prefixes.as_slice(), prefixes.as_slice());
    Ok(())
}

#[test]
fn no_key(rt: HostRuntime) -> Result<(), Fail> {
    let keys = KeyList::new(rt.alloc(), Limits::standard());
    let parts = lcp_parts(rt.alloc(), &keys, 12)?;
    assert!(rt; parts.lengths.is_empty());
    assert!(rt; parts.prefixes.is_empty());
    Ok(())
}
