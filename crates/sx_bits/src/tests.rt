//! Bit strings and key lists of a few bytes.

use crate::{BitView, KeyFault, KeyList, Limits, Piece};
use std::cmp::Ordering;
use std::test::Fail;

#[test]
fn packs_from_any_bit(rt: HostRuntime) -> Result<(), Fail> {
    let view = BitView::key_bits(b"ab");
    assert_eq!(rt; view.len(), 24);
    let mut buf = [0xffu8; 64];
    assert_eq!(rt; view.fill(0, &mut buf), 3);
    assert_eq!(rt; &buf[..4], [0x61, 0x62, 0, 0xff].as_slice());
    assert_eq!(rt; view.fill(4, &mut buf), 3);
    assert_eq!(rt; &buf[..3], [0x16, 0x20, 0].as_slice());
    let first = view.prefix(9);
    assert_eq!(rt; first.len(), 9);
    assert_eq!(rt; first.range(1, 9).fill(0, &mut buf), 1);
    assert_eq!(rt; buf[0], 0xc2);
    assert_eq!(rt; view.range(1, 7).fill(0, &mut buf), 1);
    assert_eq!(rt; buf[0], 0xc0);
    assert_eq!(rt; view.fill(24, &mut buf), 0);
    assert!(rt; view.bit(1));
    assert!(rt; !view.bit(23));
    Ok(())
}

#[test]
fn compares(rt: HostRuntime) -> Result<(), Fail> {
    let ends = BitView::key_bits(b"a prefix");
    let rows: [(&[u8], u32, Ordering); 5] = [
        (b"a prefix", 72, Ordering::Equal),
        (b"a prefix of it", 66, Ordering::Less),
        (b"a prefiy", 63, Ordering::Less),
        (b"a prefh", 55, Ordering::Greater),
        (b"", 1, Ordering::Greater),
    ];
    for (line, common, order) in rows {
        assert!(rt; line.len() < 20);
        let other = BitView::key_bits(line);
        assert_eq!(rt; ends.lcp(&other), common);
        assert_eq!(rt; ends.order(&other), order);
    }
    assert_eq!(rt; ends.len(), 72);
    let front = ends.prefix(70);
    assert_eq!(rt; front.order(&ends), Ordering::Less);
    assert_eq!(rt; front.lcp(&ends), 70);
    Ok(())
}

#[test]
fn refuses_the_first_fault(rt: HostRuntime) -> Result<(), Fail> {
    let limits = Limits {
        max_keys: 3,
        ..Limits::standard()
    };
    let mut keys = KeyList::new(rt.alloc(), limits);
    assert_eq!(rt; keys.push(b"a"), Ok(()));
    assert_eq!(rt; keys.push(b"b"), Ok(()));
    assert_eq!(rt; keys.push(b"c"), Ok(()));
    assert_eq!(rt; keys.push(b"d"), Err(KeyFault::TooManyKeys));
    assert_eq!(rt; keys.push(b"c"), Err(KeyFault::Doubled));
    assert_eq!(rt; keys.push(b"a"), Err(KeyFault::Unordered));
    assert_eq!(rt; keys.push(b"\0"), Err(KeyFault::ZeroByte));
    assert_eq!(rt; keys.len(), 3);
    assert_eq!(rt; keys.get(2), b"c".as_slice());
    let key = keys.view(0);
    assert_eq!(rt; key.len(), 16);
    Ok(())
}

#[test]
fn counts_bytes(rt: HostRuntime) -> Result<(), Fail> {
    let limits = Limits {
        max_bytes: 2,
        ..Limits::standard()
    };
    let mut keys = KeyList::new(rt.alloc(), limits);
    assert_eq!(rt; keys.push(b"a"), Ok(()));
    assert_eq!(rt; keys.push(b"b"), Ok(()));
    assert_eq!(rt; keys.push(b"c"), Err(KeyFault::TooManyBytes));
    Ok(())
}
