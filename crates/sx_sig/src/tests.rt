//! Signatures and places that were computed elsewhere.

use crate::{
    Method, Places, Signature, Twins, chunk_bits, chunk_of, chunks_of, first_twins, has_twins,
    places, segment, sign, top_bits,
};
use std::test::Fail;
use sx_bits::BitView;

#[test]
fn signs(rt: HostRuntime) -> Result<(), Fail> {
    let key = BitView::key_bits(b"a");
    let whole = Signature {
        w0: 0xDAAB_2149_4F25_9E28,
        w1: 0x3F83_DFAC_080B_8640,
        w2: 0xC64F_75B3_1843_23FF,
    };
    assert_eq!(rt; sign(0, &key, None, 192), whole);
    let first_70 = Signature {
        w0: 0xDAAB_2149_4F25_9E28,
        w1: 0x3C00_0000_0000_0000,
        w2: 0,
    };
    assert_eq!(rt; sign(0, &key, None, 70), first_70);
    let byte = BitView::key_bits(b"\xa0");
    assert_eq!(rt; byte.len(), 16);
    let bits = byte.range(0, 3);
    let tagged = Signature {
        w0: 0xD054_517A_B22B_85A0,
        w1: 0x485E_84BB_3F4F_FDF9,
        w2: 0xA4AB_313E_503F_D650,
    };
    assert_eq!(rt; sign(1, &bits, Some(3), 192), tagged);
    assert_eq!(rt; top_bits(&whole, 8), 0xC6);
    assert_eq!(rt; chunk_of(&whole, 4), 0xD);
    Ok(())
}

#[test]
fn places_of_zero(rt: HostRuntime) -> Result<(), Fail> {
    let zero = Signature {
        w0: 0,
        w1: 0,
        w2: 0,
    };
    let rows = [
        (0, 3, Places { a: 2, b: 5, c: 8 }),
        (1, 3, Places { a: 1, b: 4, c: 7 }),
        (2, 3, Places { a: 0, b: 3, c: 6 }),
        (0, 2, Places { a: 1, b: 3, c: 5 }),
    ];
    for (t, s, want) in rows {
        if t <= 63 && 1 <= s && s <= 3 {
            assert_eq!(rt; places(&zero, t, s), want);
        }
    }
    Ok(())
}

#[test]
fn sizes(rt: HostRuntime) -> Result<(), Fail> {
    assert_eq!(rt; segment(Method::Mwhc, 0), 0);
    assert_eq!(rt; segment(Method::Mwhc, 1000), 412);
    assert_eq!(rt; segment(Method::Gov3, 1000), 368);
    for (pairs, want) in [
        (0, 0),
        (1024, 0),
        (1025, 1),
        (2048, 1),
        (2049, 2),
        (u32::MAX, 22),
    ] {
        assert_eq!(rt; chunk_bits(pairs), want, "at {pairs}");
    }
    Ok(())
}

fn named(w0: u64) -> Signature {
    Signature { w0, w1: 0, w2: 0 }
}

#[test]
fn numbers_by_chunk(rt: HostRuntime) -> Result<(), Fail> {
    let half = 1 << 63;
    let sigs = [named(0), named(half), named(1), named(half + 1)];
    let chunks = chunks_of(rt.alloc(), &sigs, 1)?;
    assert_eq!(rt; chunks.len(), 2);
    for (chunk, want) in chunks.iter().zip([[0, 2], [1, 3]]) {
        assert_eq!(rt; chunk.as_slice(), want.as_slice());
    }
    assert!(rt; first_twins(rt.alloc(), &sigs, &chunks)?.is_none());
    assert!(rt; !has_twins(rt.alloc(), &sigs)?);
    Ok(())
}

#[test]
fn finds_the_first_twins(rt: HostRuntime) -> Result<(), Fail> {
    let five = Signature {
        w0: 5,
        w1: 5,
        w2: 5,
    };
    let sigs = [named(9), five, named(2), five, named(2), five];
    let chunks = chunks_of(rt.alloc(), &sigs, 0)?;
    let want = Some(Twins {
        first: 1,
        second: 3,
    });
    assert_eq!(rt; first_twins(rt.alloc(), &sigs, &chunks)?, want);
    assert!(rt; has_twins(rt.alloc(), &sigs)?);
    Ok(())
}
