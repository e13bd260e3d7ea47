//! Dumps of kind `zfast` as text, and their corrections.

use crate::open_tests::shown;
use std::test::Fail;

/// The dump without keys, in blocks of 32, with handles of 32 bits.
const NONE: [u64; 35] = [
    0x3150_4D55_4458_5553,
    35,
    5,
    0,
    0,
    0,
    192,
    5,
    0,
    32,
    0,
    0,
    0,
    0,
    0,
    0,
    0,
    0,
    0,
    0,
    0,
    0,
    0,
    0,
    0,
    0,
    0,
    32,
    0,
    0,
    0,
    0,
    0,
    0,
    0,
];

/// A dump of two keys in one block, each of which has a correction.
const CORRECTED: [u64; 42] = [
    0x3150_4D55_4458_5553,
    42,
    5,
    0,
    2,
    0,
    192,
    5,
    0,
    8,
    0,
    2,
    0,
    0,
    0,
    0,
    0,
    0,
    0,
    0,
    0,
    0,
    0,
    0,
    0,
    0,
    0,
    8,
    0,
    2,
    0,
    0,
    2,
    1,
    2,
    3,
    1,
    2,
    u64::MAX,
    2,
    2,
    4,
];

#[test]
fn no_corrections_are_shown(rt: HostRuntime) -> Result<(), Fail> {
    let text =
        b"layout 1\nkind zfast\nmethod mwhc\nkeys 0\nseed 0\nsig-bits 192\nlog-bucket 5\nsigned 0\nhandle-bits 32\nfunction offsets width 0 pairs 0 chunks 1 cells 0\nchunk 0 segment 0 try 0\nlist extents count 0 width 0\nlist firsts count 0 width 0\nlist middles count 0 width 0\nlist afters count 0 width 0\nfunction handles width 0 pairs 0 chunks 1 cells 0\nchunk 0 segment 0 try 0\nlist marks count 0 width 32\nfunction codes width 0 pairs 0 chunks 1 cells 0\nchunk 0 segment 0 try 0\ncorrections 0\nlist blocks count 0 width 0\n".as_slice();
    let (out, failed) = shown(rt.alloc(), &NONE, 4096)?;
    assert!(rt; !failed);
    assert_eq!(rt; out.bytes(), text);
    Ok(())
}

#[test]
fn corrections_are_shown(rt: HostRuntime) -> Result<(), Fail> {
    let text =
        b"layout 1\nkind zfast\nmethod mwhc\nkeys 2\nseed 0\nsig-bits 192\nlog-bucket 5\nsigned 0\nhandle-bits 8\nfunction offsets width 0 pairs 2 chunks 1 cells 0\nchunk 0 segment 0 try 0\nlist extents count 0 width 0\nlist firsts count 0 width 0\nlist middles count 0 width 0\nlist afters count 0 width 0\nfunction handles width 0 pairs 0 chunks 1 cells 0\nchunk 0 segment 0 try 0\nlist marks count 0 width 8\nfunction codes width 0 pairs 2 chunks 1 cells 0\nchunk 0 segment 0 try 0\ncorrections 2\ncorrection 0 1 2 3\ncorrection 1 1 2 18446744073709551615\nlist blocks count 2 width 2\nitem 0 0\nitem 1 1\n".as_slice();
    let (out, failed) = shown(rt.alloc(), &CORRECTED, 4096)?;
    assert!(rt; !failed);
    assert_eq!(rt; out.bytes(), text);
    let (out, failed) = shown(rt.alloc(), &CORRECTED, 500)?;
    assert!(rt; failed);
    assert_eq!(rt; out.bytes(), &text[..500]);
    Ok(())
}
