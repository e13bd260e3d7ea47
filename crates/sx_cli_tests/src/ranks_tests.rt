//! Whole runs of the kinds that give each key its rank.

use crate::tests::{comes_to, refuses, shelf_with_room};
use std::alloc::Global;
use std::process::Abort;
use std::test::Fail;
use sx_spec::Status;

/// Builds a dump of these keys, and asks it these lines.
pub(crate) fn answers(
    rt: &impl Abort,
    alloc: Global,
    line: &str,
    keys: &[u8],
    told: &[u8],
    lines: &[u8],
    ranks: &[u8],
) -> Result<(), Fail> {
    let mut files = shelf_with_room(alloc)?;
    let status = Status::Done;
    comes_to(rt, alloc, line, &mut files, keys, status, told, b"")?;
    comes_to(rt, alloc, "query D", &mut files, lines, status, ranks, b"")
}

#[test]
fn few_keys_have_their_ranks(rt: HostRuntime) -> Result<(), Fail> {
    let alloc = rt.alloc();
    let told = b"keys 0 seed 0 words 18\n";
    answers(&rt, alloc, "build lcp D", b"", told, b"x\n\n", b"-1\n-1\n")?;
    let told = b"keys 0 seed 0 words 28\n";
    answers(&rt, alloc, "build lcp2 D", b"", told, b"x\n\n", b"-1\n-1\n")?;
    let told = b"keys 1 seed 0 words 19\n";
    answers(&rt, alloc, "build lcp D", b"\n", told, b"\n", b"0\n")?;
    let told = b"keys 2 seed 0 words 31\n";
    answers(
        &rt,
        alloc,
        "build lcp2 D",
        b"a\r\nb\r\n",
        told,
        b"b\r\na\r\n",
        b"1\n0\n",
    )
}

#[test]
fn blocks_have_their_ranks(rt: HostRuntime) -> Result<(), Fail> {
    let alloc = rt.alloc();
    let keys = "apple\nbanana\ncherry\nfig\nzebra\né\n".as_bytes();
    let lines = "é\napple\nfig\n".as_bytes();
    let told = b"keys 6 seed 0 words 19\n";
    answers(&rt, alloc, "build lcp D", keys, told, lines, b"5\n0\n3\n")?;
    let told = b"keys 4 seed 0 words 32\n";
    let line = "build lcp2 D --log-bucket 1";
    answers(
        &rt,
        alloc,
        line,
        b"a\nb\nc\nd\n",
        told,
        b"d\nb\na\nc\n",
        b"3\n1\n0\n2\n",
    )
}

#[test]
fn hollow_tries_have_their_ranks(rt: HostRuntime) -> Result<(), Fail> {
    let alloc = rt.alloc();
    let line = "build hollow D";
    let told = b"keys 0 seed 0 words 16\n";
    answers(&rt, alloc, line, b"", told, b"x\n\n", b"-1\n-1\n")?;
    let told = b"keys 3 seed 0 words 17\n";
    let lines = b"a\nb\nc\na\0\nz\n\n";
    let ranks = b"0\n1\n2\n0\n1\n0\n";
    answers(&rt, alloc, line, b"a\nb\nc\n", told, lines, ranks)?;
    let line = "build hollow D --seeds 9,7 --sig-bits 0";
    let told = b"keys 1 seed 9 words 16\n";
    answers(&rt, alloc, line, b"a\n", told, b"a\n\nb\n", b"0\n0\n0\n")
}

/// In blocks of one the walk alone says the rank.
#[test]
fn hollow_distributors_have_their_ranks(rt: HostRuntime) -> Result<(), Fail> {
    let alloc = rt.alloc();
    let line = "build hollowdist D --log-bucket 0";
    let told = b"keys 4 seed 0 words 26\n";
    let keys = b"a\nb\nc\nd\n";
    answers(&rt, alloc, line, keys, told, keys, b"0\n1\n2\n3\n")?;
    let told = b"keys 0 seed 0 words 24\n";
    answers(&rt, alloc, line, b"", told, b"x\n\n", b"-1\n-1\n")?;
    let line = "build hollowdist D --signed 16 --log-bucket 1";
    let told = b"keys 4 seed 0 words 29\n";
    let lines = b"d\ne\nb\na\nc\n";
    answers(&rt, alloc, line, keys, told, lines, b"3\n-1\n1\n0\n2\n")
}

/// Of each kind a dump in which a number of each key is kept. A stranger has another.
#[test]
fn signed_keys_have_their_ranks(rt: HostRuntime) -> Result<(), Fail> {
    let alloc = rt.alloc();
    let line = "build hollow D --signed 64";
    let told = b"keys 3 seed 0 words 22\n";
    let lines = b"a\nb\nc\na\0\nz\n\n";
    let ranks = b"0\n1\n2\n-1\n-1\n-1\n";
    answers(&rt, alloc, line, b"a\nb\nc\n", told, lines, ranks)?;
    let line = "build lcp D --signed 64";
    let keys = "apple\nbanana\ncherry\nfig\nzebra\né\n".as_bytes();
    let told = b"keys 6 seed 0 words 27\n";
    let lines = "apple\nfig\né\ngrape\n".as_bytes();
    answers(&rt, alloc, line, keys, told, lines, b"0\n3\n5\n-1\n")?;
    let line = "build lcp2 D --log-bucket 1 --signed 33";
    let told = b"keys 4 seed 0 words 37\n";
    let keys = b"a\nb\nc\nd\n";
    answers(
        &rt,
        alloc,
        line,
        keys,
        told,
        b"d\nb\na\nc\ne\n",
        b"3\n1\n0\n2\n-1\n",
    )?;
    let line = "build func D --signed 16";
    let told = b"keys 2 seed 0 words 18\n";
    answers(
        &rt,
        alloc,
        line,
        b"a\nb\n",
        told,
        b"b\na\nz\n",
        b"1\n0\n-1\n",
    )
}

#[test]
fn signed_dumps_of_no_keys(rt: HostRuntime) -> Result<(), Fail> {
    let rows = [
        ("build func D --signed 8", "keys 0 seed 0 words 16\n"),
        ("build lcp D --signed 8", "keys 0 seed 0 words 20\n"),
        ("build lcp2 D --signed 8", "keys 0 seed 0 words 30\n"),
        ("build hollow D --signed 8", "keys 0 seed 0 words 18\n"),
        ("build hollowdist D --signed 8", "keys 0 seed 0 words 26\n"),
    ];
    for (line, told) in rows {
        answers(
            &rt,
            rt.alloc(),
            line,
            b"",
            told.as_bytes(),
            b"x\n\n",
            b"-1\n-1\n",
        )?;
    }
    Ok(())
}

#[test]
fn parts_that_fail_are_named(rt: HostRuntime) -> Result<(), Fail> {
    let status = Status::SeedsFailed;
    let line = "build lcp D --seeds 7 --sig-bits 0";
    let text =
        b"sux: seed 7: part lengths: strings 0 and 1 have one signature\nsux: no handed seed works\n";
    refuses(&rt, rt.alloc(), line, b"a\nb\n", status, text)?;
    let line = "build lcp2 D --seeds 7 --sig-bits 0";
    let text =
        b"sux: seed 7: part offsets: strings 0 and 1 have one signature\nsux: no handed seed works\n";
    refuses(&rt, rt.alloc(), line, b"a\nb\n", status, text)
}

/// With seed 1 the signatures of both keys differ in the one bit that is kept, and those of both
/// fragments don't.
#[test]
fn parts_of_a_hollow_distributor_are_named(rt: HostRuntime) -> Result<(), Fail> {
    let status = Status::SeedsFailed;
    let keys = b"a\nb\n";
    let line = "build hollowdist D --seeds 7 --sig-bits 0";
    let text =
        b"sux: seed 7: part offsets: strings 0 and 1 have one signature\nsux: no handed seed works\n";
    refuses(&rt, rt.alloc(), line, keys, status, text)?;
    let line = "build hollowdist D --log-bucket 0 --seeds 1 --sig-bits 1";
    let text =
        b"sux: seed 1: part turns: strings 0 and 1 have one signature\nsux: no handed seed works\n";
    refuses(&rt, rt.alloc(), line, keys, status, text)
}

#[test]
fn options_go_with_their_kinds(rt: HostRuntime) -> Result<(), Fail> {
    let status = Status::Usage;
    let text = b"sux: usage: bad value for --log-bucket\n";
    refuses(
        &rt,
        rt.alloc(),
        "build lcp D --log-bucket 13",
        b"",
        status,
        text,
    )?;
    let text = b"sux: usage: --log-bucket does not go with func\n";
    refuses(
        &rt,
        rt.alloc(),
        "build func D --log-bucket 3",
        b"",
        status,
        text,
    )?;
    let text = b"sux: usage: --method does not go with hollow\n";
    refuses(
        &rt,
        rt.alloc(),
        "build hollow D --method mwhc",
        b"",
        status,
        text,
    )?;
    let text = b"sux: usage: --values does not go with lcp2\n";
    refuses(
        &rt,
        rt.alloc(),
        "build lcp2 D --values V",
        b"",
        status,
        text,
    )?;
    let text = b"sux: usage: --values does not go with hollowdist\n";
    refuses(
        &rt,
        rt.alloc(),
        "build hollowdist D --values V",
        b"",
        status,
        text,
    )
}
