//! Whole runs of the kind that searches among handles.

use crate::ranks_tests::answers;
use crate::tests::refuses;
use std::test::Fail;
use sx_spec::Status;

#[test]
fn few_keys_have_their_ranks(rt: HostRuntime) -> Result<(), Fail> {
    let alloc = rt.alloc();
    let told = b"keys 0 seed 0 words 35\n";
    answers(
        &rt,
        alloc,
        "build zfast D",
        b"",
        told,
        b"x\n\n",
        b"-1\n-1\n",
    )?;
    let line = "build zfast D --log-bucket 0";
    let keys = b"a\nb\nc\nd\n";
    let told = b"keys 4 seed 0 words 41\n";
    let lines = b"d\nb\na\nc\n";
    answers(&rt, alloc, line, keys, told, lines, b"3\n1\n0\n2\n")?;
    let told = b"keys 3 seed 0 words 39\n";
    answers(
        &rt,
        alloc,
        line,
        b"a\nb\nc\n",
        told,
        b"c\nb\na\n",
        b"2\n1\n0\n",
    )?;
    let told = b"keys 2 seed 0 words 36\n";
    answers(&rt, alloc, line, b"a\nb\n", told, b"b\na\n", b"1\n0\n")?;
    let line = "build zfast D --seeds 9 --handle-bits 64";
    let told = b"keys 1 seed 9 words 35\n";
    answers(&rt, alloc, line, b"a\n", told, b"a\n", b"0\n")
}

#[test]
fn blocks_have_their_ranks(rt: HostRuntime) -> Result<(), Fail> {
    let alloc = rt.alloc();
    let keys = "apple\nbanana\ncherry\nfig\nzebra\né\n".as_bytes();
    let lines = "é\napple\nfig\nzebra\nbanana\ncherry\n".as_bytes();
    let ranks = b"5\n0\n3\n4\n1\n2\n";
    let line = "build zfast D --log-bucket 1 --handle-bits 0";
    let told = b"keys 6 seed 0 words 40\n";
    answers(&rt, alloc, line, keys, told, lines, ranks)?;
    let line = "build zfast D --log-bucket 1 --method gov3";
    let told = b"keys 6 seed 0 words 40\n";
    answers(&rt, alloc, line, keys, told, lines, ranks)
}

/// A number of each key is kept. A stranger has another.
#[test]
fn signed_keys_have_their_ranks(rt: HostRuntime) -> Result<(), Fail> {
    let alloc = rt.alloc();
    let told = b"keys 0 seed 0 words 37\n";
    let line = "build zfast D --signed 8";
    answers(&rt, alloc, line, b"", told, b"x\n\n", b"-1\n-1\n")?;
    let line = "build zfast D --log-bucket 0 --signed 33";
    let told = b"keys 4 seed 0 words 46\n";
    let lines = b"d\nb\na\nc\ne\n";
    let ranks = b"3\n1\n0\n2\n-1\n";
    answers(&rt, alloc, line, b"a\nb\nc\nd\n", told, lines, ranks)
}

#[test]
fn parts_that_fail_are_named(rt: HostRuntime) -> Result<(), Fail> {
    let status = Status::SeedsFailed;
    let line = "build zfast D --seeds 7 --sig-bits 0";
    let text =
        b"sux: seed 7: part offsets: strings 0 and 1 have one signature\nsux: no handed seed works\n";
    refuses(&rt, rt.alloc(), line, b"a\nb\n", status, text)
}

#[test]
fn handles_go_with_their_kind(rt: HostRuntime) -> Result<(), Fail> {
    let status = Status::Usage;
    let text = b"sux: usage: bad value for --handle-bits\n";
    let line = "build zfast D --handle-bits 65";
    refuses(&rt, rt.alloc(), line, b"", status, text)?;
    let text = b"sux: usage: --handle-bits does not go with hollowdist\n";
    let line = "build hollowdist D --handle-bits 32";
    refuses(&rt, rt.alloc(), line, b"", status, text)
}
