//! Whole runs of the command `trial`, which calls neither files nor input.

use crate::tests::{comes_to, refuses, run_once, shelf_with_room, words_of};
use std::alloc::Global;
use std::process::Abort;
use std::test::Fail;
use sx_memory::shelf::MemShelf;
use sx_memory::sink::MemSink;
use sx_memory::source::MemSource;
use sx_spec::Status;

const LINE: &str = "trial hollow keys 3 answers 3 sum 3 strangers 3\n";

/// Runs the words over input and a shelf whose first calls fail, with so much room on out and on
/// err, where 8 bytes are taken a call. Neither files nor input are called.
fn ends_with(
    rt: &impl Abort,
    alloc: Global,
    line: &str,
    rooms: [usize; 2],
    status: Status,
    texts: [&str; 2],
) -> Result<(), Fail> {
    let words = words_of(alloc, line)?;
    let mut files = MemShelf::new(alloc, Vec::from_slice(alloc, &[1])?);
    files.room("D", 100)?;
    files.put("D", b"old")?;
    let bytes = Vec::from_slice(alloc, b"a\nb\n")?;
    let mut input = MemSource::new(bytes, 3, Vec::from_slice(alloc, &[1])?);
    let mut out = MemSink::new(alloc, rooms[0], 8, Vec::new(alloc))?;
    let mut err = MemSink::new(alloc, rooms[1], 8, Vec::new(alloc))?;
    let ended = run_once(alloc, &words, &mut files, &mut input, &mut out, &mut err);
    assert_eq!(rt; ended, status);
    assert_eq!(rt; out.bytes(), texts[0].as_bytes());
    assert_eq!(rt; err.bytes(), texts[1].as_bytes());
    assert_eq!(rt; files.calls(), 0);
    assert_eq!(rt; input.calls(), 0);
    assert!(rt; files.bytes("D") == Some(b"old".as_slice()));
    Ok(())
}

#[test]
fn made_keys_are_built_and_asked(rt: HostRuntime) -> Result<(), Fail> {
    for (line, text) in [
        ("trial hollow 3", LINE),
        (
            "trial func 0",
            "trial func keys 0 answers 0 sum 0 strangers 0\n",
        ),
    ] {
        let mut files = shelf_with_room(rt.alloc())?;
        let told = text.as_bytes();
        comes_to(
            &rt,
            rt.alloc(),
            line,
            &mut files,
            b"a\n",
            Status::Done,
            told,
            b"",
        )?;
    }
    Ok(())
}

#[test]
fn rules_of_usage_are_told(rt: HostRuntime) -> Result<(), Fail> {
    let rows = [
        ("trial func 1000001", "sux: usage: bad number\n"),
        ("trial func 01", "sux: usage: bad number\n"),
        ("trial tree 3", "sux: usage: unknown kind\n"),
        ("trial func 3 --seeds 1", "sux: usage: bad words\n"),
        ("trial func", "sux: usage: bad words\n"),
        ("query D --seeds 1", "sux: usage: bad words\n"),
    ];
    for (line, text) in rows {
        refuses(
            &rt,
            rt.alloc(),
            line,
            b"a\n",
            Status::Usage,
            text.as_bytes(),
        )?;
    }
    Ok(())
}

#[test]
fn files_and_input_are_not_called(rt: HostRuntime) -> Result<(), Fail> {
    let line = "trial hollow 3";
    ends_with(&rt, rt.alloc(), line, [100, 100], Status::Done, [LINE, ""])
}

#[test]
fn room_may_be_wanting(rt: HostRuntime) -> Result<(), Fail> {
    let alloc = rt.alloc();
    let status = Status::Fault;
    let line = "trial hollow 3";
    let texts = ["trial hollow keys 3 ", "sux: fault: output\n"];
    ends_with(&rt, alloc, line, [20, 100], status, texts)?;
    let texts = ["trial hollow keys 3 ", "sux: fault"];
    ends_with(&rt, alloc, line, [20, 10], status, texts)?;
    let texts = ["", "sux: usage: u"];
    ends_with(&rt, alloc, "trial tree 3", [100, 13], status, texts)
}
