//! Whole runs of which each call fails once: for each object the first, the second and so on, until
//! a run has no such call.

use crate::faults::{Ended, Job, Schedule, are_last_calls, creates, split_at_fault};
use crate::tests::{run_once, words_of};
use crate::waiting_tests::feeds_in;
use crate::watched::Object;
use std::alloc::{AllocError, Global};
use std::process::Abort;
use std::test::Fail;
use sx_memory::shelf::MemShelf;
use sx_memory::sink::MemSink;
use sx_memory::source::MemSource;
use sx_spec::Status;

/// More calls than a run of these tests makes on an object.
const MANY: u64 = 1000;

/// A call on files failed: out isn't called, and input only by a build, which reads it before.
fn expect_files_failed(rt: &impl Abort, job: &Job<'_>, due: &Ended, ended: &Ended) {
    let builds = job.line.starts_with("build");
    let created = creates(&ended.calls);
    let text = if builds && !created {
        "sux: fault: values\n"
    } else {
        "sux: fault: dump\n"
    };
    assert_eq!(rt; ended.err.bytes(), text.as_bytes());
    assert_eq!(rt; ended.out.calls(), 0);
    assert!(rt; builds || ended.input.calls() == 0);
    let begins = created && due.dump().starts_with(ended.dump());
    assert!(rt; begins || ended.dump() == job.dump);
}

/// A call on input failed: files are as they were, and a query has answered each line that ended in
/// what was taken.
fn expect_input_failed(rt: &impl Abort, job: &Job<'_>, due: &Ended, ended: &Ended) {
    assert_eq!(rt; ended.err.bytes(), b"sux: fault: input\n".as_slice());
    assert!(rt; ended.dump() == job.dump);
    let count = job.input.len().saturating_sub(ended.input.left().len());
    let answers = if job.line.starts_with("query") {
        feeds_in(&job.input[..count])
    } else {
        0
    };
    assert_eq!(rt; feeds_in(ended.out.bytes()), answers);
    assert!(rt; due.out.bytes().starts_with(ended.out.bytes()));
}

/// A call on out failed: what is due in files is there, and out has less than is due.
fn expect_out_failed(rt: &impl Abort, due: &Ended, ended: &Ended) {
    assert_eq!(rt; ended.err.bytes(), b"sux: fault: output\n".as_slice());
    assert!(rt; ended.dump() == due.dump());
    assert!(rt; due.out.bytes().starts_with(ended.out.bytes()));
    assert!(rt; ended.out.bytes().len() < due.out.bytes().len());
}

/// A call on err failed: files are as they were, out has what is due, and err the beginning of the
/// message, of which 8 bytes went with each call before, and the one on the fault.
fn expect_err_failed(rt: &impl Abort, job: &Job<'_>, due: &Ended, ended: &Ended, at: u64) {
    let note = b"sux: fault: error\n";
    assert!(rt; ended.err.bytes().ends_with(note));
    let told = &ended.err.bytes()[..ended.err.bytes().len() - note.len()];
    assert!(rt; due.err.bytes().starts_with(told));
    assert_eq!(rt; told.len() % 8, 0);
    assert_eq!(rt; (told.len() / 8) as u64, at.saturating_sub(1));
    assert_eq!(rt; ended.out.bytes(), due.out.bytes());
    assert!(rt; ended.dump() == job.dump);
}

/// Compares what a run of which one call failed leaves with what is due where none does.
fn expect_fault(
    rt: &impl Abort,
    job: &Job<'_>,
    due: &Ended,
    ended: &Ended,
    object: Object,
    at: u64,
) {
    assert_eq!(rt; ended.status, Status::Fault);
    assert!(rt; ended.files.bytes("V") == due.files.bytes("V"));
    match object {
        Object::Files => expect_files_failed(rt, job, due, ended),
        Object::Input => expect_input_failed(rt, job, due, ended),
        Object::Out => expect_out_failed(rt, due, ended),
        Object::Err => expect_err_failed(rt, job, due, ended, at),
    }
}

/// Compares what two runs without a failed call leave.
fn expect_same(rt: &impl Abort, due: &Ended, ended: &Ended) {
    assert_eq!(rt; ended.status, due.status);
    assert_eq!(rt; ended.out.bytes(), due.out.bytes());
    assert_eq!(rt; ended.err.bytes(), due.err.bytes());
    assert!(rt; ended.dump() == due.dump());
    assert_eq!(rt; ended.calls.len(), due.calls.len());
}

/// Fails each call on an object, and gives how many there are.
fn each_call_on(
    rt: &impl Abort,
    alloc: Global,
    job: &Job<'_>,
    due: &Ended,
    object: Object,
) -> Result<u64, Fail> {
    for at in 1..MANY {
        let ended = job.run(alloc, Schedule::Fails { object, at })?;
        assert_eq!(rt; ended.calls.len() as u64, ended.calls_made());
        let Some((failed, behind)) = split_at_fault(&ended.calls) else {
            expect_same(rt, due, &ended);
            return Ok(at - 1);
        };
        assert_eq!(rt; failed.object, object);
        assert!(rt; are_last_calls(behind));
        expect_fault(rt, job, due, &ended, object, at);
    }
    Ok(MANY)
}

/// Fails each call on files, input, out and err of a run that ends with this status, of which there
/// are so many, and gives the dump that it leaves.
fn each_call_fails(
    rt: &impl Abort,
    alloc: Global,
    job: &Job<'_>,
    status: Status,
    calls: [u64; 4],
) -> Result<Vec<u8>, Fail> {
    let due = job.run(alloc, Schedule::Calm)?;
    assert_eq!(rt; due.status, status);
    let tried = [
        each_call_on(rt, alloc, job, &due, Object::Files)?,
        each_call_on(rt, alloc, job, &due, Object::Input)?,
        each_call_on(rt, alloc, job, &due, Object::Out)?,
        each_call_on(rt, alloc, job, &due, Object::Err)?,
    ];
    assert_eq!(rt; tried, calls);
    Ok(Vec::from_slice(alloc, due.dump())?)
}

const KEYS: &[u8] = b"a\nab\nb\nbc\nzebra\n";

const LINES: &[u8] = b"zebra\nbc\nx\nb\n\nab\na";

/// Fails each call of a run that reads this dump and is done.
fn each_call_of_a_reader_fails(
    rt: &impl Abort,
    alloc: Global,
    line: &str,
    dump: &[u8],
    calls: [u64; 4],
) -> Result<(), Fail> {
    let job = Job::plain(line, LINES, dump);
    each_call_fails(rt, alloc, &job, Status::Done, calls)?;
    Ok(())
}

/// Fails each call of a build of five keys, and of what reads its dump: the line and the text on it
/// take so many writes.
fn each_call_of_a_kind_fails(
    rt: &impl Abort,
    alloc: Global,
    line: &str,
    opened: u64,
    shown: u64,
) -> Result<(), Fail> {
    let build = Job::plain(line, KEYS, b"old");
    let dump = each_call_fails(rt, alloc, &build, Status::Done, [3, 7, 3, 0])?;
    each_call_of_a_reader_fails(rt, alloc, "query D", &dump, [4, 7, 6, 0])?;
    each_call_of_a_reader_fails(rt, alloc, "open D", &dump, [4, 0, opened, 0])?;
    each_call_of_a_reader_fails(rt, alloc, "dump D", &dump, [4, 0, shown, 0])
}

#[test]
fn each_call_of_each_kind_fails(rt: HostRuntime) -> Result<(), Fail> {
    for (line, opened, shown) in [
        ("build func D --signed 16", 3, 48),
        ("build lcp D --log-bucket 1 --method gov3", 3, 52),
        ("build lcp2 D --log-bucket 1", 3, 93),
        ("build hollow D --signed 8", 3, 41),
        ("build hollowdist D --log-bucket 0", 4, 78),
        ("build zfast D --log-bucket 0", 3, 115),
    ] {
        each_call_of_a_kind_fails(&rt, rt.alloc(), line, opened, shown)?;
    }
    Ok(())
}

#[test]
fn each_call_of_a_trial_fails(rt: HostRuntime) -> Result<(), Fail> {
    for (line, calls) in [
        ("trial func 3", 6),
        ("trial lcp 3", 6),
        ("trial lcp2 3", 6),
        ("trial hollow 3", 6),
        ("trial hollowdist 3", 7),
        ("trial zfast 3", 6),
    ] {
        let job = Job::plain(line, KEYS, b"old");
        each_call_fails(&rt, rt.alloc(), &job, Status::Done, [0, 0, calls, 0])?;
    }
    Ok(())
}

#[test]
fn each_call_of_a_build_with_values_fails(rt: HostRuntime) -> Result<(), Fail> {
    for (values, status, calls) in [
        (b"10\n7\n12\n0\n7\n".as_slice(), Status::Done, [7, 7, 3, 0]),
        (b"10\n7\n012\n", Status::BadInput, [3, 7, 0, 5]),
        (b"10\n7\n", Status::BadInput, [4, 7, 0, 5]),
        (b"", Status::BadInput, [1, 7, 0, 4]),
    ] {
        let job = Job {
            values,
            ..Job::plain("build func D --values V", KEYS, b"")
        };
        each_call_fails(&rt, rt.alloc(), &job, status, calls)?;
    }
    Ok(())
}

#[test]
fn each_call_of_a_refused_run_fails(rt: HostRuntime) -> Result<(), Fail> {
    let two_seeds = "build func D --seeds 7,8 --sig-bits 0";
    for (line, input, dump, status, calls) in [
        ("frob", KEYS, b"old".as_slice(), Status::Usage, [0, 0, 0, 4]),
        ("trial tree 3", KEYS, b"old", Status::Usage, [0, 0, 0, 4]),
        (
            "build func D",
            b"b\na\nc\n",
            b"",
            Status::BadInput,
            [0, 2, 0, 5],
        ),
        (two_seeds, KEYS, b"old", Status::SeedsFailed, [0, 7, 0, 19]),
        ("query D", LINES, b"", Status::BadDump, [1, 0, 0, 3]),
        ("open D", LINES, b"old", Status::BadDump, [4, 0, 0, 3]),
        ("dump D", LINES, b"old", Status::BadDump, [4, 0, 0, 3]),
    ] {
        let job = Job::plain(line, input, dump);
        each_call_fails(&rt, rt.alloc(), &job, status, calls)?;
    }
    Ok(())
}

/// So many lines with a number of four digits behind the same bytes.
fn numbered(alloc: Global, front: &[u8], count: u16) -> Result<Vec<u8>, AllocError> {
    let mut lines = Vec::new(alloc);
    for i in 0..count {
        lines.extend_from_slice(front)?;
        for power in [1000, 100, 10, 1] {
            lines.push((i / power % 10 + 48) as u8)?;
        }
        lines.push(b'\n')?;
    }
    Ok(lines)
}

/// A dump of more than 8,192 bytes, which are written in two pieces.
#[test]
fn each_call_of_a_long_build_fails(rt: HostRuntime) -> Result<(), Fail> {
    let alloc = rt.alloc();
    let keys = numbered(alloc, b"", 900)?;
    let values = numbered(alloc, b"1000000000000000", 900)?;
    let job = Job {
        piece: 4000,
        values: &values,
        ..Job::plain("build func D --values V", &keys, b"old")
    };
    each_call_fails(&rt, alloc, &job, Status::Done, [8, 3, 4, 0])?;
    Ok(())
}

/// A line that is too long, behind two that are answered.
#[test]
fn each_call_of_a_refused_query_fails(rt: HostRuntime) -> Result<(), Fail> {
    let alloc = rt.alloc();
    let mut input = Vec::from_slice(alloc, b"a\nx\n")?;
    input.extend_from_slice(&[b'x'; 8192])?;
    let build = Job::plain("build func D", KEYS, b"");
    let built = build.run(alloc, Schedule::Calm)?;
    let job = Job {
        piece: 1500,
        ..Job::plain("query D", &input, built.dump())
    };
    each_call_fails(&rt, alloc, &job, Status::BadInput, [4, 6, 1, 6])?;
    Ok(())
}

#[test]
fn nothing_is_read_behind_a_refusal(rt: HostRuntime) -> Result<(), Fail> {
    let alloc = rt.alloc();
    let built = Job::plain("build func D", b"a\n", b"").run(alloc, Schedule::Calm)?;
    let long = [b'x'; 9000];
    for (line, input, piece, calls) in [
        ("build func D", b"b\na\nc\n".as_slice(), 2, 2),
        ("build func D", b"b\nb\nc\n", 1, 4),
        ("build func D", b"\0\nb\n", 1, 2),
        ("build func D", &long, 1000, 9),
        ("query D", &long, 1000, 9),
    ] {
        let job = Job {
            piece,
            ..Job::plain(line, input, built.dump())
        };
        let ended = job.run(alloc, Schedule::Calm)?;
        assert_eq!(rt; ended.status, Status::BadInput);
        assert_eq!(rt; ended.input.calls(), calls);
    }
    Ok(())
}

#[test]
fn a_full_shelf_keeps_a_part(rt: HostRuntime) -> Result<(), Fail> {
    let alloc = rt.alloc();
    let words = words_of(alloc, "build func D")?;
    let mut input = MemSource::new(Vec::from_slice(alloc, b"a\nb\n")?, 3, Vec::new(alloc));
    let mut out = MemSink::new(alloc, 100, 8, Vec::new(alloc))?;
    let mut err = MemSink::new(alloc, 100, 8, Vec::new(alloc))?;
    let mut files = MemShelf::new(alloc, Vec::new(alloc));
    files.room("D", 20)?;
    let status = run_once(alloc, &words, &mut files, &mut input, &mut out, &mut err);
    assert_eq!(rt; status, Status::Fault);
    let part = files.bytes("D").unwrap_or(b"");
    assert_eq!(rt; part.len(), 20);
    assert!(rt; part.starts_with(b"SUXDUMP1"));
    assert_eq!(rt; out.calls(), 0);
    assert_eq!(rt; err.bytes(), b"sux: fault: dump\n".as_slice());
    Ok(())
}
