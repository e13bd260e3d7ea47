//! Whole runs over files and streams in memory.
ghost use Rattle.std.specs.Prelude.{◌≡◌, ◌<◌, IfOk};
ghost use Rattle.sx_memory.specs.InUse.{use_of};
ghost use Rattle.sx_edge.specs.Shelf.{idle};
ghost use Rattle.sx_steps.specs.Blanks.{IsBlankOf};

use std::alloc::{AllocError, Global};
use std::marker::Brand;
use std::process::Abort;
use std::sync::ledger::{Blank, Ledger};
use std::test::Fail;
use sx_cli::run::run;
use sx_edge::shelf::Shelf;
use sx_edge::sink::Sink;
use sx_edge::source::Source;
use sx_edge::words::WordList;
use sx_memory::shelf::MemShelf;
use sx_memory::sink::MemSink;
use sx_memory::source::MemSource;
use sx_spec::Status;
use sx_steps::Steps;

fn run_counted<L: Ledger, F: Shelf, S: Source, O: Sink, E: Sink>(
    alloc: Global,
    words: &WordList,
    files: &mut F,
    input: &mut S,
    out: &mut O,
    err: &mut E,
    blank: Blank,
) -> Status
    requires blank { IsBlankOf L.Ledger blank }
    requires idle { F.in_use files.old ≡ idle }
    ensures closed { F.in_use files.new ≡ idle }
{
    let mut steps = Steps::<L>::new(blank);
    run(alloc, words, files, input, out, err, &mut steps)
}

/// Runs the words over these objects.
pub(crate) fn run_once<F: Shelf, S: Source, O: Sink, E: Sink>(
    alloc: Global,
    words: &WordList,
    files: &mut F,
    input: &mut S,
    out: &mut O,
    err: &mut E,
) -> Status
    requires idle { F.in_use files.old ≡ idle }
    ensures closed { F.in_use files.new ≡ idle }
{
    run_counted::<Brand, F, S, O, E>(alloc, words, files, input, out, err, Blank::new(1))
}

/// The words of a command line, which stand between spaces.
pub(crate) fn words_of(alloc: Global, line: &str) -> Result<WordList, AllocError> {
    let mut words = WordList::new(alloc);
    for word in line.split(' ') {
        words.push(word)?;
    }
    Ok(words)
}

fn calm_sink(alloc: Global) -> Result<MemSink, AllocError> {
    MemSink::new(alloc, 65536, 1000, Vec::new(alloc))
}

fn source_of(alloc: Global, bytes: &[u8]) -> Result<MemSource, AllocError> {
    Ok(MemSource::new(Vec::from_slice(alloc, bytes)?, 300, Vec::new(alloc)))
}

/// A shelf with room for one small dump.
pub(crate) fn shelf_with_room(alloc: Global) -> Result<MemShelf, AllocError>
    ensures { IfOk result (λ s. use_of s.used ≡ idle) }
{
    let mut files = MemShelf::new(alloc, Vec::new(alloc));
    files.room("D", 20000)?;
    Ok(files)
}

/// Runs the words and compares what they come to.
pub(crate) fn comes_to(
    rt: &impl Abort,
    alloc: Global,
    line: &str,
    files: &mut MemShelf,
    input: &[u8],
    status: Status,
    out_text: &[u8],
    err_text: &[u8],
) -> Result<(), Fail>
    requires idle { use_of files.old.used ≡ idle }
    ensures closed { use_of files.new.used ≡ idle }
{
    let words = words_of(alloc, line)?;
    let mut input = source_of(alloc, input)?;
    let mut out = calm_sink(alloc)?;
    let mut err = calm_sink(alloc)?;
    let ended = run_once(alloc, &words, files, &mut input, &mut out, &mut err);
    assert_eq!(rt; ended, status);
    assert_eq!(rt; out.bytes(), out_text);
    assert_eq!(rt; err.bytes(), err_text);
    Ok(())
}

/// Runs a build over these keys, which is refused with this text.
pub(crate) fn refuses(
    rt: &impl Abort,
    alloc: Global,
    line: &str,
    keys: &[u8],
    status: Status,
    text: &[u8],
) -> Result<(), Fail> {
    let mut files = shelf_with_room(alloc)?;
    comes_to(rt, alloc, line, &mut files, keys, status, b"", text)
}

/// Runs a build over these keys, which is done with this line.
fn builds(
    rt: &impl Abort,
    alloc: Global,
    line: &str,
    keys: &[u8],
    text: &[u8],
) -> Result<(), Fail> {
    let mut files = shelf_with_room(alloc)?;
    comes_to(rt, alloc, line, &mut files, keys, Status::Done, text, b"")
}

#[test]
fn few_keys_are_built(rt: HostRuntime) -> Result<(), Fail> {
    let line = "build func D";
    builds(&rt, rt.alloc(), line, b"", b"keys 0 seed 0 words 14\n")?;
    builds(&rt, rt.alloc(), line, b"a\n", b"keys 1 seed 0 words 14\n")?;
    builds(&rt, rt.alloc(), line, b"a\nb", b"keys 2 seed 0 words 15\n")
}

#[test]
fn the_first_line_that_is_no_key_is_named(rt: HostRuntime) -> Result<(), Fail> {
    let line = "build func D";
    let status = Status::BadInput;
    let text = b"sux: line 2: below the line before\n";
    refuses(&rt, rt.alloc(), line, b"b\na\n", status, text)?;
    let text = b"sux: line 2: equal to the line before\n";
    refuses(&rt, rt.alloc(), line, b"a\na\n", status, text)?;
    let text = b"sux: line 2: holds a zero byte\n";
    refuses(&rt, rt.alloc(), line, b"b\n\0\n", status, text)
}

#[test]
fn lines_of_8191_bytes_are_keys(rt: HostRuntime) -> Result<(), Fail> {
    let mut key = Vec::new(rt.alloc());
    for _ in 0..8191u32 {
        key.push(b'x')?;
    }
    let line = "build func D";
    builds(&rt, rt.alloc(), line, &key, b"keys 1 seed 0 words 14\n")?;
    key.push(b'x')?;
    let text = b"sux: line 1: longer than 8191 bytes\n";
    refuses(&rt, rt.alloc(), line, &key, Status::BadInput, text)
}

#[test]
fn rules_of_usage_are_told(rt: HostRuntime) -> Result<(), Fail> {
    let status = Status::Usage;
    let rows = [
        ("frob", "sux: usage: unknown command\n"),
        ("build lcp", "sux: usage: bad words\n"),
        ("build lcp D --seeds 1 --seeds 2", "sux: usage: bad words\n"),
        ("build func D --seeds", "sux: usage: bad words\n"),
        ("build tree D", "sux: usage: unknown kind\n"),
        (
            "build func D --sig-bits=193",
            "sux: usage: bad value for --sig-bits\n",
        ),
        (
            "build func D --seeds 1,,2",
            "sux: usage: bad value for --seeds\n",
        ),
        (
            "build hollow D --signed 65",
            "sux: usage: bad value for --signed\n",
        ),
        (
            "build func D --signed 8 --values V",
            "sux: usage: --signed does not go with --values\n",
        ),
    ];
    for (line, text) in rows {
        refuses(&rt, rt.alloc(), line, b"a\n", status, text.as_bytes())?;
    }
    Ok(())
}

#[test]
fn each_seed_that_fails_is_told(rt: HostRuntime) -> Result<(), Fail> {
    let line = "build func D --seeds 7,8 --sig-bits 0";
    let text =
        b"sux: seed 7: part values: strings 0 and 1 have one signature\nsux: seed 8: part values: strings 0 and 1 have one signature\nsux: no handed seed works\n";
    refuses(&rt, rt.alloc(), line, b"a\nb\n", Status::SeedsFailed, text)
}

#[test]
fn values_are_those_of_their_file(rt: HostRuntime) -> Result<(), Fail> {
    let mut files = shelf_with_room(rt.alloc())?;
    files.put("V", b"10\n7\n")?;
    let line = "build func D --values V --method gov3";
    let text = b"keys 2 seed 0 words 15\n";
    comes_to(
        &rt,
        rt.alloc(),
        line,
        &mut files,
        b"a\nb\n",
        Status::Done,
        text,
        b"",
    )?;
    let line = "query D";
    comes_to(
        &rt,
        rt.alloc(),
        line,
        &mut files,
        b"b\na\n",
        Status::Done,
        b"7\n10\n",
        b"",
    )?;
    files.put("V", b"18446744073709551615")?;
    let line = "build func D --values V";
    let text = b"keys 1 seed 0 words 20\n";
    comes_to(
        &rt,
        rt.alloc(),
        line,
        &mut files,
        b"a\n",
        Status::Done,
        text,
        b"",
    )?;
    let line = "query D";
    let text = b"18446744073709551615\n";
    comes_to(
        &rt,
        rt.alloc(),
        line,
        &mut files,
        b"a\n",
        Status::Done,
        text,
        b"",
    )
}

#[test]
fn values_files_are_refused(rt: HostRuntime) -> Result<(), Fail> {
    let mut files = shelf_with_room(rt.alloc())?;
    let line = "build func D --values V";
    let status = Status::BadInput;
    let text = b"sux: values: no such file\n";
    comes_to(
        &rt,
        rt.alloc(),
        line,
        &mut files,
        b"a\nb\n",
        status,
        b"",
        text,
    )?;
    files.put("V", b"10\n")?;
    let text = b"sux: values: 1 values for 2 keys\n";
    comes_to(
        &rt,
        rt.alloc(),
        line,
        &mut files,
        b"a\nb\n",
        status,
        b"",
        text,
    )?;
    files.put("V", b"10\n7\n3\n")?;
    let text = b"sux: values line 3: more values than keys\n";
    comes_to(
        &rt,
        rt.alloc(),
        line,
        &mut files,
        b"a\nb\n",
        status,
        b"",
        text,
    )?;
    files.put("V", b"10\n01\n")?;
    let text = b"sux: values line 2: not a number\n";
    comes_to(
        &rt,
        rt.alloc(),
        line,
        &mut files,
        b"a\nb\n",
        status,
        b"",
        text,
    )
}

#[test]
fn a_dump_answers(rt: HostRuntime) -> Result<(), Fail> {
    let mut files = shelf_with_room(rt.alloc())?;
    let line = "build func D";
    let text = b"keys 3 seed 0 words 15\n";
    comes_to(
        &rt,
        rt.alloc(),
        line,
        &mut files,
        b"a\nb\nbc\n",
        Status::Done,
        text,
        b"",
    )?;
    let line = "query D";
    let text = b"2\n0\n0\n1\n";
    comes_to(
        &rt,
        rt.alloc(),
        line,
        &mut files,
        b"bc\na\na\nb",
        Status::Done,
        text,
        b"",
    )?;
    let line = "open D";
    let text = b"func keys 3 words 15\n";
    comes_to(
        &rt,
        rt.alloc(),
        line,
        &mut files,
        b"",
        Status::Done,
        text,
        b"",
    )
}

#[test]
fn a_dump_is_shown(rt: HostRuntime) -> Result<(), Fail> {
    let mut files = shelf_with_room(rt.alloc())?;
    let line = "build func D";
    let text = b"keys 0 seed 0 words 14\n";
    comes_to(
        &rt,
        rt.alloc(),
        line,
        &mut files,
        b"",
        Status::Done,
        text,
        b"",
    )?;
    let line = "dump D";
    let text =
        b"layout 1\nkind func\nmethod mwhc\nkeys 0\nseed 0\nsig-bits 192\nlog-bucket 0\nsigned 0\nhandle-bits 0\nfunction values width 0 pairs 0 chunks 1 cells 0\nchunk 0 segment 0 try 0\n";
    comes_to(
        &rt,
        rt.alloc(),
        line,
        &mut files,
        b"",
        Status::Done,
        text,
        b"",
    )
}

#[test]
fn what_is_no_dump_is_told(rt: HostRuntime) -> Result<(), Fail> {
    let mut files = MemShelf::new(rt.alloc(), Vec::new(rt.alloc()));
    let status = Status::BadDump;
    let text = b"sux: dump: no such file\n";
    comes_to(
        &rt,
        rt.alloc(),
        "query D",
        &mut files,
        b"a\n",
        status,
        b"",
        text,
    )?;
    files.put("D", b"words")?;
    let text = b"sux: dump: check 1\n";
    comes_to(
        &rt,
        rt.alloc(),
        "query D",
        &mut files,
        b"a\n",
        status,
        b"",
        text,
    )?;
    comes_to(
        &rt,
        rt.alloc(),
        "open D",
        &mut files,
        b"a\n",
        status,
        b"",
        text,
    )
}

#[test]
fn failures_end_a_run(rt: HostRuntime) -> Result<(), Fail> {
    let mut files = shelf_with_room(rt.alloc())?;
    let words = words_of(rt.alloc(), "build func D")?;
    let mut out = calm_sink(rt.alloc())?;
    let mut err = calm_sink(rt.alloc())?;
    let fails = Vec::from_slice(rt.alloc(), &[3])?;
    let bytes = Vec::from_slice(rt.alloc(), b"a\nb\n")?;
    let mut input = MemSource::new(bytes, 2, fails);
    let status = run_once(
        rt.alloc(),
        &words,
        &mut files,
        &mut input,
        &mut out,
        &mut err,
    );
    assert_eq!(rt; status, Status::Fault);
    assert_eq!(rt; err.bytes(), b"sux: fault: input\n".as_slice());
    assert!(rt; files.bytes("D").is_none());
    Ok(())
}

#[test]
fn a_long_text_stops_at_a_full_sink(rt: HostRuntime) -> Result<(), Fail> {
    // 4,294,967,295 cells of no bits
    let words = [14u64, 0, 0, 1, 0, 192, 0, 0, 0, 0, 1, 0, 4_294_967_295];
    let mut bytes = Vec::from_slice(rt.alloc(), b"SUXDUMP1")?;
    for word in words {
        bytes.extend_from_slice(&word.to_le_bytes())?;
    }
    let mut files = MemShelf::new(rt.alloc(), Vec::new(rt.alloc()));
    files.put("D", &bytes)?;
    let line = words_of(rt.alloc(), "dump D")?;
    let mut input = source_of(rt.alloc(), b"")?;
    let mut out = calm_sink(rt.alloc())?;
    let mut err = calm_sink(rt.alloc())?;
    let status = run_once(
        rt.alloc(),
        &line,
        &mut files,
        &mut input,
        &mut out,
        &mut err,
    );
    assert_eq!(rt; status, Status::Fault);
    assert_eq!(rt; out.bytes().len(), 65536);
    assert_eq!(rt; err.bytes(), b"sux: fault: output\n".as_slice());
    Ok(())
}

#[test]
fn few_bits_make_twins_for_each_seed(rt: HostRuntime) -> Result<(), Fail> {
    let mut keys = Vec::new(rt.alloc());
    for i in 0..300u16 {
        keys.push((i / 100 + 48) as u8)?;
        keys.push((i / 10 % 10 + 48) as u8)?;
        keys.push((i % 10 + 48) as u8)?;
        keys.push(b'\n')?;
    }
    let text =
        b"sux: seed 0: part values: strings 0 and 18 have one signature\nsux: seed 1: part values: strings 12 and 30 have one signature\nsux: seed 2: part values: strings 16 and 17 have one signature\nsux: seed 3: part values: strings 23 and 25 have one signature\nsux: no handed seed works\n";
    let line = "build func D --sig-bits 8";
    refuses(&rt, rt.alloc(), line, &keys, Status::SeedsFailed, text)
}
