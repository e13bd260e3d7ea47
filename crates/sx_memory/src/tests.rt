//! The objects in memory, and what reads lines and files and writes over them.
ghost use Rattle.std.specs.Prelude.{◌≡◌, ◌≤◌, ◌^◌, IfOk, OnOk};
ghost use Rattle.sx_edge.specs.Shelf.{idle, reading};
ghost use Rattle.sx_memory.specs.InUse.{use_of};

use crate::calm::{CalmSource, CountSink};
use crate::shelf::MemShelf;
use crate::sink::MemSink;
use crate::source::MemSource;
use std::alloc::Global;
use std::process::Abort;
use std::test::Fail;
use sx_edge::line::{LineFault, LineReader, Step};
use sx_edge::shelf::{Shelf, fill_buffer, write_file};
use sx_edge::sink::{Sink, write_all};
use sx_edge::source::{Failed, Source};

fn source(alloc: Global, bytes: &[u8], piece: usize, fails: &[u64]) -> Result<MemSource, Fail>
    requires { 1 ≤ piece }
{
    let bytes = Vec::from_slice(alloc, bytes)?;
    let fails = Vec::from_slice(alloc, fails)?;
    Ok(MemSource::new(bytes, piece, fails))
}

fn expect_line(rt: &impl Abort, reader: &mut LineReader, src: &mut MemSource, line: &[u8]) {
    assert!(rt; reader.number() < 9);
    let step = reader.next(src);
    assert!(rt; matches!(step, Ok(Step::Line)));
    assert_eq!(rt; reader.line(), line);
}

fn expect_end(rt: &impl Abort, reader: &mut LineReader, src: &mut MemSource) {
    assert!(rt; reader.number() < 9);
    assert_eq!(rt; reader.next(src), Ok(Step::End));
}

fn expect_fault(rt: &impl Abort, reader: &mut LineReader, src: &mut MemSource, fault: LineFault) {
    assert!(rt; reader.number() < 9);
    assert_eq!(rt; reader.next(src), Err(fault));
}

fn expect_three_lines(rt: &impl Abort, alloc: Global, piece: usize) -> Result<(), Fail>
    requires { 1 ≤ piece }
{
    let mut src = source(alloc, b"a\n\nb", piece, &[])?;
    let mut reader = LineReader::new(alloc, 8191)?;
    expect_line(rt, &mut reader, &mut src, b"a");
    expect_line(rt, &mut reader, &mut src, b"");
    expect_line(rt, &mut reader, &mut src, b"b");
    assert!(rt; reader.has_line());
    expect_end(rt, &mut reader, &mut src);
    expect_end(rt, &mut reader, &mut src);
    assert_eq!(rt; reader.number(), 3);
    Ok(())
}

#[test]
fn lines_in_pieces(rt: HostRuntime) -> Result<(), Fail> {
    expect_three_lines(&rt, rt.alloc(), 1)?;
    expect_three_lines(&rt, rt.alloc(), 2)?;
    expect_three_lines(&rt, rt.alloc(), 7)?;
    Ok(())
}

#[test]
fn a_carriage_return_is_a_byte(rt: HostRuntime) -> Result<(), Fail> {
    let mut src = source(rt.alloc(), b"a\r\nb\r\n", 7, &[])?;
    let mut reader = LineReader::new(rt.alloc(), 8191)?;
    expect_line(&rt, &mut reader, &mut src, b"a\r");
    assert!(&rt; reader.has_line());
    expect_line(&rt, &mut reader, &mut src, b"b\r");
    assert!(&rt; !reader.has_line());
    Ok(())
}

#[test]
fn the_longest_line(rt: HostRuntime) -> Result<(), Fail> {
    let x = Vec::from_slice(rt.alloc(), &[b'x'; 8191])?;
    let mut src = source(rt.alloc(), &x, 1000, &[])?;
    let mut reader = LineReader::new(rt.alloc(), 8191)?;
    expect_line(&rt, &mut reader, &mut src, &x);
    expect_end(&rt, &mut reader, &mut src);
    Ok(())
}

#[test]
fn a_line_too_long(rt: HostRuntime) -> Result<(), Fail> {
    let x = Vec::from_slice(rt.alloc(), &[b'x'; 8192])?;
    let mut src = source(rt.alloc(), &x, 1000, &[])?;
    let mut reader = LineReader::new(rt.alloc(), 8191)?;
    expect_fault(&rt, &mut reader, &mut src, LineFault::TooLong { line: 1 });
    let calls = src.calls();
    expect_fault(&rt, &mut reader, &mut src, LineFault::TooLong { line: 1 });
    assert_eq!(&rt; src.calls(), calls);
    Ok(())
}

#[test]
fn a_read_that_fails(rt: HostRuntime) -> Result<(), Fail> {
    let mut src = source(rt.alloc(), b"a\nb\nc", 2, &[3])?;
    let mut reader = LineReader::new(rt.alloc(), 8191)?;
    expect_line(&rt, &mut reader, &mut src, b"a");
    expect_line(&rt, &mut reader, &mut src, b"b");
    expect_fault(&rt, &mut reader, &mut src, LineFault::ReadFault);
    assert_eq!(&rt; src.left(), b"c".as_slice());
    expect_fault(&rt, &mut reader, &mut src, LineFault::ReadFault);
    assert_eq!(&rt; src.calls(), 3);
    Ok(())
}

fn sink(alloc: Global, fails: &[u64]) -> Result<MemSink, Fail> {
    let fails = Vec::from_slice(alloc, fails)?;
    Ok(MemSink::new(alloc, 7, 2, fails)?)
}

fn expect_written(
    rt: &impl Abort,
    sink: &mut MemSink,
    bytes: &[u8],
    answer: Result<(), Failed>,
    all: &[u8],
) {
    assert!(rt; write_all(sink, bytes) == answer);
    assert_eq!(rt; sink.bytes(), all);
}

#[test]
fn writes_in_pieces(rt: HostRuntime) -> Result<(), Fail> {
    let mut sink = sink(rt.alloc(), &[])?;
    expect_written(&rt, &mut sink, b"abcde", Ok(()), b"abcde");
    assert_eq!(&rt; sink.calls(), 3);
    expect_written(&rt, &mut sink, b"fgh", Err(Failed), b"abcdefg");
    Ok(())
}

#[test]
fn a_write_that_fails(rt: HostRuntime) -> Result<(), Fail> {
    let mut sink = sink(rt.alloc(), &[2])?;
    expect_written(&rt, &mut sink, b"abcde", Err(Failed), b"ab");
    expect_written(&rt, &mut sink, b"cde", Ok(()), b"abcde");
    Ok(())
}

fn shelf(alloc: Global, fails: &[u64]) -> Result<MemShelf, Fail>
    ensures { IfOk result (λ files. use_of files.used ≡ idle) }
{
    let fails = Vec::from_slice(alloc, fails)?;
    Ok(MemShelf::new(alloc, fails))
}

fn write_named(files: &mut MemShelf, name: &str, bytes: &[u8]) -> Result<(), Fail>
    requires { use_of files.old.used ≡ idle }
    ensures { OnOk result (use_of files.new.used ≡ idle) }
{
    files.create(name)?;
    write_file(files, bytes)?;
    files.close()?;
    Ok(())
}

fn read_named(files: &mut MemShelf, name: &str, buf: &mut [u8]) -> Result<usize, Fail>
    requires idle { use_of files.old.used ≡ idle }
    ensures { OnOk result (use_of files.new.used ≡ idle) }
{
    if !files.open_file(name)? {
        return Ok(0);
    }
    let count = fill_buffer(files, buf)?;
    files.close()?;
    Ok(count)
}

#[test]
fn a_file_is_written_and_read(rt: HostRuntime) -> Result<(), Fail> {
    let mut files = shelf(rt.alloc(), &[])?;
    files.room("D", 5)?;
    assert_eq!(&rt; files.bytes("D"), None);
    write_named(&mut files, "D", b"abc")?;
    assert_eq!(&rt; files.bytes("D").ok_or("none")?, b"abc".as_slice());
    let mut buf = [0; 9];
    assert_eq!(&rt; read_named(&mut files, "D", &mut buf)?, 3);
    assert_eq!(&rt; &buf, b"abc\0\0\0\0\0\0");
    Ok(())
}

#[test]
fn a_file_is_read_up_to_a_bound(rt: HostRuntime) -> Result<(), Fail> {
    let mut files = shelf(rt.alloc(), &[])?;
    files.put("V", b"10\n7\n")?;
    let mut buf = [0; 3];
    assert_eq!(&rt; read_named(&mut files, "V", &mut buf)?, 3);
    assert_eq!(&rt; &buf, b"10\n");
    assert!(&rt; !files.open_file("X")?);
    Ok(())
}

#[test]
fn a_file_without_room(rt: HostRuntime) -> Result<(), Fail> {
    let mut files = shelf(rt.alloc(), &[])?;
    files.put("D", b"abcde")?;
    assert_eq!(&rt; files.create("X"), Err(Failed));
    files.create("D")?;
    assert_eq!(&rt; write_file(&mut files, b"123456"), Err(Failed));
    assert_eq!(&rt; files.bytes("D").ok_or("none")?, b"12345".as_slice());
    Ok(())
}

#[test]
fn calls_of_a_shelf_that_fail(rt: HostRuntime) -> Result<(), Fail> {
    let mut files = shelf(rt.alloc(), &[1, 3])?;
    files.put("D", b"abc")?;
    assert_eq!(&rt; files.open_file("D"), Err(Failed));
    assert!(&rt; files.open_file("D")?);
    assert_eq!(&rt; fill_buffer(&mut files, &mut [0; 9]), Err(Failed));
    assert_eq!(&rt; files.calls(), 3);
    Ok(())
}

fn expect_file_line(rt: &impl Abort, reader: &mut LineReader, files: &mut MemShelf, line: &[u8])
    requires { use_of files.old.used ≡ reading }
    ensures { use_of files.new.used ≡ reading }
{
    assert!(rt; reader.number() < 9);
    let step = reader.next_file(files);
    assert!(rt; matches!(step, Ok(Step::Line)));
    assert_eq!(rt; reader.line(), line);
}

#[test]
fn lines_of_a_file(rt: HostRuntime) -> Result<(), Fail> {
    let mut files = shelf(rt.alloc(), &[])?;
    files.put("V", b"10\n7")?;
    let mut reader = LineReader::new(rt.alloc(), 8191)?;
    assert!(&rt; files.open_file("V")?);
    expect_file_line(&rt, &mut reader, &mut files, b"10");
    expect_file_line(&rt, &mut reader, &mut files, b"7");
    assert!(&rt; reader.number() < 9);
    assert_eq!(&rt; reader.next_file(&mut files), Ok(Step::End));
    Ok(())
}

#[test]
fn a_calm_source(rt: HostRuntime) -> Result<(), Fail> {
    let mut src = CalmSource::new(Vec::from_slice(rt.alloc(), b"abc")?);
    let mut buf = [0; 2];
    assert_eq!(&rt; src.read(&mut buf), Ok(2));
    assert_eq!(&rt; buf.as_slice(), b"ab".as_slice());
    assert_eq!(&rt; src.read(&mut buf), Ok(1));
    assert_eq!(&rt; src.read(&mut buf), Ok(0));
    Ok(())
}

#[test]
fn a_sink_that_counts(rt: HostRuntime) -> Result<(), Fail> {
    let mut sink = CountSink::new();
    assert_eq!(&rt; sink.write(b"abc"), Ok(3));
    assert_eq!(&rt; write_all(&mut sink, b"de"), Ok(()));
    assert_eq!(&rt; sink.count(), 5);
    Ok(())
}
