//! Answers are written before the next read, which may wait.
ghost use Rattle.std.specs.Prelude.{None};

use crate::tests::{run_once, words_of};
use std::cell::Cell;
use std::test::Fail;
use sx_edge::sink::Sink;
use sx_edge::source::{Failed, Source};
use sx_memory::shelf::MemShelf;
use sx_memory::sink::MemSink;
use sx_memory::source::MemSource;
use sx_spec::Status;

/// How many line feeds stand in the bytes.
pub(crate) fn feeds_in(bytes: &[u8]) -> usize {
    bytes.iter().filter(|b| **b == b'\n').count()
}

/// Counts the answers that it is given.
#[derive(Drop)]
struct Answers<'a> {
    count: &'a Cell<usize>,
}

impl Sink for Answers<'_> {
    ghost written = { λ _. None };

    ghost faults = { λ _. 0 };

    fn write(&mut self, buf: &[u8]) -> Result<usize, Failed> {
        self.count
            .set(self.count.get().saturating_add(feeds_in(buf)));
        Ok(buf.len())
    }
}

/// Gives its pieces, one a read, and looks at each read whether the lines that ended in those
/// before are answered.
#[derive(Drop)]
struct Asking<'a> {
    pieces: &'static [&'static [u8]],
    reads: usize,
    ended: usize,
    answered: &'a Cell<usize>,
    is_late: bool,
}

impl Source for Asking<'_> {
    ghost left = { λ _. None };

    ghost faults = { λ _. 0 };

    fn read(&mut self, buf: &mut [u8]) -> Result<usize, Failed> {
        self.is_late = self.is_late || self.answered.get() < self.ended;
        let Some(piece) = self.pieces.get(self.reads) else {
            return Ok(0);
        };
        self.reads = self.reads.saturating_add(1);
        let count = piece.len().min(buf.len());
        buf[..count].copy_from_slice(&piece[..count]);
        self.ended = self.ended.saturating_add(feeds_in(&buf[..count]));
        Ok(count)
    }
}

#[test]
fn answers_come_before_the_next_read(rt: HostRuntime) -> Result<(), Fail> {
    let alloc = rt.alloc();
    let mut files = MemShelf::new(alloc, Vec::new(alloc));
    files.room("D", 2000)?;
    let mut err = MemSink::new(alloc, 100, 100, Vec::new(alloc))?;
    let mut keys = MemSource::new(Vec::from_slice(alloc, b"a\nb\n")?, 9, Vec::new(alloc));
    let mut line = MemSink::new(alloc, 100, 100, Vec::new(alloc))?;
    let words = words_of(alloc, "build func D")?;
    let status = run_once(alloc, &words, &mut files, &mut keys, &mut line, &mut err);
    assert_eq!(rt; status, Status::Done);
    let count = Cell::new(0);
    let mut input = Asking {
        pieces: &[b"a\n", b"b", b"\na\nb\na", b"\n", b"b"],
        reads: 0,
        ended: 0,
        answered: &count,
        is_late: false,
    };
    let mut out = Answers { count: &count };
    let words = words_of(alloc, "query D")?;
    let status = run_once(alloc, &words, &mut files, &mut input, &mut out, &mut err);
    assert_eq!(rt; status, Status::Done);
    assert!(rt; !input.is_late);
    assert_eq!(rt; input.reads, 5);
    assert_eq!(rt; count.get(), 6);
    Ok(())
}
