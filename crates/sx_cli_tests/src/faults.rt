//! Which call of a run fails, and what may be called behind it.
ghost use Rattle.std.specs.Prelude.{◌≡◌, IfOk};
ghost use Rattle.sx_edge.specs.Shelf.{idle};
ghost use Rattle.sx_memory.specs.InUse.{use_of};

use crate::tests::{run_once, words_of};
use crate::watched::{Act, Call, Journal, Object, Watched};
use std::alloc::{AllocError, Global};
use sx_memory::shelf::MemShelf;
use sx_memory::sink::MemSink;
use sx_memory::source::MemSource;
use sx_spec::Status;

/// Which call fails.
#[derive(Clone, Copy)]
pub(crate) enum Schedule {
    /// None.
    Calm,
    /// The call of this number on the object, counted from 1.
    Fails { object: Object, at: u64 },
}

impl Schedule {
    /// The numbers of the calls on an object that fail.
    fn fails_on(self, alloc: Global, object: Object) -> Result<Vec<u64>, AllocError> {
        match self {
            Schedule::Fails { object: other, at } if other == object => Vec::from_slice(
                alloc,
                &[at],
            ),
            _ => Ok(Vec::new(alloc)),
        }
    }
}

/// The call that failed first, and those behind it.
pub(crate) fn split_at_fault(calls: &[Call]) -> Option<(Call, &[Call])> {
    let place = calls.iter().position(|call| call.failed)?;
    Some((calls[place], &calls[place + 1..]))
}

/// Whether the calls are those that may follow a failed one: the file in use is closed, if one is,
/// and then a message is written.
pub(crate) fn are_last_calls(calls: &[Call]) -> bool {
    let closes = match calls.first() {
        Some(call) => call.object == Object::Files && call.act == Act::Close,
        None => false,
    };
    let rest = if closes { &calls[1..] } else { calls };
    rest.iter()
        .all(|call| call.object == Object::Err && !call.failed)
}

/// Whether a file was made empty, or that was tried.
pub(crate) fn creates(calls: &[Call]) -> bool {
    calls.iter().any(|call| call.act == Act::Create)
}

/// A run: its words, what input gives and in pieces of how many bytes, and the files D and V, which
/// aren't there where they are empty.
#[derive(Clone, Copy)]
pub(crate) struct Job<'a> {
    pub(crate) line: &'a str,
    pub(crate) input: &'a [u8],
    pub(crate) piece: usize,
    pub(crate) dump: &'a [u8],
    pub(crate) values: &'a [u8],
}

impl<'a> Job<'a> {
    /// A job over input in pieces of 3 bytes and the file D.
    pub(crate) fn plain(line: &'a str, input: &'a [u8], dump: &'a [u8]) -> Job<'a> {
        Job {
            line,
            input,
            piece: 3,
            dump,
            values: b"",
        }
    }

    /// The files of the job.
    fn shelf(&self, alloc: Global, fails: Vec<u64>) -> Result<MemShelf, AllocError>
        ensures { IfOk result (λ files. use_of files.used ≡ idle) }
    {
        let mut files = MemShelf::new(alloc, fails);
        files.room("D", 16000)?;
        if !self.dump.is_empty() {
            files.put("D", self.dump)?;
        }
        if !self.values.is_empty() {
            files.put("V", self.values)?;
        }
        Ok(files)
    }

    /// Runs the job over objects of which out and err take 8 bytes a write.
    pub(crate) fn run(&self, alloc: Global, schedule: Schedule) -> Result<Ended, AllocError> {
        let words = words_of(alloc, self.line)?;
        let journal = Journal::new(alloc);
        let shelf = self.shelf(alloc, schedule.fails_on(alloc, Object::Files)?)?;
        let mut files = Watched::new(shelf, Object::Files, &journal);
        let bytes = Vec::from_slice(alloc, self.input)?;
        let fails = schedule.fails_on(alloc, Object::Input)?;
        let source = MemSource::new(bytes, self.piece.max(1), fails);
        let mut input = Watched::new(source, Object::Input, &journal);
        let sink = MemSink::new(alloc, 4000, 8, schedule.fails_on(alloc, Object::Out)?)?;
        let mut out = Watched::new(sink, Object::Out, &journal);
        let sink = MemSink::new(alloc, 1000, 8, schedule.fails_on(alloc, Object::Err)?)?;
        let mut err = Watched::new(sink, Object::Err, &journal);
        let status = run_once(alloc, &words, &mut files, &mut input, &mut out, &mut err);
        Ok(Ended {
            status,
            files: files.into_inner(),
            input: input.into_inner(),
            out: out.into_inner(),
            err: err.into_inner(),
            calls: journal.into_calls(),
        })
    }
}

/// A run that has ended: the objects that it leaves, and the calls that it made.
#[derive(Drop)]
pub(crate) struct Ended {
    pub(crate) status: Status,
    pub(crate) files: MemShelf,
    pub(crate) input: MemSource,
    pub(crate) out: MemSink,
    pub(crate) err: MemSink,
    pub(crate) calls: Vec<Call>,
}

impl Ended {
    /// How many calls the objects have counted.
    pub(crate) fn calls_made(&self) -> u64 {
        self.files
            .calls()
            .saturating_add(self.input.calls())
            .saturating_add(self.out.calls())
            .saturating_add(self.err.calls())
    }

    /// The bytes of the file D, or none where it isn't there.
    pub(crate) fn dump(&self) -> &[u8] {
        match self.files.bytes("D") {
            Some(bytes) => bytes,
            None => b"",
        }
    }
}
