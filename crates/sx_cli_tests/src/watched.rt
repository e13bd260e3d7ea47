//! Objects that hand each call on to another, and note it in a journal.

ghost use Rattle.std.specs.Prelude.{◌≡◌};

use std::alloc::Global;
use std::cell::RefCell;
use sx_edge::shelf::Shelf;
use sx_edge::sink::Sink;
use sx_edge::source::{Failed, Source};

/// The object of a call.
#[derive(Clone, Copy, Debug, PartialEq, Eq)]
pub(crate) enum Object {
    Files,
    Input,
    Out,
    Err,
}

/// What is asked of an object.
#[derive(Clone, Copy, Debug, PartialEq, Eq)]
pub(crate) enum Act {
    Open,
    Read,
    Create,
    Write,
    Close,
}

/// A call that was made, and whether it failed.
#[derive(Clone, Copy, Debug)]
pub(crate) struct Call {
    pub(crate) object: Object,
    pub(crate) act: Act,
    pub(crate) failed: bool,
}

/// The calls of all objects of a run, in the order in which they were made. One for which there is
/// no memory is left out.
#[derive(Drop)]
pub(crate) struct Journal {
    calls: RefCell<Vec<Call>>,
}

impl Journal {
    /// No call was made yet.
    pub(crate) fn new(alloc: Global) -> Journal {
        Journal {
            calls: RefCell::new(Vec::new(alloc)),
        }
    }

    fn note(&self, call: Call) {
        if let Ok(mut calls) = self.calls.try_borrow_mut() {
            let _ = calls.push(call);
        }
    }

    /// The calls that were made.
    pub(crate) fn into_calls(self) -> Vec<Call> {
        self.calls.into_inner()
    }
}

/// An object whose calls are noted.
#[derive(Drop)]
pub(crate) struct Watched<'a, T> {
    inner: T,
    object: Object,
    journal: &'a Journal,
}

impl<'a, T> Watched<'a, T> {
    /// Hands the calls on to `inner`.
    pub(crate) fn new(inner: T, object: Object, journal: &'a Journal) -> Watched<'a, T>
        ensures { result.inner ≡ inner }
    {
        Watched {
            inner,
            object,
            journal,
        }
    }

    /// The object that the calls were handed on to.
    pub(crate) fn into_inner(self) -> T
        ensures { result ≡ self.entry.inner }
    {
        self.inner
    }

    fn note(&self, act: Act, failed: bool) {
        self.journal.note(Call {
            object: self.object,
            act,
            failed,
        });
    }
}

impl<T: Source> Source for Watched<'_, T> {
    ghost left = { λ s. T.left s.inner };

    ghost faults = { λ s. T.faults s.inner };

    fn read(&mut self, buf: &mut [u8]) -> Result<usize, Failed> {
        let count = self.inner.read(buf);
        self.note(Act::Read, count.is_err());
        count
    }
}

impl<T: Sink> Sink for Watched<'_, T> {
    ghost written = { λ s. T.written s.inner };

    ghost faults = { λ s. T.faults s.inner };

    fn write(&mut self, buf: &[u8]) -> Result<usize, Failed> {
        let count = self.inner.write(buf);
        self.note(Act::Write, count.is_err());
        count
    }
}

impl<T: Shelf> Shelf for Watched<'_, T> {
    ghost in_use = { λ s. T.in_use s.inner };

    ghost files = { λ s. T.files s.inner };

    ghost rest = { λ s. T.rest s.inner };

    ghost writing_to = { λ s. T.writing_to s.inner };

    ghost faults = { λ s. T.faults s.inner };

    fn open_file(&mut self, name: &str) -> Result<bool, Failed> {
        let found = self.inner.open_file(name);
        self.note(Act::Open, found.is_err());
        found
    }

    fn read(&mut self, buf: &mut [u8]) -> Result<usize, Failed> {
        let count = self.inner.read(buf);
        self.note(Act::Read, count.is_err());
        count
    }

    fn create(&mut self, name: &str) -> Result<(), Failed> {
        let made = self.inner.create(name);
        self.note(Act::Create, made.is_err());
        made
    }

    fn write(&mut self, buf: &[u8]) -> Result<usize, Failed> {
        let count = self.inner.write(buf);
        self.note(Act::Write, count.is_err());
        count
    }

    fn close(&mut self) -> Result<(), Failed> {
        let closed = self.inner.close();
        self.note(Act::Close, closed.is_err());
        closed
    }
}
