//! The lines of a source and of a file.
ghost use Rattle.std.specs.Prelude.{◌≡◌, ◌≢◌, ◌+◌, ◌-◌, ◌^◌, ◌<◌, ◌≤◌, ℕ, IfOk, OnErr, OnOk, length, take, drop, vec_len};
ghost use Rattle.sx_spec.specs.Causes.{HasCause, Rose, StaysUnless};
ghost use Rattle.std.specs.Io.KnownBytes.{Keeps};
ghost use Rattle.sx_spec.specs.World.{KeepsFiles};
ghost use Rattle.sx_edge.specs.Places.{IsFeedPlace, TakesBehind};
ghost use Rattle.sx_edge.specs.Shelf.{reading};

pub(crate) mod feed;

use crate::line::feed::{Feed, FromFile, FromSource};
use crate::shelf::Shelf;
use crate::source::{Failed, Source};
use memchr::memchr;
use std::alloc::{AllocError, Global};
use std::marker::Model;

/// Why no further line is given.
#[derive(Clone, Copy, Debug, PartialEq, Eq)]
pub enum LineFault {
    /// The source has failed.
    ReadFault,
    /// The line of this number, counted from 1, is longer than the reader's bound.
    TooLong { line: u64 },
}

/// What a call of `next` found.
#[derive(Clone, Copy, Debug, PartialEq, Eq)]
pub enum Step {
    /// A further line.
    Line,
    /// No further line.
    End,
}

// The least bytes of a reader's buffer.
const BUFFER: usize = 65536;

/// Cuts the bytes of a source into lines, each ended by a line feed; what follows the last one is a
/// line where it is not empty.
#[derive(Drop)]
pub struct LineReader {
    buf: Vec<u8>,
    // The bytes held are those of `buf` from `start` to before `end`.
    start: usize,
    end: usize,
    // The place of the first line feed held, or `end`.
    feed: usize,
    max: usize,
    number: u64,
    ended: bool,
    fault: Option<LineFault>,
    // The last line, until the next read moves the bytes.
    given: bool,
    line_start: usize,
    line_end: usize,
}

impl Model for LineReader {
    ghost use Rattle.std.specs.Prelude.{if◌then◌else◌, Some, None, take, drop, ◌-◌};
    ghost use Rattle.sx_edge.specs.Reading.{Reading};

    ghost Value = { Reading };

    ghost use Rattle.sx_edge.specs.Places.{bytes_between};
    ghost use Rattle.sx_edge.specs.Buffer.{IsBuffer};

    ghost view = { λ r. record {
      max = r.max;
      number = r.number;
      held = bytes_between r.buf.items r.start r.end;
      ended = r.ended;
      fault = r.fault;
      line = if r.given then Some (bytes_between r.buf.items r.line_start r.line_end) else None;
    } };

    ghost invariant = { IsBuffer };
}

impl LineReader {
    ghost use Rattle.std.specs.Prelude.{◌≡◌, ◌<◌, ◌≤◌, ◌+◌, ◌-◌, ◌^◌, ◌++◌, List, IfOk, [], None, true, false, length, MatchResult, OnOk, OnErr, Some, IfSome, IsSome};
    ghost use Rattle.std.specs.Io.KnownBytes.{Keeps};
    ghost use Rattle.sx_edge.specs.Reading.{is_ready, read_failed, ReadsNothing, Takes, GivesLine, GivesEnd, FailsRead, IsTooLong, SameBut, Fills, CutsLine, Waits, first_line};
    ghost use Rattle.sx_edge.specs.declared.line.LineFault.TheVariants.{TooLong, ReadFault};

    /// A reader of lines of at most `max` bytes. All its memory is taken here.
    pub fn new(alloc: Global, max: usize) -> Result<LineReader, AllocError>
        requires { max ≤ 2 ^ 20 }
        ensures { IfOk result (λ r. r ≡ record {
          max = max;
          number = 0;
          held = [];
          ended = false;
          fault = None;
          line = None;
        }) }
    {
        let buf = line_room(alloc, max)?;
        Ok(LineReader {
            buf,
            start: 0,
            end: 0,
            feed: 0,
            max,
            number: 0,
            ended: false,
            fault: None,
            given: false,
            line_start: 0,
            line_end: 0,
        })
    }

    /// The number of the last line, counted from 1; 0 before the first.
    pub fn number(&self) -> u64
        ensures { result ≡ self.now.number }
    {
        self.number
    }

    /// The bytes of the last line, without its line feed.
    pub fn line(&self) -> &[u8]
        requires { IsSome self.now.line }
        ensures { Some result.now ≡ self.now.line }
    {
        &self.buf[self.line_start..self.line_end]
    }

    /// Whether the next call of `next` reads nothing from its source.
    pub fn has_line(&self) -> bool
        ensures { result ≡ is_ready self.now }
    {
        self.fault.is_some()
            || self.ended
            || self.feed < self.end
            || self.end - self.start > self.max
    }

    /// Goes on to the next line, which `line` then gives. After a fault each call answers the same
    /// fault and reads nothing.
    pub fn next<S: Source>(&mut self, src: &mut S) -> Result<Step, LineFault>
        requires { self.old.number < 2 ^ 64 - 1 }
        ensures line { result ≡ Ok Step.Line
            → GivesLine self.old self.new (S.left src.old) (S.left src.new) }
        ensures end { result ≡ Ok Step.End
            → GivesEnd self.old self.new (S.left src.old) (S.left src.new) }
        ensures read_fault { result ≡ Err ReadFault → self.old.fault ≡ None
            → FailsRead self.old self.new (S.left src.old) (S.left src.new) × Rose (S.faults src.old) (S.faults src.new) }
        ensures too_long { (n : ℕ) → result ≡ Err (TooLong n) → self.old.fault ≡ None
            → IsTooLong self.old self.new (S.left src.old) (S.left src.new) n }
        ensures again { IfSome self.old.fault (λ fault. (result ≡ Err fault) × (self.new ≡ self.old)
            × ReadsNothing (S.left src.old) (S.left src.new) (S.faults src.old) (S.faults src.new)) }
        ensures fault { MatchResult result (λ _. self.new.fault ≡ None)
            (λ fault. self.new.fault ≡ Some fault) }
        ensures ready { is_ready self.old ≡ true
            → ReadsNothing (S.left src.old) (S.left src.new) (S.faults src.old) (S.faults src.new) }
        ensures same { self.new.max ≡ self.old.max }
        ensures number { self.new.number ≤ self.old.number + 1 }
        ensures counts { StaysUnless (read_failed result) (S.faults src.old) (S.faults src.new) }
    {
        self.next_from::<FromSource, S>(src)
    }

    /// As `next`, on the file being read, whose shelf counts the faults.
    pub fn next_file<F: Shelf>(&mut self, files: &mut F) -> Result<Step, LineFault>
        requires number { self.old.number < 2 ^ 64 - 1 }
        requires reading { F.in_use files.old ≡ reading }
        ensures line { result ≡ Ok Step.Line
            → GivesLine self.old self.new (F.rest files.old) (F.rest files.new) }
        ensures end { result ≡ Ok Step.End
            → GivesEnd self.old self.new (F.rest files.old) (F.rest files.new) }
        ensures read_fault { result ≡ Err ReadFault → self.old.fault ≡ None
            → FailsRead self.old self.new (F.rest files.old) (F.rest files.new) × Rose (F.faults files.old) (F.faults files.new) }
        ensures too_long { (n : ℕ) → result ≡ Err (TooLong n) → self.old.fault ≡ None
            → IsTooLong self.old self.new (F.rest files.old) (F.rest files.new) n }
        ensures again { IfSome self.old.fault (λ fault. (result ≡ Err fault) × (self.new ≡ self.old)
            × ReadsNothing (F.rest files.old) (F.rest files.new) (F.faults files.old) (F.faults files.new)) }
        ensures fault { MatchResult result (λ _. self.new.fault ≡ None)
            (λ fault. self.new.fault ≡ Some fault) }
        ensures ready { is_ready self.old ≡ true
            → ReadsNothing (F.rest files.old) (F.rest files.new) (F.faults files.old)
            (F.faults files.new) }
        ensures same { self.new.max ≡ self.old.max }
        ensures number { self.new.number ≤ self.old.number + 1 }
        ensures counts { StaysUnless (read_failed result) (F.faults files.old)
            (F.faults files.new) }
        ensures stays { F.in_use files.new ≡ reading }
        ensures files { KeepsFiles (F.files files.old) (F.files files.new) }
    {
        self.next_from::<FromFile, F>(files)
    }

    // Goes on to the next line, by reads of this kind.
    fn next_from<P: Feed<T>, T>(&mut self, from: &mut T) -> Result<Step, LineFault>
        requires number { self.old.number < 2 ^ 64 - 1 }
        requires may_read { P.may_read from.old }
        ensures line { result ≡ Ok Step.Line
            → GivesLine self.old self.new (P.left from.old) (P.left from.new) }
        ensures end { result ≡ Ok Step.End
            → GivesEnd self.old self.new (P.left from.old) (P.left from.new) }
        ensures read_fault { result ≡ Err ReadFault → self.old.fault ≡ None
            → FailsRead self.old self.new (P.left from.old) (P.left from.new) × Rose (P.faults from.old) (P.faults from.new) }
        ensures too_long { (n : ℕ) → result ≡ Err (TooLong n) → self.old.fault ≡ None
            → IsTooLong self.old self.new (P.left from.old) (P.left from.new) n }
        ensures again { IfSome self.old.fault (λ fault. (result ≡ Err fault) × (self.new ≡ self.old)
            × ReadsNothing (P.left from.old) (P.left from.new) (P.faults from.old) (P.faults from.new)) }
        ensures fault { MatchResult result (λ _. self.new.fault ≡ None)
            (λ fault. self.new.fault ≡ Some fault) }
        ensures ready { is_ready self.old ≡ true
            → ReadsNothing (P.left from.old) (P.left from.new) (P.faults from.old) (P.faults from.new) }
        ensures same { self.new.max ≡ self.old.max }
        ensures number { self.new.number ≤ self.old.number + 1 }
        ensures counts { StaysUnless (read_failed result) (P.faults from.old) (P.faults from.new) }
        ensures stays { P.may_read from.new }
        ensures keeps { P.keeps from.old from.new }
    {
        if let Some(fault) = self.fault {
            return Err(fault);
        }
        match self.fill_line::<P, T>(from) {
            Ok(()) => self.cut(),
            Err(Failed) => {
                self.fault = Some(LineFault::ReadFault);
                Err(LineFault::ReadFault)
            }
        }
    }

    // Reads until the next line can be told.
    fn fill_line<P: Feed<T>, T>(&mut self, from: &mut T) -> Result<(), Failed>
        requires fault { self.old.fault ≡ None }
        requires may_read { P.may_read from.old }
        ensures takes { Takes self.old self.new (P.left from.old) (P.left from.new) [] }
        ensures ok { OnOk result (is_ready self.new ≡ true) }
        ensures failed { OnErr result (Waits self.new) }
        ensures ready { is_ready self.old ≡ true
            → OnErr result ⊥ × ReadsNothing (P.left from.old) (P.left from.new) (P.faults from.old) (P.faults from.new) }
        ensures same { SameBut self.old self.new }
        ensures cause { HasCause (P.faults from.old) (P.faults from.new) result }
        ensures stays { P.may_read from.new }
        ensures keeps { P.keeps from.old from.new }
    {
        'reads: while !self.has_line() {
            self.fill::<P, T>(from)?;
        }
        Ok(())
    }

    // Reads once.
    fn fill<P: Feed<T>, T>(&mut self, from: &mut T) -> Result<(), Failed>
        requires ready { is_ready self.old ≡ false }
        requires may_read { P.may_read from.old }
        ensures bytes { OnOk result (Fills self.old self.new (P.left from.old) (P.left from.new)) }
        ensures failed { OnErr result (Keeps (P.left from.old) (P.left from.new)
            × (self.new.held ≡ self.old.held) × (self.new.ended ≡ self.old.ended)) }
        ensures same { SameBut self.old self.new }
        ensures cause { HasCause (P.faults from.old) (P.faults from.new) result }
        ensures stays { P.may_read from.new }
        ensures keeps { P.keeps from.old from.new }
    {
        self.given = false;
        self.buf.copy_within(self.start..self.end, 0);
        self.end -= self.start;
        self.start = 0;
        self.feed = self.end;
        let count = read_behind::<P, T>(from, &mut self.buf, self.end)?;
        self.ended = count == 0;
        self.feed = feed_place(&self.buf, self.end, self.end + count);
        self.end += count;
        Ok(())
    }

    // Cuts the first line off the bytes held.
    fn cut(&mut self) -> Result<Step, LineFault>
        requires number { self.old.number < 2 ^ 64 - 1 }
        requires fault { self.old.fault ≡ None }
        requires ready { is_ready self.old ≡ true }
        ensures line { result ≡ Ok Step.Line → CutsLine self.old self.new }
        ensures end { result ≡ Ok Step.End → (self.old.ended ≡ true) × (self.new.ended ≡ true)
            × (self.old.held ≡ []) × (self.new.held ≡ []) × (self.new.number ≡ self.old.number) }
        ensures read { result ≢ Err ReadFault }
        ensures too_long { (n : ℕ) → result ≡ Err (TooLong n) → (n ≡ self.old.number + 1)
            × (self.new.number ≡ self.old.number)
            × (self.new.held ≡ self.old.held) × (self.new.ended ≡ self.old.ended)
            × ((rest : List ℕ) → self.old.max < length (first_line (self.old.held ++ rest))) }
        ensures fault { MatchResult result (λ _. self.new.fault ≡ None)
            (λ fault. self.new.fault ≡ Some fault) }
        ensures same { self.new.max ≡ self.old.max }
    {
        if self.feed - self.start > self.max {
            let fault = LineFault::TooLong {
                line: self.number + 1,
            };
            self.fault = Some(fault);
            return Err(fault);
        }
        if self.start == self.end {
            self.given = false;
            return Ok(Step::End);
        }
        self.line_start = self.start;
        self.line_end = self.feed;
        self.given = true;
        self.start = (self.feed + 1).min(self.end);
        self.feed = feed_place(&self.buf, self.start, self.end);
        self.number += 1;
        Ok(Step::Line)
    }
}

// Room for lines of at most `max` bytes: for one byte more and a line feed, and for long reads.
fn line_room(alloc: Global, max: usize) -> Result<Vec<u8>, AllocError>
    requires { max ≤ 2 ^ 20 }
    ensures room { IfOk result (λ buf. max + 2 ≤ vec_len buf) }
    ensures bound { IfOk result (λ buf. vec_len buf ≤ 2 ^ 21) }
{
    vec![in alloc; 0u8; BUFFER.max(max + 2)]
}

// The place of the first line feed from `start` to before `end`, or `end`.
fn feed_place(buf: &[u8], start: usize, end: usize) -> usize
    requires order { start ≤ end }
    requires within { end ≤ length buf.now }
    ensures { IsFeedPlace buf.now start end result }
{
    match memchr(b'\n', &buf[start..end]) {
        Some(at) => start + at,
        None => end,
    }
}

// Reads once into what follows the first `len` bytes of the buffer.
pub(crate) fn read_behind<P: Feed<T>, T>(
    from: &mut T,
    buf: &mut [u8],
    len: usize,
) -> Result<usize, Failed>
    requires room { len < length buf.old }
    requires may_read { P.may_read from.old }
    ensures took { IfOk result
        (λ count. TakesBehind (P.left from.old) (P.left from.new) buf.old buf.new len count) }
    ensures failed { OnErr result (Keeps (P.left from.old) (P.left from.new)) }
    ensures front { take len buf.new ≡ take len buf.old }
    ensures cause { HasCause (P.faults from.old) (P.faults from.new) result }
    ensures stays { P.may_read from.new }
    ensures keeps { P.keeps from.old from.new }
{
    P::read(from, &mut buf[len..])
}
