//! What a dump answers a line: a number, none, or that the line is too long.

ghost use Rattle.std.specs.Prelude.{◌≡◌, ◌+◌, ◌<◌, ◌≤◌, length, map};
ghost use Rattle.sx_spec.specs.Reply.{reads};
ghost use Rattle.sx_dump.specs.Opening.{dump_in};
ghost use Rattle.sux_c.specs.Answers.{answer_for, number_of, number_or, status_of};

use crate::status::{DONE, NO_NUMBER, TOO_LONG};
use std::marker::Brand;
use std::sync::ledger::{Blank, Ledger};
use sx_bits::BitView;
use sx_dump::Dump;
use sx_fields::bank::Words;
use sx_steps::Steps;

/// How many bytes a line has at most.
const MAX_LINE: usize = 8191;

/// What a dump answers a line.
#[derive(Clone, Copy, Drop)]
pub(crate) enum Answer {
    /// The number of the line.
    Number(u64),
    /// The dump knows none for it.
    NoNumber,
    /// It is longer than a line may be.
    TooLong,
}

impl Answer {
    /// How it is told.
    pub fn status(self) -> u8
        ensures { result ≡ status_of self }
    {
        match self {
            Answer::Number(_) => DONE,
            Answer::NoNumber => NO_NUMBER,
            Answer::TooLong => TOO_LONG,
        }
    }

    /// The number, and another one where there is none.
    pub fn number_or(self, other: u64) -> u64
        ensures { result ≡ number_or self other }
    {
        match self {
            Answer::Number(number) => number,
            Answer::NoNumber | Answer::TooLong => other,
        }
    }
}

/// What a dump answers a line, within the reads of its reply.
#[inline(always)]
fn ask_counted<L: Ledger>(
    dump: &Dump<Words<'_>, Words<'_>>,
    line: &[u8],
    steps: &mut Steps<L>,
) -> Answer
    ensures value { result ≡ answer_for (dump_in dump.now.bank.words.now) line.now }
    ensures cost { steps.new ≤ steps.old + reads (dump_in dump.now.bank.words.now) line.now }
{
    if line.len() > MAX_LINE {
        return Answer::TooLong;
    }
    match dump.string_reply(&BitView::key_bits(line), steps) {
        Some(number) => Answer::Number(number),
        None => Answer::NoNumber,
    }
}

/// The same, under a count of its own.
#[inline(always)]
fn ask_under<L: Ledger>(dump: &Dump<Words<'_>, Words<'_>>, line: &[u8], blank: Blank) -> Answer
    requires name { blank.name ≡ L.name }
    requires parts { blank.parts ≡ L.parts }
    requires some { 0 < blank.parts }
    ensures { result ≡ answer_for (dump_in dump.now.bank.words.now) line.now }
{
    let mut steps = Steps::<L>::new(blank);
    ask_counted(dump, line, &mut steps)
}

/// What a dump answers a line.
#[inline(always)]
pub(crate) fn ask(dump: &Dump<Words<'_>, Words<'_>>, line: &[u8]) -> Answer
    ensures { result ≡ answer_for (dump_in dump.now.bank.words.now) line.now }
{
    ask_under::<Brand>(dump, line, Blank::new(1))
}

/// What a dump answers each of the lines, in order: how it is told, and the number, 0 where there
/// is none.
pub(crate) fn ask_all(
    dump: &Dump<Words<'_>, Words<'_>>,
    lines: &[&[u8]],
    values: &mut [u64],
    statuses: &mut [u8],
)
    requires values { length values.old ≡ length lines.now }
    requires statuses { length statuses.old ≡ length lines.now }
    ensures values { values.new
        ≡ map (λ l. number_of (answer_for (dump_in dump.now.bank.words.now) l.now)) lines.now }
    ensures statuses { statuses.new
        ≡ map (λ l. status_of (answer_for (dump_in dump.now.bank.words.now) l.now)) lines.now }
{
    'lines: for i in 0..lines.len() {
        let answer = ask(dump, lines[i]);
        values[i] = answer.number_or(0);
        statuses[i] = answer.status();
    }
}
