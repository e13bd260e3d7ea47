//! The query lines of input, answered by a dump.
ghost use Rattle.std.specs.Prelude.{◌≡◌, ◌≢◌, ◌+◌, ◌-◌, ◌≤◌, ◌++◌, Some, None, false, [], ◌∷◌, length, OnOk, OnErr};
ghost use Rattle.sx_edge.specs.Parts.{AppendsPrefix};
ghost use Rattle.sx_spec.specs.Causes.{HasCause, StaysUnless};
ghost use Rattle.sx_spec.specs.Reply.{answers, reads};
ghost use Rattle.sx_dump.specs.Opening.{dump_in};
ghost use Rattle.sx_cli.specs.Objects.{world_of_streams, FinishesOn};
ghost use Rattle.sx_cli.specs.Serving.{input_failed, out_failed, ServedTo, WritesHeld};
ghost use Rattle.sx_cli.specs.Lines.{longest_line};

use crate::keys::MAX_LINE;
use std::sync::ledger::Ledger;
use sx_dump::Dump;
use sx_edge::line::{LineFault, LineReader, Step};
use sx_edge::sink::Sink;
use sx_edge::source::{Failed, Source};
use sx_fields::bank::{WordBank, WordsBuf};
use sx_steps::Steps;
use sx_text::buffer::TextBuffer;

/// How many query lines are answered at most.
const MAX_QUERIES: u64 = 4_294_967_296;

/// The number of the first line that isn't answered, where there are too many.
pub const FIRST_REFUSED: u64 = MAX_QUERIES + 1;

/// What the lines came to.
#[derive(Clone, Copy, Debug, PartialEq, Eq)]
pub enum Served {
    /// All lines were answered.
    Done,
    /// The line of this number, counted from 1, is too long.
    TooLong { line: u64 },
    /// There are more lines than are answered.
    TooMany,
    /// Input has failed.
    InputFailed,
    /// Out has failed.
    OutputFailed,
}

/// Writes what is held of the answers, where the next line can't be told without a read or the
/// buffer is full.
fn write_held<O: Sink>(replies: &mut TextBuffer, ready: bool, out: &mut O) -> Result<(), Failed>
    ensures ok { OnOk result
        (WritesHeld replies.old replies.new ready (O.written out.old) (O.written out.new)) }
    ensures failed { OnErr result
        (AppendsPrefix (O.written out.old) (O.written out.new) replies.old) }
    ensures cause { HasCause (O.faults out.old) (O.faults out.new) result }
{
    if ready && !replies.is_full() {
        return Ok(());
    }
    replies.write_to(out)
}

/// Puts the reply to a line behind the others.
fn put_reply<B: WordBank + Copy, L: Ledger>(
    dump: &Dump<B, WordsBuf>,
    line: &[u8],
    replies: &mut TextBuffer,
    steps: &mut Steps<L>,
)
    requires short { length line.now ≤ longest_line }
    requires room { length replies.old ≤ 65494 }
    ensures put { replies.new
        ≡ replies.old ++ answers (dump_in (B.words_of dump.now.bank)) (line.now ∷ []) }
    ensures counted { steps.old ≤ steps.new }
    ensures cost { steps.new ≤ steps.old + reads (dump_in (B.words_of dump.now.bank)) line.now }
{
    replies.push_reply(dump.reply(line, steps));
    replies.push(b"\n");
}

/// Writes the last answers.
fn finish<O: Sink>(replies: &mut TextBuffer, out: &mut O, served: Served) -> Served
    ensures finished { FinishesOn O.Sink replies.old out.old out.new served result }
    ensures counts { StaysUnless (out_failed result) (O.faults out.old) (O.faults out.new) }
    ensures empty { result ≢ Served.OutputFailed → replies.new ≡ [] }
{
    match replies.write_to(out) {
        Ok(()) => served,
        Err(Failed) => Served::OutputFailed,
    }
}

/// Answers the lines of input by the dump in order, a number and a line feed for each. What is
/// held of the answers is written before input is read, so that each is seen before the next wait.
pub fn serve<B: WordBank + Copy, S: Source, O: Sink, L: Ledger>(
    dump: &Dump<B, WordsBuf>,
    reader: &mut LineReader,
    replies: &mut TextBuffer,
    input: &mut S,
    out: &mut O,
    steps: &mut Steps<L>,
) -> Served
    requires fresh { reader.old ≡ record {
      max = longest_line;
      number = 0;
      held = [];
      ended = false;
      fault = None;
      line = None;
    } }
    requires empty { replies.old ≡ [] }
    ensures served { ServedTo (dump_in (B.words_of dump.now.bank))
        (world_of_streams S.Source O.Sink input.old out.old)
        (world_of_streams S.Source O.Sink input.new out.new)
        (steps.new - steps.old) result }
    ensures empty { result ≢ Served.OutputFailed → replies.new ≡ [] }
    ensures counted { steps.old ≤ steps.new }
    ensures counts { StaysUnless (input_failed result) (S.faults input.old) (S.faults input.new) }
    ensures counts_out { StaysUnless (out_failed result) (O.faults out.old) (O.faults out.new) }
{
    'lines: loop {
        let ready = reader.has_line();
        match write_held(replies, ready, out) {
            Ok(()) => {}
            Err(_) => return Served::OutputFailed,
        }
        match reader.next(input) {
            Ok(Step::Line) => {
                if reader.number() > MAX_QUERIES {
                    return finish(replies, out, Served::TooMany);
                }
                put_reply(dump, reader.line(), replies, steps);
            }
            Ok(Step::End) => return finish(replies, out, Served::Done),
            Err(LineFault::TooLong { line }) => {
                return finish(replies, out, Served::TooLong { line });
            }
            Err(LineFault::ReadFault) => return Served::InputFailed,
        }
    }
}
