//! The command `query`.
ghost use Rattle.std.specs.Prelude.{◌≡◌, ◌≢◌, ◌-◌, ◌≤◌, ◌∷◌, [], codes, decimal, length};
ghost use Rattle.sx_edge.specs.Shelf.{idle};
ghost use Rattle.sx_spec.specs.declared.Status.TheVariants.{BadInput};
ghost use Rattle.sx_spec.specs.Causes.{StaysUnless, is_fault};
ghost use Rattle.sx_spec.specs.Command.{query as query_of};
ghost use Rattle.sx_spec.specs.Messages.{message};
ghost use Rattle.sx_spec.specs.Run.{Promise};
ghost use Rattle.sx_spec.specs.World.{world};
ghost use Rattle.sx_spec_program.specs.Program.{sux_program};
ghost use Rattle.sx_cli.specs.Objects.{world_of, EndsOn, TellsOn};
ghost use Rattle.sx_cli.specs.Telling.{Tells};

use crate::keys::MAX_LINE;
use crate::open::{check_dump, find_dump};
use crate::serve::{FIRST_REFUSED, Served, serve};
use crate::telling::{Place, fail, tell, tell_memory};
use std::alloc::Global;
use std::sync::ledger::Ledger;
use sx_edge::line::LineReader;
use sx_edge::shelf::Shelf;
use sx_edge::sink::Sink;
use sx_edge::source::Source;
use sx_spec::Status;
use sx_steps::Steps;
use sx_text::buffer::TextBuffer;

/// Tells why a query line isn't answered. The buffer's memory serves for the message.
fn refuse_line<E: Sink>(text: &mut TextBuffer, err: &mut E, line: u64, told: &str) -> Status
    requires empty { text.old ≡ [] }
    requires short { length told.now ≤ 64 }
    ensures told { TellsOn E.Sink (message (codes "query line " ∷ decimal line ∷ told.now ∷ [])) BadInput
        err.old err.new result }
    ensures counts { StaysUnless (is_fault result) (E.faults err.old) (E.faults err.new) }
{
    text.push(b"sux: query line ");
    text.push_number(line);
    text.push(told.as_bytes());
    text.push(b"\n");
    tell(err, text.as_slice(), Status::BadInput)
}

/// Ends a query whose lines came to this.
fn end<E: Sink>(served: Served, text: &mut TextBuffer, err: &mut E) -> Status
    requires empty { served ≢ Served.OutputFailed → text.old ≡ [] }
    ensures ends { EndsOn E.Sink served err.old err.new result }
    ensures counts { StaysUnless (is_fault result) (E.faults err.old) (E.faults err.new) }
{
    match served {
        Served::Done => Status::Done,
        Served::TooLong { line } => refuse_line(text, err, line, ": longer than 8191 bytes"),
        Served::TooMany => refuse_line(text, err, FIRST_REFUSED, ": more than 4294967296 queries"),
        Served::InputFailed => fail(err, Place::Input),
        Served::OutputFailed => fail(err, Place::Output),
    }
}

/// Answers the lines of input by the dump that is the file of this name, each by its reply and a
/// line feed, within the reads of the dump's words that its kind has. Memory is wanting only
/// before the first line.
pub fn query<F: Shelf, S: Source, O: Sink, E: Sink, L: Ledger>(
    alloc: Global,
    name: &str,
    files: &mut F,
    input: &mut S,
    out: &mut O,
    err: &mut E,
    steps: &mut Steps<L>,
) -> Status
    requires { F.in_use files.old ≡ idle }
    ensures promise { Promise sux_program (query_of name.now)
        (world_of F.Shelf S.Source O.Sink E.Sink files.old input.old out.old err.old)
        (world_of F.Shelf S.Source O.Sink E.Sink files.new input.new out.new err.new)
        (steps.new - steps.old) result }
    ensures closed { F.in_use files.new ≡ idle }
    ensures counted { steps.old ≤ steps.new }
{
    let file = match find_dump(alloc, files, name, err) {
        Ok(file) => file,
        Err(status) => return status,
    };
    let dump = match check_dump(alloc, &file, err) {
        Ok(dump) => dump,
        Err(status) => return status,
    };
    let Ok(mut reader) = LineReader::new(alloc, MAX_LINE) else {
        return tell_memory(err);
    };
    let Ok(mut replies) = TextBuffer::new(alloc) else {
        return tell_memory(err);
    };
    let served = serve(&dump, &mut reader, &mut replies, input, out, steps);
    end(served, &mut replies, err)
}
