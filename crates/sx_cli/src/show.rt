//! The commands `open` and `dump`.
ghost use Rattle.std.specs.Prelude.{◌≡◌, ◌≤◌, ℕ, List, Option};
ghost use Rattle.sx_edge.specs.Shelf.{idle};
ghost use Rattle.sx_spec.specs.Causes.{StaysUnless, is_fault};
ghost use Rattle.sx_spec.specs.Messages.{opened_line};
ghost use Rattle.sx_spec.specs.Run.{Promise};
ghost use Rattle.sx_spec.specs.Show.{dump_text};
ghost use Rattle.sx_spec.specs.World.{world};
ghost use Rattle.sx_spec_program.specs.Program.{sux_program};
ghost use Rattle.sx_dump.specs.Opening.{dump_in};
ghost use Rattle.sx_cli.specs.Objects.{world_with, ShowsOn};
ghost use Rattle.sx_cli.specs.Showing.{Shows, wanted_task};

use crate::open::{check_dump, find_dump};
use crate::telling::{Place, fail, tell_memory};
use std::alloc::Global;
use sx_dump::Dump;
use sx_edge::shelf::Shelf;
use sx_edge::sink::{Sink, write_all};
use sx_fields::bank::{WordBank, WordsBuf};
use sx_spec::Status;
use sx_text::messages::opened_text;

/// Which text of a dump is wanted.
#[derive(Clone, Copy, Debug, PartialEq, Eq)]
pub enum Wanted {
    /// A line with its kind and sizes.
    Line,
    /// All that it holds.
    Whole,
}

/// Writes the line on a dump to out.
fn write_line<B: WordBank + Copy, O: Sink, E: Sink>(
    alloc: Global,
    dump: &Dump<B, WordsBuf>,
    out: &mut O,
    err: &mut E,
) -> Status
    ensures shown { ShowsOn O.Sink E.Sink (opened_line (dump_in (B.words_of dump.now.bank)))
        out.old out.new err.old err.new result }
    ensures counts { StaysUnless (is_fault result) (O.faults out.old) (O.faults out.new) }
    ensures counts_err { StaysUnless (is_fault result) (E.faults err.old) (E.faults err.new) }
{
    match opened_text(alloc, dump.kind(), dump.keys(), dump.words()) {
        Ok(text) => match write_all(out, &text) {
            Ok(()) => Status::Done,
            Err(_) => fail(err, Place::Output),
        },
        Err(_) => tell_memory(err),
    }
}

/// Writes all that a dump holds to out.
fn write_whole<B: WordBank + Copy, O: Sink, E: Sink>(
    dump: &Dump<B, WordsBuf>,
    out: &mut O,
    err: &mut E,
) -> Status
    ensures shown { ShowsOn O.Sink E.Sink (dump_text (dump_in (B.words_of dump.now.bank)))
        out.old out.new err.old err.new result }
    ensures counts { StaysUnless (is_fault result) (O.faults out.old) (O.faults out.new) }
    ensures counts_err { StaysUnless (is_fault result) (E.faults err.old) (E.faults err.new) }
{
    match dump.show(out) {
        Ok(()) => Status::Done,
        Err(_) => fail(err, Place::Output),
    }
}

/// Tells of the dump that is the file of this name.
pub fn show<F: Shelf, O: Sink, E: Sink>(
    alloc: Global,
    name: &str,
    wanted: Wanted,
    files: &mut F,
    out: &mut O,
    err: &mut E,
) -> Status
    requires { F.in_use files.old ≡ idle }
    ensures promise { (input : Option (List ℕ)) (input_faults ticks : ℕ)
        → Promise sux_program (wanted_task wanted name.now)
        (world_with F.Shelf O.Sink E.Sink input input_faults files.old out.old err.old)
        (world_with F.Shelf O.Sink E.Sink input input_faults files.new out.new err.new)
        ticks result }
    ensures closed { F.in_use files.new ≡ idle }
{
    let file = match find_dump(alloc, files, name, err) {
        Ok(file) => file,
        Err(status) => return status,
    };
    let dump = match check_dump(alloc, &file, err) {
        Ok(dump) => dump,
        Err(status) => return status,
    };
    match wanted {
        Wanted::Line => write_line(alloc, &dump, out, err),
        Wanted::Whole => write_whole(&dump, out, err),
    }
}
