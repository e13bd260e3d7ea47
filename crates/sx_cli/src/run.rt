//! A run of the program.
ghost use Rattle.std.specs.Prelude.{◌≡◌, ◌-◌, ◌≤◌, ◌⊎◌};
ghost use Rattle.sx_edge.specs.Shelf.{idle};
ghost use Rattle.sx_spec.specs.declared.Status.TheVariants.{Memory, Usage};
ghost use Rattle.sx_spec.specs.Causes.{StaysUnless, is_fault};
ghost use Rattle.sx_spec.specs.Command.{command};
ghost use Rattle.sx_spec.specs.Messages.{memory_text, usage_text};
ghost use Rattle.sx_spec.specs.Run.{Promise};
ghost use Rattle.sx_spec.specs.World.{world};
ghost use Rattle.sx_spec_program.specs.Program.{sux_program};
ghost use Rattle.sx_cli.specs.Objects.{world_of, TellsOrWants};
ghost use Rattle.sx_cli.specs.Telling.{Tells};

use crate::build::build;
use crate::query::query;
use crate::show::{Wanted, show};
use crate::telling::{tell, tell_memory};
use crate::trial::trial;
use std::alloc::Global;
use std::sync::ledger::Ledger;
use sx_edge::shelf::Shelf;
use sx_edge::sink::Sink;
use sx_edge::source::Source;
use sx_edge::words::WordList;
use sx_spec::{Rule, Status};
use sx_steps::Steps;
use sx_text::messages::usage_message;
use sx_words::{Task, read_words};

/// Tells which rule of usage the words break.
fn refuse_words<E: Sink>(alloc: Global, err: &mut E, rule: Rule) -> Status
    ensures told { TellsOrWants E.Sink (usage_text rule) Usage err.old err.new result }
    ensures counts { StaysUnless (is_fault result) (E.faults err.old) (E.faults err.new) }
{
    match usage_message(alloc, rule) {
        Ok(text) => tell(err, &text, Status::Usage),
        Err(_) => tell_memory(err),
    }
}

/// Does what the words ask for, over these objects. The steps rise by the reads of a dump's words.
///
/// The promise covers every way in which a run ends: a status other than `Fault` and `Memory`
/// comes with the outcome that is due for the words, the files and input, and only then; `Memory`
/// leaves no dump; `Fault` comes only where an object has counted a fault, and leaves a part of
/// what is due.
pub fn run<F: Shelf, S: Source, O: Sink, E: Sink, L: Ledger>(
    alloc: Global,
    words: &WordList,
    files: &mut F,
    input: &mut S,
    out: &mut O,
    err: &mut E,
    steps: &mut Steps<L>,
) -> Status
    requires { F.in_use files.old ≡ idle }
    ensures promise { Promise sux_program (command words.now)
        (world_of F.Shelf S.Source O.Sink E.Sink files.old input.old out.old err.old)
        (world_of F.Shelf S.Source O.Sink E.Sink files.new input.new out.new err.new)
        (steps.new - steps.old) result }
    ensures closed { F.in_use files.new ≡ idle }
    ensures counted { steps.old ≤ steps.new }
{
    let Ok(task) = read_words(alloc, words) else {
        return tell_memory(err);
    };
    match task {
        Task::Usage(rule) => refuse_words(alloc, err, rule),
        Task::Build(task) => build(alloc, &task, files, input, out, err, steps),
        Task::Query(name) => query(alloc, name.as_str(), files, input, out, err, steps),
        Task::Open(name) => show(alloc, name.as_str(), Wanted::Line, files, out, err),
        Task::Dump(name) => show(alloc, name.as_str(), Wanted::Whole, files, out, err),
        Task::Trial { kind, keys } => trial(alloc, kind, keys, out, err, steps),
    }
}
