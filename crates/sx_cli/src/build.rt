//! The command `build`.
ghost use Rattle.std.specs.Prelude.{◌≡◌, ◌≢◌, ◌≤◌, ◌⊎◌, ℕ, MatchResult, length};
ghost use Rattle.sx_edge.specs.Shelf.{idle};
ghost use Rattle.sx_spec.specs.declared.Status.TheVariants.{BadInput, Memory};
ghost use Rattle.sx_spec.specs.Causes.{StaysUnless, is_fault};
ghost use Rattle.sx_spec.specs.Command.{build as build_of_task};
ghost use Rattle.sx_spec.specs.Messages.{key_text, values_text, memory_text};
ghost use Rattle.sx_spec.specs.Run.{Promise};
ghost use Rattle.sx_spec.specs.Values.{plain_values};
ghost use Rattle.sx_spec.specs.World.{world, KeepsFiles};
ghost use Rattle.sx_spec_program.specs.Program.{sux_program, IsOfferedPlan, IsOfferedBuild};
ghost use Rattle.sx_cli.specs.Objects.{world_of, world_without_input, TellsOrWants};
ghost use Rattle.sx_cli.specs.Building.{build_of};
ghost use Rattle.sx_text.specs.Reasons.{fault_of};
ghost use Rattle.sx_cli.specs.Storing.{Stores, GivenEnds};
ghost use Rattle.sx_cli.specs.Telling.{Tells};
ghost use Rattle.sx_cli.specs.ValueLines.{values_failed, Given, StopsGiving};
ghost use Rattle.sx_text.specs.Reasons.{values_fault_of};

use crate::dump::write_dump;
use crate::keys::{KeysStop, read_keys};
use crate::telling::{Place, fail, tell, tell_memory};
use crate::values::{ValuesStop, ranks, read_values};
use std::alloc::Global;
use std::sync::ledger::Ledger;
use sx_bits::KeyList;
use sx_edge::shelf::Shelf;
use sx_edge::sink::{Sink, write_all};
use sx_edge::source::Source;
use sx_spec::Status;
use sx_steps::Steps;
use sx_text::messages::{KeyReason, ValuesFault, key_message, values_message};
use sx_trial::{Tried, try_seeds};
use sx_words::BuildTask;

/// Tells why a line is no key.
fn refuse_key<E: Sink>(alloc: Global, err: &mut E, line: u64, reason: KeyReason) -> Status
    ensures told { TellsOrWants E.Sink (key_text (fault_of line reason)) BadInput
        err.old err.new result }
    ensures counts { StaysUnless (is_fault result) (E.faults err.old) (E.faults err.new) }
{
    match key_message(alloc, line, reason) {
        Ok(text) => tell(err, &text, Status::BadInput),
        Err(_) => tell_memory(err),
    }
}

/// Tells what is wrong with a values file for so many keys.
fn refuse_values<E: Sink>(alloc: Global, err: &mut E, keys: u32, fault: ValuesFault) -> Status
    ensures told { TellsOrWants E.Sink (values_text keys (values_fault_of fault)) BadInput
        err.old err.new result }
    ensures counts { StaysUnless (is_fault result) (E.faults err.old) (E.faults err.new) }
{
    match values_message(alloc, keys, fault) {
        Ok(text) => tell(err, &text, Status::BadInput),
        Err(_) => tell_memory(err),
    }
}

/// The values of so many keys: those of the file that the task names, or else the keys' numbers.
fn values_for<F: Shelf>(
    alloc: Global,
    files: &mut F,
    task: &BuildTask,
    keys: u32,
) -> Result<Vec<u64>, ValuesStop>
    requires { F.in_use files.old ≡ idle }
    ensures values { MatchResult result
        (λ v. Given task.now.values keys (F.files files.old) v.items)
        (StopsGiving task.now.values keys (F.files files.old) (F.faults files.old)
        (F.faults files.new)) }
    ensures files { KeepsFiles (F.files files.old) (F.files files.new) }
    ensures counts { StaysUnless (values_failed result) (F.faults files.old) (F.faults files.new) }
    ensures closed { F.in_use files.new ≡ idle }
{
    match &task.values {
        Some(name) => read_values(alloc, files, name.as_str(), keys),
        None => Ok(ranks(alloc, keys)?),
    }
}

/// Writes the dump to its file, and then the line on it to out.
fn store<F: Shelf, O: Sink, E: Sink>(
    name: &str,
    words: &[u64],
    line: &[u8],
    files: &mut F,
    out: &mut O,
    err: &mut E,
) -> Status
    requires { F.in_use files.old ≡ idle }
    ensures stored { Stores name.now words.now line.now
        (world_without_input F.Shelf O.Sink E.Sink files.old out.old err.old)
        (world_without_input F.Shelf O.Sink E.Sink files.new out.new err.new)
        result }
    ensures closed { F.in_use files.new ≡ idle }
    ensures counts { StaysUnless (is_fault result) (F.faults files.old) (F.faults files.new) }
    ensures counts_out { StaysUnless (is_fault result) (O.faults out.old) (O.faults out.new) }
    ensures counts_err { StaysUnless (is_fault result) (E.faults err.old) (E.faults err.new) }
{
    match write_dump(files, name, words) {
        Ok(()) => match write_all(out, line) {
            Ok(()) => Status::Done,
            Err(_) => fail(err, Place::Output),
        },
        Err(_) => fail(err, Place::Dump),
    }
}

/// Builds and stores the dump of these keys and values, or tells why no seed works. With a signed
/// width the values are the keys' numbers.
fn build_given<F: Shelf, O: Sink, E: Sink, L: Ledger>(
    alloc: Global,
    task: &BuildTask,
    keys: &KeyList,
    values: &[u64],
    files: &mut F,
    out: &mut O,
    err: &mut E,
    steps: &mut Steps<L>,
) -> Status
    requires idle { F.in_use files.old ≡ idle }
    requires values { length values.now ≡ length keys.now.lines }
    requires plan { IsOfferedPlan task.now.plan }
    requires ranks { task.now.plan.signed ≢ 0
        → values.now ≡ plain_values (length keys.now.lines) }
    ensures ends { GivenEnds (build_of task.now) keys.now.lines values.now
        (world_without_input F.Shelf O.Sink E.Sink files.old out.old err.old)
        (world_without_input F.Shelf O.Sink E.Sink files.new out.new err.new)
        result }
    ensures closed { F.in_use files.new ≡ idle }
    ensures counts { StaysUnless (is_fault result) (F.faults files.old) (F.faults files.new) }
    ensures counts_out { StaysUnless (is_fault result) (O.faults out.old) (O.faults out.new) }
    ensures counts_err { StaysUnless (is_fault result) (E.faults err.old) (E.faults err.new) }
    ensures counted { steps.old ≤ steps.new }
{
    match try_seeds(
        alloc,
        &task.plan,
        task.seeds.as_slice(),
        keys,
        values,
        steps,
    ) {
        Ok(Tried::Dump { words, line }) => store(
            task.dump.as_str(),
            &words,
            &line,
            files,
            out,
            err,
        ),
        Ok(Tried::Failed { message }) => tell(err, &message, Status::SeedsFailed),
        Err(_) => tell_memory(err),
    }
}

/// Reads keys from input, and their values from a file where one is named, and writes the dump of
/// the task's kind, which gives each key its value or number, then a line on it to out.
pub fn build<F: Shelf, S: Source, O: Sink, E: Sink, L: Ledger>(
    alloc: Global,
    task: &BuildTask,
    files: &mut F,
    input: &mut S,
    out: &mut O,
    err: &mut E,
    steps: &mut Steps<L>,
) -> Status
    requires idle { F.in_use files.old ≡ idle }
    requires offered { IsOfferedBuild (build_of task.now) }
    ensures promise { (ticks : ℕ) → Promise sux_program (build_of_task (build_of task.now))
        (world_of F.Shelf S.Source O.Sink E.Sink files.old input.old out.old err.old)
        (world_of F.Shelf S.Source O.Sink E.Sink files.new input.new out.new err.new)
        ticks result }
    ensures closed { F.in_use files.new ≡ idle }
    ensures counted { steps.old ≤ steps.new }
{
    let keys = match read_keys(alloc, input) {
        Ok(keys) => keys,
        Err(KeysStop::Refused { line, reason }) => return refuse_key(alloc, err, line, reason),
        Err(KeysStop::Failed) => return fail(err, Place::Input),
        Err(KeysStop::Memory) => return tell_memory(err),
    };
    let values = match values_for(alloc, files, task, keys.len()) {
        Ok(values) => values,
        Err(ValuesStop::Refused(fault)) => return refuse_values(alloc, err, keys.len(), fault),
        Err(ValuesStop::Failed) => return fail(err, Place::Values),
        Err(ValuesStop::Memory) => return tell_memory(err),
    };
    build_given(alloc, task, &keys, &values, files, out, err, steps)
}
