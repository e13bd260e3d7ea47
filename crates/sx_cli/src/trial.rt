//! The command `trial`.
ghost use Rattle.std.specs.Prelude.{◌≡◌, ◌≤◌, ℕ, List, Option};
ghost use Rattle.sx_spec.specs.Causes.{StaysUnless, is_fault};
ghost use Rattle.sx_spec.specs.Command.{trial as trial_of};
ghost use Rattle.sx_spec.specs.Run.{Promise};
ghost use Rattle.sx_spec.specs.World.{Files};
ghost use Rattle.sx_spec_program.specs.Program.{sux_program};
ghost use Rattle.sx_cli.specs.Objects.{world_of_sinks};

use crate::telling::{Place, fail, tell, tell_memory};
use std::alloc::Global;
use std::sync::ledger::Ledger;
use sx_edge::sink::{Sink, write_all};
use sx_spec::{Kind, Status};
use sx_steps::Steps;
use sx_trial::{Trial, try_kind};

/// Builds a dump of so many made keys in memory, asks it each of them and as many strangers, and
/// writes a line on it to out. Neither files nor input are touched.
pub fn trial<O: Sink, E: Sink, L: Ledger>(
    alloc: Global,
    kind: Kind,
    count: u32,
    out: &mut O,
    err: &mut E,
    steps: &mut Steps<L>,
) -> Status
    requires { count ≤ 1000000 }
    ensures promise { (files : Option Files) (input : Option (List ℕ))
        (shelf_faults input_faults ticks : ℕ) → Promise sux_program (trial_of kind count)
        (world_of_sinks O.Sink E.Sink files input shelf_faults input_faults out.old err.old)
        (world_of_sinks O.Sink E.Sink files input shelf_faults input_faults out.new err.new)
        ticks result }
    ensures counted { steps.old ≤ steps.new }
{
    match try_kind(alloc, kind, count, steps) {
        Ok(Trial::Line(line)) => match write_all(out, &line) {
            Ok(()) => Status::Done,
            Err(_) => fail(err, Place::Output),
        },
        Ok(Trial::Failed(message)) => tell(err, &message, Status::SeedsFailed),
        Err(_) => tell_memory(err),
    }
}
