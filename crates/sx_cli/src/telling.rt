//! Messages on standard error.
ghost use Rattle.std.specs.Prelude.{◌≡◌, ◌≢◌, ◌≤◌};
ghost use Rattle.sx_spec.specs.Causes.{StaysUnless, is_fault};
ghost use Rattle.sx_spec.specs.Messages.{fault_text, memory_text};
ghost use Rattle.sx_spec.specs.declared.Status.TheVariants.{Memory};
ghost use Rattle.sx_cli.specs.Objects.{TellsOn, FailsOn};
ghost use Rattle.sx_cli.specs.Telling.{Tells, Fails, place_of};

use sx_edge::sink::{Sink, write_all};
use sx_spec::Status;

/// The object of a call that failed.
#[derive(Clone, Copy, Debug, PartialEq, Eq)]
pub enum Place {
    Input,
    Values,
    Dump,
    Output,
    Error,
}

/// What is told after a failed call.
fn fault_message(place: Place) -> &'static str
    ensures { result.now ≡ fault_text (place_of place) }
{
    match place {
        Place::Input => "sux: fault: input\n",
        Place::Values => "sux: fault: values\n",
        Place::Dump => "sux: fault: dump\n",
        Place::Output => "sux: fault: output\n",
        Place::Error => "sux: fault: error\n",
    }
}

/// Tells that a call on this object failed. A further failure changes nothing.
pub fn fail<E: Sink>(err: &mut E, place: Place) -> Status
    ensures told { FailsOn E.Sink (place_of place) err.old err.new result }
    ensures counts { StaysUnless (is_fault result) (E.faults err.old) (E.faults err.new) }
{
    match write_all(err, fault_message(place).as_bytes()) {
        Ok(()) => Status::Fault,
        Err(_) => Status::Fault,
    }
}

/// Writes the message that goes with a status. Where the write fails, the status is `Fault`, and
/// that is told as far as it goes.
pub fn tell<E: Sink>(err: &mut E, text: &[u8], status: Status) -> Status
    ensures told { TellsOn E.Sink text.now status err.old err.new result }
    ensures counts { StaysUnless (is_fault result) (E.faults err.old) (E.faults err.new) }
{
    match write_all(err, text) {
        Ok(()) => status,
        Err(_) => fail(err, Place::Error),
    }
}

/// Tells that memory is wanting.
pub fn tell_memory<E: Sink>(err: &mut E) -> Status
    ensures told { TellsOn E.Sink memory_text Memory err.old err.new result }
    ensures counts { StaysUnless (is_fault result) (E.faults err.old) (E.faults err.new) }
{
    tell(err, b"sux: no memory\n", Status::Memory)
}
