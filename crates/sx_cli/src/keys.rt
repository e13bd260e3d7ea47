//! The key lines of input.
ghost use Rattle.std.specs.Prelude.{◌≡◌, ◌≤◌, ◌++◌, ◌∷◌, [], None, length, MatchResult};
ghost use Rattle.sx_spec.specs.Causes.{StaysUnless};
ghost use Rattle.sx_spec.specs.Keys.{refusal};
ghost use Rattle.sx_cli.specs.KeyReading.{keys_failed, ReadsKeys, StopsKeys, StopsPush, StopsFault};

use std::alloc::{AllocError, Global};
use sx_bits::{KeyFault, KeyList, Limits};
use sx_edge::line::{LineFault, LineReader, Step};
use sx_edge::source::Source;
use sx_text::messages::KeyReason;

/// How many bytes a line has at most.
pub const MAX_LINE: usize = 8191;

/// Why no key list was read.
#[derive(Clone, Copy, Debug, PartialEq, Eq)]
pub enum KeysStop {
    /// The line of this number, counted from 1, is no key.
    Refused { line: u64, reason: KeyReason },
    /// Input has failed.
    Failed,
    /// Memory is wanting.
    Memory,
}

impl From<AllocError> for KeysStop {
    ghost use Rattle.std.specs.Prelude.{◌≡◌};
    ghost use Rattle.sx_cli.specs.declared.keys.KeysStop.TheVariants.{Memory};

    ghost from_gives = { λ _ e. e ≡ Memory };

    fn from(_: AllocError) -> KeysStop {
        KeysStop::Memory
    }
}

/// What a key list's refusal of a line comes to.
fn stop_of(line: u64, fault: KeyFault) -> KeysStop
    ensures { StopsFault line fault result }
{
    let reason = match fault {
        KeyFault::ZeroByte => KeyReason::ZeroByte,
        KeyFault::Doubled => KeyReason::Doubled,
        KeyFault::Unordered => KeyReason::Unordered,
        KeyFault::TooManyKeys => KeyReason::TooManyKeys,
        KeyFault::TooManyBytes => KeyReason::TooManyBytes,
        KeyFault::Memory => return KeysStop::Memory,
    };
    KeysStop::Refused { line, reason }
}

/// Puts the line of this number behind the keys, or says why it is none.
fn push_key(keys: &mut KeyList, number: u64, line: &[u8]) -> Result<(), KeysStop>
    requires { length line.now ≤ keys.old.limits.max_line }
    ensures { MatchResult result
        (λ _. (keys.new ≡ record keys.old { lines = keys.old.lines ++ line.now ∷ [] }) × (refusal keys.old.limits keys.old.lines line.now ≡ None))
        (StopsPush keys.old.limits keys.old.lines line.now number) }
{
    match keys.push(line) {
        Ok(()) => Ok(()),
        Err(fault) => Err(stop_of(number, fault)),
    }
}

/// Reads the lines of input as keys, up to the first that is none.
pub fn read_keys<S: Source>(alloc: Global, input: &mut S) -> Result<KeyList, KeysStop>
    ensures keys { MatchResult result
        (ReadsKeys (S.left input.old) (S.left input.new))
        (StopsKeys (S.left input.old) (S.left input.new) (S.faults input.old) (S.faults input.new)) }
    ensures counts { StaysUnless (keys_failed result) (S.faults input.old) (S.faults input.new) }
{
    let mut reader = LineReader::new(alloc, MAX_LINE)?;
    let mut keys = KeyList::new(alloc, Limits::standard());
    'lines: loop {
        match reader.next(input) {
            Ok(Step::Line) => push_key(&mut keys, reader.number(), reader.line())?,
            Ok(Step::End) => return Ok(keys),
            Err(LineFault::TooLong { line }) => {
                return Err(KeysStop::Refused {
                    line,
                    reason: KeyReason::TooLong,
                });
            }
            Err(LineFault::ReadFault) => return Err(KeysStop::Failed),
        }
    }
}
