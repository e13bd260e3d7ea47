//! The values of keys: those of a file, or the keys' numbers.
ghost use Rattle.std.specs.Prelude.{◌≡◌, ◌≤◌, ◌<◌, IfOk, MatchResult, length};
ghost use Rattle.sx_edge.specs.Shelf.{idle, reading};
ghost use Rattle.sx_spec.specs.Causes.{StaysUnless};
ghost use Rattle.sx_spec.specs.Command.{Text};
ghost use Rattle.sx_spec.specs.Values.{plain_values};
ghost use Rattle.sx_spec.specs.World.{KeepsFiles};
ghost use Rattle.sx_cli.specs.ValueLines.{values_failed, ReadsValues, StopsLines, GivesFile, StopsFile, StopsValue, PutsValue, IsTooFew};
ghost use Rattle.sx_cli.specs.Lines.{longest_line};

use crate::keys::MAX_LINE;
use std::alloc::{AllocError, Global};
use sx_edge::line::{LineFault, LineReader, Step};
use sx_edge::shelf::Shelf;
use sx_edge::source::Failed;
use sx_numbers::number_of;
use sx_text::messages::ValuesFault;

/// Why no values were read.
#[derive(Clone, Copy, Debug, PartialEq, Eq)]
pub enum ValuesStop {
    /// The file is refused.
    Refused(ValuesFault),
    /// The shelf has failed.
    Failed,
    /// Memory is wanting.
    Memory,
}

impl From<Failed> for ValuesStop {
    ghost use Rattle.std.specs.Prelude.{◌≡◌};
    ghost use Rattle.sx_cli.specs.declared.values.ValuesStop.TheVariants.{Failed as HasFailed};

    ghost from_gives = { λ _ e. e ≡ HasFailed };

    fn from(_: Failed) -> ValuesStop {
        ValuesStop::Failed
    }
}

impl From<AllocError> for ValuesStop {
    ghost use Rattle.std.specs.Prelude.{◌≡◌};
    ghost use Rattle.sx_cli.specs.declared.values.ValuesStop.TheVariants.{Memory};

    ghost from_gives = { λ _ e. e ≡ Memory };

    fn from(_: AllocError) -> ValuesStop {
        ValuesStop::Memory
    }
}

/// The numbers from 0 up to before `count`.
pub fn ranks(alloc: Global, count: u32) -> Result<Vec<u64>, AllocError>
    ensures { IfOk result (λ values. values.items ≡ plain_values count) }
{
    let mut values = Vec::with_capacity(alloc, count as usize)?;
    for i in 0..count {
        values.push(u64::from(i))?;
    }
    Ok(values)
}

/// Why a line of this number, which is longer than any number, is refused.
fn long_line(keys: u32, line: u64) -> ValuesStop
    ensures { (text : Text) → longest_line < length text → StopsValue keys line text result }
{
    if line > u64::from(keys) {
        ValuesStop::Refused(ValuesFault::MoreThanKeys { line })
    } else {
        ValuesStop::Refused(ValuesFault::NotANumber { line })
    }
}

/// Puts the value on a line behind the others, or says why it is none.
fn push_value(values: &mut Vec<u64>, keys: u32, line: u64, text: &[u8]) -> Result<(), ValuesStop>
    ensures { MatchResult result
        (λ _. PutsValue keys line text.now values.old.items values.new.items)
        (StopsValue keys line text.now) }
{
    if line > u64::from(keys) {
        return Err(ValuesStop::Refused(ValuesFault::MoreThanKeys { line }));
    }
    match number_of(text) {
        Some(value) => match values.push(value) {
            Ok(()) => Ok(()),
            Err(_) => Err(ValuesStop::Memory),
        },
        None => Err(ValuesStop::Refused(ValuesFault::NotANumber { line })),
    }
}

/// The values that were read, if there is one for each key.
fn enough(values: Vec<u64>, keys: u32) -> Result<Vec<u64>, ValuesStop>
    requires { length values.items ≤ keys }
    ensures { MatchResult result
        (λ v. (v.items ≡ values.items) × (length values.items ≡ keys))
        (IsTooFew keys (length values.items)) }
{
    let count = values.len() as u64;
    if count < u64::from(keys) {
        return Err(ValuesStop::Refused(ValuesFault::FewerThanKeys { values: count }));
    }
    Ok(values)
}

/// Reads the lines of the file being read as values of so many keys, up to the first that is refused.
fn read_lines<F: Shelf>(alloc: Global, keys: u32, files: &mut F) -> Result<Vec<u64>, ValuesStop>
    requires { F.in_use files.old ≡ reading }
    ensures values { MatchResult result
        (λ v. ReadsValues keys (F.rest files.old) v.items)
        (StopsLines keys (F.rest files.old) (F.faults files.old) (F.faults files.new)) }
    ensures counts { StaysUnless (values_failed result) (F.faults files.old) (F.faults files.new) }
    ensures stays { F.in_use files.new ≡ reading }
    ensures files { KeepsFiles (F.files files.old) (F.files files.new) }
{
    let mut reader = LineReader::new(alloc, MAX_LINE)?;
    let mut values = Vec::with_capacity(alloc, keys as usize)?;
    'lines: loop {
        match reader.next_file(files) {
            Ok(Step::Line) => push_value(&mut values, keys, reader.number(), reader.line())?,
            Ok(Step::End) => return enough(values, keys),
            Err(LineFault::TooLong { line }) => return Err(long_line(keys, line)),
            Err(LineFault::ReadFault) => return Err(ValuesStop::Failed),
        }
    }
}

/// Reads the file of the name as values of so many keys. No file is left in use.
pub fn read_values<F: Shelf>(
    alloc: Global,
    files: &mut F,
    name: &str,
    keys: u32,
) -> Result<Vec<u64>, ValuesStop>
    requires { F.in_use files.old ≡ idle }
    ensures values { MatchResult result
        (λ v. GivesFile keys name.now (F.files files.old) v.items)
        (StopsFile keys name.now (F.files files.old) (F.faults files.old) (F.faults files.new)) }
    ensures files { KeepsFiles (F.files files.old) (F.files files.new) }
    ensures counts { StaysUnless (values_failed result) (F.faults files.old) (F.faults files.new) }
    ensures closed { F.in_use files.new ≡ idle }
{
    let is_there = files.open_file(name)?;
    if !is_there {
        return Err(ValuesStop::Refused(ValuesFault::NoSuchFile));
    }
    let read = read_lines(alloc, keys, files);
    files.close()?;
    read
}
