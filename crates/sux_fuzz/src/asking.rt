//! Files that are opened and asked.
ghost use Rattle.std.specs.Prelude.{◌≡◌, ◌≤◌, length};
ghost use Rattle.std.specs.Int.{div_ceil};

use crate::bank::Counting;
use crate::bounds::most_reads;
use crate::keys::MAX_LINE;
use std::alloc::Global;
use std::sync::ledger::Ledger;
use sx_dump::{Dump, OpenFault, open_dump};
use sx_fields::bank::WordsBuf;
use sx_steps::Steps;
use thiserror::Error;

/// How many lines a dump is asked.
pub const LINES: usize = 8;

/// A bound that a case broke.
#[derive(Debug, Drop, Clone, Copy, PartialEq, Eq, Error)]
pub enum Broken {
    #[error("no memory to open it")]
    Memory,
    #[error("no check has the number {check}")]
    Check { check: u8 },
    #[error("the reply {reply} is neither -1 nor a number of 64 bits")]
    Reply { reply: i128 },
    #[error("a reply takes {reads} reads, and {most} are allowed")]
    Reads { reads: u64, most: u64 },
    #[error("opened once more it answers otherwise")]
    Again,
}

/// A reply, and how many words it read.
#[derive(Clone, Copy, PartialEq, Eq)]
pub struct Answer {
    reply: i128,
    reads: u64,
}

/// What a file comes to.
#[derive(Clone, Copy, PartialEq, Eq)]
pub enum Outcome {
    /// The check of this number is the first that fails.
    Refused { check: u8 },
    /// A dump, which answers the lines.
    Opened { answers: [Answer; LINES] },
}

/// The most reads of the reply of a dump in these words to a line. There are fewer corrections than
/// words.
fn allowed(dump: &Dump<&Counting<'_>, WordsBuf>, words: &[u64], line: &[u8]) -> u64
    requires { length line.now ≤ 8191 }
{
    let signed = words.get(8).copied().unwrap_or(0);
    let bits = 8 * line.len() as u64 + 8;
    most_reads(dump.kind(), signed, bits, words.len() as u64)
}

/// Asks a dump in these words a line.
fn ask<L: Ledger>(
    dump: &Dump<&Counting<'_>, WordsBuf>,
    bank: &Counting<'_>,
    words: &[u64],
    line: &[u8],
    steps: &mut Steps<L>,
) -> Result<Answer, Broken>
    requires { length line.now ≤ 8191 }
{
    let before = bank.reads();
    let reply = dump.reply(line, steps);
    let reads = bank.reads().wrapping_sub(before);
    if reply < -1 || reply > i128::from(u64::MAX) {
        return Err(Broken::Reply { reply });
    }
    let most = allowed(dump, words, line);
    if reads > most {
        return Err(Broken::Reads { reads, most });
    }
    Ok(Answer { reply, reads })
}

/// What a file of so many bytes with these words comes to.
fn outcome_of<L: Ledger>(
    alloc: Global,
    words: &[u64],
    bytes: u64,
    lines: &[&[u8]; LINES],
    steps: &mut Steps<L>,
) -> Result<Outcome, Broken>
    requires { length words.now ≡ div_ceil bytes 8 }
{
    let bank = Counting::new(words);
    let dump = match open_dump(alloc, words, bytes, &bank) {
        Ok(dump) => dump,
        Err(OpenFault::Malformed { check }) => return Ok(Outcome::Refused { check }),
        Err(OpenFault::Memory) => return Err(Broken::Memory),
    };
    let mut answers = [Answer { reply: 0, reads: 0 }; LINES];
    for i in 0..LINES {
        let line = lines[i];
        answers[i] = ask(
            &dump,
            &bank,
            words,
            &line[..line.len().min(MAX_LINE)],
            steps,
        )?;
    }
    Ok(Outcome::Opened { answers })
}

/// The same, where it comes to the same once more.
pub fn same_twice<L: Ledger>(
    alloc: Global,
    words: &[u64],
    bytes: u64,
    lines: &[&[u8]; LINES],
    steps: &mut Steps<L>,
) -> Result<Outcome, Broken>
    requires { length words.now ≡ div_ceil bytes 8 }
{
    let first = outcome_of(alloc, words, bytes, lines, steps)?;
    let second = outcome_of(alloc, words, bytes, lines, steps)?;
    if first == second {
        Ok(first)
    } else {
        Err(Broken::Again)
    }
}
