//! Cases: dumps that are changed, opened and asked.
ghost use Rattle.std.specs.Prelude.{◌<◌, length};

use crate::asking::{Broken, LINES, Outcome, same_twice};
use crate::chance::Chance;
use crate::changes::{changed, size_of};
use crate::keys::Lines;
use crate::tally::Tally;
use std::alloc::{AllocError, Global};
use std::sync::ledger::Ledger;
use sx_steps::Steps;

/// What a case comes to: one of the dumps, changed by chance.
fn try_case<L: Ledger>(
    alloc: Global,
    dumps: &[Vec<u64>],
    lines: &Lines,
    chance: &mut Chance,
    steps: &mut Steps<L>,
) -> Result<Result<Outcome, Broken>, AllocError>
    requires { 0 < length dumps.now }
{
    let dump = &dumps[chance.place(dumps.len())];
    let words = changed(alloc, dump, chance)?;
    let bytes = size_of(&words, chance);
    let mut asked: [&[u8]; LINES] = [b""; LINES];
    for i in 0..LINES {
        asked[i] = lines.any(chance);
    }
    Ok(same_twice(alloc, &words, bytes, &asked, steps))
}

/// Makes so many cases. Each has a seed of its own, the next number of the generator.
pub fn try_cases<L: Ledger>(
    alloc: Global,
    dumps: &[Vec<u64>],
    lines: &Lines,
    seed: u64,
    count: u64,
    steps: &mut Steps<L>,
) -> Result<Tally, AllocError>
    requires { 0 < length dumps.now }
{
    let mut tally = Tally::new();
    let mut seeds = Chance::new(seed);
    for _ in 0..count {
        let mut chance = Chance::new(seeds.number());
        tally.count(try_case(alloc, dumps, lines, &mut chance, steps)?);
    }
    Ok(tally)
}
