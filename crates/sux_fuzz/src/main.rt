//! Changes small dumps at random, opens them, and asks them lines: `sux_fuzz SEED COUNT`.
#![tactic(auto)]

ghost use Rattle.sx_steps.specs.Blanks.{IsBlankOf};

mod asking;
mod bank;
mod bounds;
mod cases;
mod chance;
mod changes;
mod dumps;
mod keys;
mod tally;

use crate::cases::try_cases;
use crate::dumps::small_dumps;
use crate::keys::Lines;
use crate::tally::Tally;
use anyhow::{Context, Result, bail};
use std::env;
use std::marker::Brand;
use std::process::ExitCode;
use std::sync::ledger::{Blank, Ledger};
use sx_steps::Steps;

/// The status where a case broke a bound.
const BROKEN: u8 = 1;

/// The status where the cases could not be made or told of.
const STOPPED: u8 = 2;

/// The seed and the number of cases that the command line gives.
fn given(host: &HostRuntime) -> Result<(u64, u64)> {
    let mut words = env::args(host)?;
    let _name = words.next();
    match (words.next(), words.next(), words.next()) {
        (Some(seed), Some(count), None) => Ok((
            seed.as_str().parse().context("the seed is no number")?,
            count.as_str().parse().context("the count is no number")?,
        )),
        _ => bail!("usage: sux_fuzz SEED COUNT"),
    }
}

/// What the cases come to, under a fresh count of steps.
fn tallied<L: Ledger>(host: &HostRuntime, seed: u64, count: u64, blank: Blank) -> Result<Tally>
    requires blank { IsBlankOf L.Ledger blank }
{
    let alloc = host.alloc();
    let mut steps = Steps::<L>::new(blank);
    let dumps = small_dumps(alloc, &mut steps)?;
    let lines = Lines::new(alloc)?;
    Ok(try_cases(alloc, &dumps, &lines, seed, count, &mut steps)?)
}

/// Makes the cases that the command line asks for, and tells what they came to.
fn run(host: &HostRuntime) -> Result<ExitCode> {
    let (seed, count) = given(host)?;
    let tally = tallied::<Brand>(host, seed, count, Blank::new(1))?;
    tally.tell(&mut host.stdout(), seed)?;
    Ok(ExitCode::from(if tally.broken().is_some() { BROKEN } else { 0 }))
}

fn main(host: HostRuntime) -> ExitCode {
    match run(&host) {
        Ok(status) => status,
        Err(fault) => {
            let _ = eprintln!(host; "sux_fuzz: {fault}");
            ExitCode::from(STOPPED)
        }
    }
}
