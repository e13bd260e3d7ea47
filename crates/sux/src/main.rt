//! Numbers sorted keys without keeping them: builds static functions, and queries them.
#![tactic(auto)]

ghost use Rattle.std.specs.Prelude.{◌≡◌, ◌<◌};
ghost use Rattle.sx_steps.specs.Blanks.{IsBlankOf};

#[cfg(test)]
mod fakes;
mod retry;
mod shelf;
mod streams;
mod words;

use crate::shelf::RealShelf;
use crate::streams::{InputStream, OutputStream};
use crate::words::command_words;
use std::marker::Brand;
use std::process::ExitCode;
use std::sync::ledger::{Blank, Ledger};
use sx_cli::Status;
use sx_cli::run::run;
use sx_cli::telling::tell_memory;
use sx_edge::words::WordList;
use sx_steps::Steps;

/// Runs the words over the files and streams of the system, and counts its reads.
fn run_counted<L: Ledger>(host: HostRuntime, words: &WordList, blank: Blank) -> Status
    requires blank { IsBlankOf L.Ledger blank }
{
    let mut files = RealShelf::new(host);
    let mut input = InputStream::new(host.stdin());
    let mut out = OutputStream::new(host.stdout());
    let mut err = OutputStream::new(host.stderr());
    let mut steps = Steps::<L>::new(blank);
    run(
        host.alloc(),
        words,
        &mut files,
        &mut input,
        &mut out,
        &mut err,
        &mut steps,
    )
}

/// Runs the words over the files and streams of the system.
fn run_words(host: HostRuntime, words: &WordList) -> Status {
    run_counted::<Brand>(host, words, Blank::new(1))
}

fn main(host: HostRuntime) -> ExitCode {
    let status = match command_words(&host, host.alloc()) {
        Ok(words) => run_words(host, &words),
        Err(_) => tell_memory(&mut OutputStream::new(host.stderr())),
    };
    ExitCode::from(status.code())
}
