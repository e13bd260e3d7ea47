//! What the cases come to.
use crate::asking::{Broken, Outcome};
use std::io;
use std::io::Write;

/// How many checks there are.
const CHECKS: usize = 18;

/// A case that broke a bound, by its number, counted from 1.
#[derive(Clone, Copy)]
pub struct BrokenCase {
    number: u64,
    bound: Broken,
}

/// Counts of cases.
#[derive(Drop)]
pub struct Tally {
    cases: u64,
    opened: u64,
    /// How many cases each check refused, the first check first.
    refused: [u64; CHECKS],
    /// The first that broke a bound.
    broken: Option<BrokenCase>,
}

impl Tally {
    /// No cases.
    pub fn new() -> Tally {
        Tally {
            cases: 0,
            opened: 0,
            refused: [0; CHECKS],
            broken: None,
        }
    }

    /// The first case that broke a bound.
    pub fn broken(&self) -> Option<BrokenCase> {
        self.broken
    }

    /// Counts one case more.
    pub fn count(&mut self, outcome: Result<Outcome, Broken>) {
        self.cases = self.cases.saturating_add(1);
        match outcome {
            Ok(Outcome::Opened { .. }) => self.opened = self.opened.saturating_add(1),
            Ok(Outcome::Refused { check }) => self.refuse(check),
            Err(bound) => self.keep_first(bound),
        }
    }

    /// Counts a case that a check refused.
    fn refuse(&mut self, check: u8) {
        match self.refused.get_mut(usize::from(check).wrapping_sub(1)) {
            Some(count) => *count = count.saturating_add(1),
            None => self.keep_first(Broken::Check { check }),
        }
    }

    /// Keeps a bound that the last case broke, where it is the first.
    fn keep_first(&mut self, bound: Broken) {
        if self.broken.is_none() {
            self.broken = Some(BrokenCase {
                number: self.cases,
                bound,
            });
        }
    }

    /// Writes the counts, a line for each check that refused some, and a line on the first case
    /// that broke a bound.
    pub fn tell<W: Write>(&self, out: &mut W, seed: u64) -> io::Result<()> {
        let cases = self.cases;
        let opened = self.opened;
        writeln!(out, "cases {cases} opened {opened}")?;
        for (i, count) in self.refused.iter().enumerate() {
            if *count > 0 {
                let check = i + 1;
                writeln!(out, "check {check}: {count}")?;
            }
        }
        match self.broken {
            Some(BrokenCase { number, bound }) => {
                writeln!(out, "case {number} of seed {seed}: {bound}")
            }
            None => Ok(()),
        }
    }
}

#[cfg(test)]
mod tests;
