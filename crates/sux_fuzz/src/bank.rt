//! A bank of words that counts the reads itself, whatever the steps say.
ghost use Rattle.std.specs.Prelude.{◌≡◌};

use std::cell::Cell;
use std::sync::ledger::Ledger;
use sx_fields::bank::{WordBank, Words};
use sx_steps::Steps;

/// A list of words, and how many of them were read.
#[derive(Drop)]
pub struct Counting<'a> {
    words: Words<'a>,
    reads: Cell<u64>,
}

impl<'a> Counting<'a> {
    /// The words of a slice, of which none was read.
    pub fn new(words: &'a [u64]) -> Counting<'a>
        ensures { result.words.words.now ≡ words.entry.now }
    {
        Counting {
            words: Words::new(words),
            reads: Cell::new(0),
        }
    }

    /// How many words were read.
    pub fn reads(&self) -> u64 {
        self.reads.get()
    }
}

impl WordBank for Counting<'_> {
    ghost words_of = { λ b. b.words.words.now };

    fn words(&self) -> usize {
        self.words.words()
    }

    fn word<L: Ledger>(&self, i: usize, steps: &mut Steps<L>) -> u64 {
        self.reads.set(self.reads.get().wrapping_add(1));
        self.words.word(i, steps)
    }
}
