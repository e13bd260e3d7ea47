//! Lists of words that are read one at a time, each read at one tick.
ghost use Rattle.std.specs.Prelude.{◌≡◌, ◌+◌, ◌<◌, ◌^◌, ℕ, List, All, length, slice_index};

use std::alloc::AllocError;
use std::sync::ledger::Ledger;
use sx_steps::Steps;

/// A list of 64-bit words.
pub trait WordBank {
    ghost words_of: { Self → List ℕ };

    /// How many words there are.
    fn words(&self) -> usize
        ensures len { result ≡ length (words_of self.now) }
        ensures small { All (λ w. w < 2 ^ 64) (words_of self.now) };

    /// Word `i`, at one tick.
    fn word<L: Ledger>(&self, i: usize, steps: &mut Steps<L>) -> u64
        requires { i < length (words_of self.now) }
        ensures word { result ≡ slice_index (words_of self.now) i }
        ensures cost { steps.new ≡ steps.old + 1 };
}

/// A borrowed list of words.
#[derive(Copy)]
pub struct Words<'a> {
    words: &'a [u64],
    ghost small: { All (λ w. w < 2 ^ 64) words.now },
}

impl Clone for Words<'_> {
    ghost is_clone = { λ x y. y ≡ x };

    fn clone(&self) -> Result<Self, AllocError> {
        Ok(*self)
    }
}

impl<'a> Words<'a> {
    /// The words of a slice.
    pub fn new(words: &'a [u64]) -> Self
        ensures { result.words.now ≡ words.entry.now }
    {
        Words { words }
    }
}

impl WordBank for Words<'_> {
    ghost words_of = { λ w. w.words.now };

    fn words(&self) -> usize {
        self.words.len()
    }

    fn word<L: Ledger>(&self, i: usize, steps: &mut Steps<L>) -> u64 {
        steps.tick();
        self.words[i]
    }
}

/// A list of words that owns them.
#[derive(Drop)]
pub struct WordsBuf {
    words: Vec<u64>,
    ghost small: { All (λ w. w < 2 ^ 64) words.items },
}

impl WordsBuf {
    /// The words of a vector.
    pub fn new(words: Vec<u64>) -> Self
        ensures { result.words.items ≡ words.items }
    {
        WordsBuf { words }
    }
}

impl WordBank for WordsBuf {
    ghost words_of = { λ w. w.words.items };

    fn words(&self) -> usize {
        self.words.len()
    }

    fn word<L: Ledger>(&self, i: usize, steps: &mut Steps<L>) -> u64 {
        Words::new(&self.words).word(i, steps)
    }
}

/// A shared reference to a list of words is a list of the same words.
impl<B: WordBank> WordBank for &B {
    ghost words_of = { λ b. B.words_of b.now };

    fn words(&self) -> usize {
        (**self).words()
    }

    fn word<L: Ledger>(&self, i: usize, steps: &mut Steps<L>) -> u64 {
        (**self).word(i, steps)
    }
}
