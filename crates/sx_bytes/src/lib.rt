//! Words as the bytes of a file, the lowest byte of each word first.
#![tactic(auto)]

mod words;

pub use words::{push_words, put_words, words_of};

#[cfg(test)]
mod tests;
