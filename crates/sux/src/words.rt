//! The words of the command line.
ghost use Rattle.std.specs.Prelude.{◌≡◌, codes};
ghost use Rattle.std.specs.Str.{IsUtf8};

use std::alloc::{AllocError, Global};
use std::env::{Env, FillError};
use sx_edge::words::WordList;

/// Stands for a word that isn't UTF-8: a word that no rule of usage lets pass in any place.
const NO_TEXT: &str = "-";

/// The text that the bytes of a word are, or the one that stands for a word that isn't UTF-8.
fn text_of(bytes: &[u8]) -> &str
    ensures text { IsUtf8 bytes.now → result.now ≡ bytes.now }
    ensures none { ¬ (IsUtf8 bytes.now) → result.now ≡ codes "-" }
{
    match str::from_utf8(bytes) {
        Ok(text) => text,
        Err(_) => NO_TEXT,
    }
}

/// The bytes of a word of the command line by its place, or none behind the last.
fn word_at<E: Env>(env: &E, alloc: Global, i: usize) -> Result<Option<Vec<u8>>, AllocError> {
    let mut bytes = Vec::new(alloc);
    let mut size = 256usize;
    for _ in 0..usize::BITS {
        bytes.resize(size, 0u8)?;
        match env.arg(i, &mut bytes) {
            Ok(count) => {
                bytes.truncate(count);
                return Ok(Some(bytes));
            }
            Err(FillError::NotPresent) => return Ok(None),
            Err(FillError::TooLong) => size = size.saturating_mul(2),
        }
    }
    Err(AllocError)
}

/// The words of the command line, without the program's name.
pub fn command_words<E: Env>(env: &E, alloc: Global) -> Result<WordList, AllocError> {
    let mut words = WordList::new(alloc);
    for i in 1..usize::MAX {
        match word_at(env, alloc, i)? {
            Some(bytes) => words.push(text_of(&bytes))?,
            None => break,
        }
    }
    Ok(words)
}

#[cfg(test)]
mod tests;
