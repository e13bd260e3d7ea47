//! Dumps that are changed in a few places.
ghost use Rattle.std.specs.Prelude.{◌≡◌, ◌<◌, length};
ghost use Rattle.std.specs.Int.{div_ceil};

use crate::chance::Chance;
use std::alloc::{AllocError, Global};

/// How many words a header has.
const HEADER: usize = 10;

/// A place in so many words, in most cases behind the header.
fn any_place(len: usize, chance: &mut Chance) -> usize
    requires { 0 < len }
    ensures { result < len }
{
    if len > HEADER && !chance.once_in(8) {
        HEADER + chance.place(len - HEADER)
    } else {
        chance.place(len)
    }
}

/// A word with one bit turned.
fn flipped(word: u64, chance: &mut Chance) -> u64 {
    word ^ (1 << chance.below(64))
}

/// A word in the place of another.
fn other_word(word: u64, chance: &mut Chance) -> u64 {
    match chance.below(8) {
        0 => 0,
        1 => u64::MAX,
        2 => chance.number(),
        3 => word.wrapping_add(1),
        4 => word.wrapping_sub(1),
        // two neighbours, which may leave as many ones as there were
        _ => word ^ (3 << chance.below(63)),
    }
}

/// The first place from one on, at which a small number stands, as a count or a width is, or else
/// that place.
fn count_from(words: &[u64], place: usize) -> usize
    requires { place < length words.now }
    ensures { result < length words.now }
{
    for i in place..words.len() {
        if words[i] < 256 {
            return i;
        }
    }
    place
}

/// Puts the words from a place on, at most so many, once more in front of it.
fn repeat(words: &mut Vec<u64>, place: usize, many: usize) -> Result<(), AllocError> {
    let end = place.saturating_add(many).min(words.len());
    'repeated: for _ in place..end {
        // the last of them that isn't in front yet has come to stand here
        let word = words[end - 1];
        words.insert(place, word)?;
    }
    Ok(())
}

/// Changes the words in one place.
fn change(words: &mut Vec<u64>, chance: &mut Chance) -> Result<(), AllocError> {
    let len = words.len();
    if len == 0 {
        words.push(chance.number())?;
        return Ok(());
    }
    let place = any_place(len, chance);
    match chance.below(32) {
        0 => words.truncate(place),
        1 => repeat(words, place, 1 + chance.place(4))?,
        2 => {
            let word = if chance.once_in(2) {
                0
            } else {
                chance.number()
            };
            words.insert(place, word)?;
        }
        3 | 4 => words.swap(place, any_place(len, chance)),
        5..8 => {
            let count = count_from(words, place);
            words[count] = chance.below(80);
        }
        8..16 => words[place] = other_word(words[place], chance),
        _ => words[place] = flipped(words[place], chance),
    }
    Ok(())
}

/// The words of a dump changed in one to four places. Word 1, the number of all words, is mended in
/// most cases.
pub fn changed(alloc: Global, dump: &[u64], chance: &mut Chance) -> Result<Vec<u64>, AllocError> {
    let mut words = Vec::from_slice(alloc, dump)?;
    // one to four places, and fewer in more cases
    let places = 1 + chance.below(4).min(chance.below(4));
    for _ in 0..places {
        change(&mut words, chance)?;
    }
    let count = words.len() as u64;
    if count > 1 && !chance.once_in(8) {
        words[1] = count;
    }
    Ok(words)
}

/// How many bytes a file of these words has. In some cases it ends within the last word.
pub fn size_of(words: &[u64], chance: &mut Chance) -> u64
    ensures { length words.now ≡ div_ceil result 8 }
{
    let whole = 8 * words.len() as u64;
    if chance.once_in(16) {
        whole.saturating_sub(chance.below(8))
    } else {
        whole
    }
}
