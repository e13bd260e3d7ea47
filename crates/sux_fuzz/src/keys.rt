//! The keys of the dumps that are changed, and the lines that are asked.
ghost use Rattle.std.specs.Prelude.{◌≤◌, length};

use crate::chance::Chance;
use anyhow::{Result, ensure};
use std::alloc::{AllocError, Global};
use sx_bits::{KeyList, Limits};

/// How many bytes a line has at most.
pub const MAX_LINE: usize = 8191;

/// The keys, in order.
const KEYS: [&[u8]; 20] = [
    b"",
    b"a",
    b"ab",
    b"abacus",
    b"abc",
    b"abd",
    b"b",
    b"ba",
    b"bead",
    b"beads",
    b"c",
    b"cab",
    b"cabin",
    b"d",
    b"dune",
    b"e",
    b"eel",
    b"the last words but three",
    b"the last words but two",
    b"\xFE\xFF",
];

/// Lines that are no keys.
const STRANGERS: [&[u8]; 12] = [
    b"A",
    b"a\x00",
    b"aa",
    b"abacuses",
    b"beadle",
    b"cabinet",
    b"dun",
    b"the last words but",
    b"the last words but threescore",
    b"z",
    b"\x00",
    b"\xFE\xFF\xFF",
];

/// The keys as a list.
pub fn keys(alloc: Global) -> Result<KeyList> {
    let mut list = KeyList::new(alloc, Limits::standard());
    for key in KEYS {
        ensure!(key.len() <= MAX_LINE, "a key is too long");
        list.push(key)?;
    }
    Ok(list)
}

/// The lines that are asked.
#[derive(Drop)]
pub struct Lines {
    longest: Vec<u8>,
}

impl Lines {
    /// The lines, of which one has as many bytes as a line may have.
    pub fn new(alloc: Global) -> Result<Lines, AllocError> {
        let mut longest = vec![in alloc; b'b'; MAX_LINE]?;
        Ok(Lines { longest })
    }

    /// A member in most cases, or else a stranger, the empty line, or now and then the longest one.
    pub fn any(&self, chance: &mut Chance) -> &[u8] {
        match chance.below(64) {
            0 => &self.longest,
            1..6 => b"",
            6..24 => STRANGERS[chance.place(STRANGERS.len())],
            _ => KEYS[chance.place(KEYS.len())],
        }
    }
}
