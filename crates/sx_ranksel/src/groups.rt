//! The directory of groups of 64 ones, from which a one is selected.
ghost use Rattle.std.specs.Prelude.{◌≡◌, ◌+◌, ◌-◌, ◌*◌, ◌/◌, ◌<◌, ◌≤◌, ◌^◌, ◌++◌, ℕ, All, IfOk, length, map, slice_index};
ghost use Rattle.std.specs.List.{range_with_len};
ghost use Rattle.sx_spec.specs.Fields.{words_for};
ghost use Rattle.sx_ranksel.specs.Directory.{number_at, rank_of};
ghost use Rattle.sx_ranksel.specs.Groups.{AreGroups, IsGroup, last_in, place_of};

use crate::counts::{One, select_between};
use std::alloc::{AllocError, Global};
use std::sync::ledger::Ledger;
use sx_fields::bank::WordBank;
use sx_steps::Steps;

/// The top bit of the word of a group whose ones are listed.
pub(crate) const LISTED: u64 = 1 << 63;

/// A word for each group of 64 ones, and the places of the ones of those that are spread over many words.
#[derive(Drop)]
pub(crate) struct Groups {
    pub words: Vec<u64>,
    pub places: Vec<u64>,
}

/// Lists the places of ones number `from` to `last`, where `one` stands before them or is the first of them.
fn push_places<B: WordBank, L: Ledger>(
    bank: &B,
    first: usize,
    bits: u64,
    mut one: One,
    from: u64,
    last: u64,
    places: &mut Vec<u64>,
    steps: &mut Steps<L>,
) -> Result<(), AllocError>
    requires few { bits ≤ 2 ^ 34 }
    requires within { first + words_for bits ≤ length (B.words_of bank.now) }
    requires small { All (λ w. w < 2 ^ 64) (B.words_of bank.now) }
    requires long { length (B.words_of bank.now) < 2 ^ 64 }
    requires below { one.below
        ≡ rank_of (64 * (one.place / 64)) (number_at first (B.words_of bank.now)) }
    requires low { one.below ≤ from }
    requires start { one.place < 64 * words_for bits }
    requires order { from ≤ last }
    requires last { last < rank_of bits (number_at first (B.words_of bank.now)) }
    ensures places { IfOk result (λ _. places.new.items ≡ places.old.items
        ++ map (place_of bits (number_at first (B.words_of bank.now)))
        (range_with_len from (last + 1 - from))) }
{
    let to = bits.div_ceil(64) as usize;
    for k in from..last + 1 {
        one = select_between(
            bank,
            first,
            (one.place / 64) as usize,
            to,
            one.below,
            k,
            steps,
        );
        places.push(one.place)?;
    }
    Ok(())
}

/// The word of a group of ones, of which the first is at `start` and the last, number `last`, at `end`.
fn group_word<B: WordBank, L: Ledger>(
    bank: &B,
    first: usize,
    bits: u64,
    group: u64,
    start: One,
    last: u64,
    end: u64,
    places: &mut Vec<u64>,
    steps: &mut Steps<L>,
) -> Result<u64, AllocError>
    requires few { bits ≤ 2 ^ 34 }
    requires within { first + words_for bits ≤ length (B.words_of bank.now) }
    requires small { All (λ w. w < 2 ^ 64) (B.words_of bank.now) }
    requires long { length (B.words_of bank.now) < 2 ^ 64 }
    requires below { start.below
        ≡ rank_of (64 * (start.place / 64)) (number_at first (B.words_of bank.now)) }
    requires low { start.below ≤ 64 * group }
    requires start { start.place
        ≡ place_of bits (number_at first (B.words_of bank.now)) (64 * group) }
    requires end { end ≡ place_of bits (number_at first (B.words_of bank.now)) last }
    requires last { last ≡ last_in bits (number_at first (B.words_of bank.now)) group }
    requires some { 64 * group < rank_of bits (number_at first (B.words_of bank.now)) }
    requires room { length places.now.items ≤ 64 * group }
    ensures group { IfOk result (λ w. IsGroup bits (number_at first (B.words_of bank.now)) group w
        places.new.items) }
    ensures kept { IfOk result (λ _. (i : ℕ) → i < length places.old.items
        → slice_index places.new.items i ≡ slice_index places.old.items i) }
    ensures grown { IfOk result (λ _. length places.old.items ≤ length places.new.items) }
    ensures few { IfOk result (λ _. length places.new.items ≤ length places.old.items + 64) }
{
    if end / 64 < start.place / 64 + 30 {
        return Ok(start.place);
    }
    let listed = places.len() as u64;
    push_places(bank, first, bits, start, 64 * group, last, places, steps)?;
    Ok(LISTED + listed)
}

/// The directory of all groups of the `ones` ones.
pub(crate) fn groups_of<B: WordBank, L: Ledger>(
    alloc: Global,
    bank: &B,
    first: usize,
    bits: u64,
    ones: u64,
    steps: &mut Steps<L>,
) -> Result<Groups, AllocError>
    requires few { bits ≤ 2 ^ 34 }
    requires within { first + words_for bits ≤ length (B.words_of bank.now) }
    requires small { All (λ w. w < 2 ^ 64) (B.words_of bank.now) }
    requires long { length (B.words_of bank.now) < 2 ^ 64 }
    requires ones { ones ≡ rank_of bits (number_at first (B.words_of bank.now)) }
    ensures groups { IfOk result (λ r. AreGroups bits (number_at first (B.words_of bank.now))
        r.words.items r.places.items) }
{
    let to = bits.div_ceil(64) as usize;
    let count = ones.div_ceil(64);
    let mut words = Vec::with_capacity(alloc, count as usize)?;
    let mut places = Vec::new(alloc);
    let mut word = 0;
    let mut below = 0;
    for group in 0..count {
        let last = (64 * group + 63).min(ones - 1);
        let start = select_between(bank, first, word, to, below, 64 * group, steps);
        let from = (start.place / 64) as usize;
        let end = select_between(bank, first, from, to, start.below, last, steps);
        let entry = group_word(
            bank,
            first,
            bits,
            group,
            start,
            last,
            end.place,
            &mut places,
            steps,
        )?;
        words.push(entry)?;
        word = (end.place / 64) as usize;
        below = end.below;
    }
    Ok(Groups { words, places })
}
