//! Which words are an Elias-Fano list.
ghost use Rattle.std.specs.Prelude.{◌≡◌, ◌+◌, ◌*◌, ◌<◌, ◌≤◌, ◌^◌, ◌==◌, ◌&&◌, ◌↔◌, ℕ, List, IsTrue, length, slice_index};
ghost use Rattle.std.specs.Int.{bit_at};
ghost use Rattle.sx_spec.specs.Fields.{ones_of, words_number};
ghost use Rattle.sx_ef.specs.Parts.{IsEncoded, is_sums_list, is_sums_of, low_size, upper_size};
ghost use Rattle.sx_ef.specs.Sections.{is_sums_from_zero};
ghost use Rattle.sx_steps.specs.Blanks.{IsBlankOf};

use crate::encode::low_bits;
use std::marker::Brand;
use std::sync::ledger::{Blank, Ledger};
use sx_fields::bank::Words;
use sx_fields::fields::Fields;
use sx_fields::packed::Packed;
use sx_fields::section::is_zero_after;
use sx_steps::Steps;

/// Whether the ones among the first `bits` bits of the upper words, with these low bits, are numbers that never fall and of
/// which the last is `below - 1`, as many as there are low bits.
fn are_sums_counted<F: Fields, L: Ledger>(
    upper: &[u64],
    bits: u64,
    low: &F,
    below: u64,
    blank: Blank,
) -> bool
    requires blank { IsBlankOf L.Ledger blank }
    requires few { bits < 2 ^ 34 }
    requires within { bits ≤ 64 * length upper.now }
    requires narrow { F.bits low.now ≤ 63 }
    ensures { result ≡ is_sums_of (length (F.items low.now)) below (F.bits low.now)
        (ones_of bits (words_number upper.now)) (F.items low.now) }
{
    let mut steps = Steps::<L>::new(blank);
    let count = low.len();
    let width = low.width();
    let mut seen = 0;
    let mut previous = 0;
    for place in 0..bits {
        if upper[(place / 64) as usize] >> (place % 64) & 1 == 0 {
            continue;
        }
        if seen == count {
            return false;
        }
        let high = u128::from(place - seen as u64) << width;
        let number = high + u128::from(low.get(seen, &mut steps));
        if number < previous {
            return false;
        }
        previous = number;
        seen += 1;
    }
    seen == count && previous + 1 == u128::from(below)
}

/// The same, with a count of its own.
fn are_sums<F: Fields>(upper: &[u64], bits: u64, low: &F, below: u64) -> bool
    requires few { bits < 2 ^ 34 }
    requires within { bits ≤ 64 * length upper.now }
    requires narrow { F.bits low.now ≤ 63 }
    ensures { result ≡ is_sums_of (length (F.items low.now)) below (F.bits low.now)
        (ones_of bits (words_number upper.now)) (F.items low.now) }
{
    are_sums_counted::<F, Brand>(upper, bits, low, below, Blank::new(1))
}

/// What `starts_at_zero` tells, with a count.
fn starts_counted<F: Fields, L: Ledger>(upper: &[u64], low: &F, blank: Blank) -> bool
    requires blank { IsBlankOf L.Ledger blank }
    requires upper { 0 < length upper.now }
    requires low { 0 < length (F.items low.now) }
    ensures { result
        ≡ (bit_at (words_number upper.now) 0 == 1 && slice_index (F.items low.now) 0 == 0) }
{
    let mut steps = Steps::<L>::new(blank);
    upper[0] & 1 == 1 && low.get(0, &mut steps) == 0
}

/// Whether the first bit of the upper words is one and the first low bits are zero.
fn starts_at_zero<F: Fields>(upper: &[u64], low: &F) -> bool
    requires upper { 0 < length upper.now }
    requires low { 0 < length (F.items low.now) }
    ensures { result
        ≡ (bit_at (words_number upper.now) 0 == 1 && slice_index (F.items low.now) 0 == 0) }
{
    starts_counted::<F, Brand>(upper, low, Blank::new(1))
}

/// Whether they are such numbers and begin with 0.
pub(crate) fn are_sums_from_zero<F: Fields>(upper: &[u64], bits: u64, low: &F, below: u64) -> bool
    requires few { bits < 2 ^ 34 }
    requires within { bits ≤ 64 * length upper.now }
    requires narrow { F.bits low.now ≤ 63 }
    requires upper { 0 < length upper.now }
    requires low { 0 < length (F.items low.now) }
    ensures { result ≡ is_sums_from_zero (length (F.items low.now)) below (F.bits low.now)
        (ones_of bits (words_number upper.now)) (F.items low.now) }
{
    are_sums(upper, bits, low, below) && starts_at_zero(upper, low)
}

/// Whether the words pass the test of a list.
fn parts_pass(words: &[u64], count: u64, below: u64) -> bool
    requires some { 0 < count }
    requires few { count < 2 ^ 32 }
    requires above { 0 < below }
    requires size { length words.now ≡ low_size count below + upper_size count below }
    ensures { result ≡ is_sums_list count below words.now }
{
    let width = low_bits(count, below);
    let low_bits = count * u64::from(width);
    let upper_bits = count + ((below - 1) >> width);
    let (low, upper) = words.split_at(low_bits.div_ceil(64) as usize);
    if !is_zero_after(low_bits, low) || !is_zero_after(upper_bits, upper) {
        return false;
    }
    let low = Packed::new(Words::new(low), 0, count as usize, width);
    are_sums(upper, upper_bits, &low, below)
}

/// Whether the words are the low and the upper words of a list of `count` numbers that never fall, of which the last is
/// `below - 1`.
pub fn ef_valid(words: &[u64], count: u64, below: u64) -> bool
    requires some { 0 < count }
    requires few { count < 2 ^ 32 }
    requires above { 0 < below }
    requires size { length words.now ≡ low_size count below + upper_size count below }
    ensures test { result ≡ is_sums_list count below words.now }
    ensures lists { IsTrue result ↔ ((items : List ℕ) × IsEncoded count below words.now items) }
{
    parts_pass(words, count, below)
}
