//! Sums sections: a word with the number of numbers, a word that is above the last, the low words and the upper words.
ghost use Rattle.std.specs.Prelude.{◌≡◌, ◌+◌, ◌<◌, ◌≤◌, ◌^◌, IfOk, MatchResult, drop, length, slice_index, true};
ghost use Rattle.sx_spec_strings.specs.First.{first_failing};
ghost use Rattle.sx_ef.specs.Parts.{is_sums_list, low_size, numbers_in, upper_size};
ghost use Rattle.sx_ef.specs.Sections.{part_checks, sums_found};
ghost use Rattle.sx_spec.specs.Layout.{section_of, sums_checks, sums_of as sums_rule, sums_section};

use crate::check::are_sums_from_zero;
use crate::encode::low_bits;
use sx_fields::bank::Words;
use sx_fields::packed::Packed;
use sx_fields::section::{COUNT_CHECK, LENGTH_CHECK, PADDING_CHECK, is_zero_after};

/// The check of the numbers: they begin with 0, never fall, and end below the second word.
pub const SUMS_CHECK: u8 = 16;

/// Where a sums section lies.
#[derive(Clone, Copy, Debug)]
pub struct Sums {
    /// How many numbers there are.
    pub count: u64,
    /// The last number plus 1.
    pub below: u64,
    /// The first word of the low words.
    pub body: usize,
    /// The first word after the section.
    pub after: usize,
}

/// The first check of the two parts that fails.
fn failing_part(words: &[u64], count: u64, below: u64) -> Option<u8>
    requires some { 0 < count }
    requires few { count < 2 ^ 32 }
    requires above { 0 < below }
    requires size { length words.now ≡ low_size count below + upper_size count below }
    ensures { result ≡ first_failing (part_checks count below words.now) }
{
    let width = low_bits(count, below);
    let low_bits = count * u64::from(width);
    let upper_bits = count + ((below - 1) >> width);
    let (low, upper) = words.split_at(low_bits.div_ceil(64) as usize);
    if !is_zero_after(low_bits, low) || !is_zero_after(upper_bits, upper) {
        return Some(PADDING_CHECK);
    }
    let low = Packed::new(Words::new(low), 0, count as usize, width);
    if !are_sums_from_zero(upper, upper_bits, &low, below) {
        return Some(SUMS_CHECK);
    }
    None
}

/// How many words the two parts have.
#[inline]
fn parts_size(count: u64, below: u64) -> usize
    requires some { 0 < count }
    requires few { count < 2 ^ 32 }
    requires above { 0 < below }
    ensures { result ≡ low_size count below + upper_size count below }
{
    let width = low_bits(count, below);
    let low_bits = count * u64::from(width);
    let upper_bits = count + ((below - 1) >> width);
    (low_bits.div_ceil(64) + upper_bits.div_ceil(64)) as usize
}

/// The second word of the section at the front of the words, or the number of the first check that fails.
fn checked_bound(rest: &[u64], count: u64) -> Result<u64, u8>
    requires some { 0 < count }
    requires few { count < 2 ^ 32 }
    ensures checks { MatchResult result
        (λ _. first_failing (sums_checks count rest.now) ≡ None)
        (λ check. first_failing (sums_checks count rest.now) ≡ Some check) }
    ensures count { IfOk result (λ _. slice_index rest.now 0 ≡ count) }
    ensures below { IfOk result (λ below. below ≡ slice_index rest.now 1) }
    ensures above { IfOk result (λ below. 0 < below) }
    ensures valid { IfOk result (λ below. is_sums_list count below (drop 2 rest.now) ≡ true) }
    ensures long { IfOk result
        (λ below. low_size count below + upper_size count below + 2 ≤ length rest.now) }
{
    if rest.len() < 2 {
        return Err(LENGTH_CHECK);
    }
    if rest[0] != count {
        return Err(COUNT_CHECK);
    }
    let below = rest[1];
    if below == 0 {
        return Err(SUMS_CHECK);
    }
    let size = parts_size(count, below);
    if rest.len() - 2 < size {
        return Err(LENGTH_CHECK);
    }
    match failing_part(&rest[2..2 + size], count, below) {
        Some(check) => Err(check),
        None => Ok(below),
    }
}

/// The sums section of `count` numbers that begins at word `at`.
///
/// # Errors
/// The number of the first check that fails, in this order: the two words before the parts are there (11), there are `count`
/// numbers (12), the second word isn't 0 (16), the words of the parts are there (11), the bits after each part are zero (15),
/// there are as many ones as numbers, and the numbers begin with 0, never fall and end below the second word (16).
pub fn sums_check(words: &[u64], at: usize, count: u64) -> Result<Sums, u8>
    requires inside { at ≤ length words.now }
    requires some { 0 < count }
    requires few { count < 2 ^ 32 }
    ensures found { result ≡ sums_found count words.now at }
    ensures section { IfOk result (λ s.
        section_of (sums_rule count) (drop at words.now) ≡ sums_section (numbers_in s.count s.below (drop s.body words.now))) }
    ensures valid { IfOk result (λ s. is_sums_list s.count s.below (drop s.body words.now) ≡ true) }
    ensures size { IfOk result
        (λ s. s.body + low_size s.count s.below + upper_size s.count s.below ≡ s.after) }
    ensures after { IfOk result (λ s. s.after ≤ length words.now) }
    ensures count { IfOk result (λ s. s.count ≡ count) }
    ensures above { IfOk result (λ s. 0 < s.below) }
{
    let rest = &words[at..];
    let below = checked_bound(rest, count)?;
    Ok(Sums {
        count,
        below,
        body: at + 2,
        after: at + 2 + parts_size(count, below),
    })
}
