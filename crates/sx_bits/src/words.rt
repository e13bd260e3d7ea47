//! 64 bits of a line at a time, from any of its bits on. A line goes on with zero bits.

ghost use Rattle.std.specs.Prelude.{◌≡◌, ◌==◌, ℕ, ◌+◌, ◌-◌, ◌/◌, ◌%◌, ◌<◌, ◌≤◌, length, slice_index, take};
ghost use Rattle.std.specs.Int.{bit_at as number_bit, w64, to_be_bytes};
ghost use Rattle.sx_spec_strings.specs.Bits.{bit_at, key_bits};

use crate::packing::copy_bytes;

/// The first eight bytes as a number, the first the highest.
#[inline(always)]
fn number_of(bytes: &[u8]) -> u64
    requires { 8 ≤ length bytes.now }
    ensures { to_be_bytes w64 result ≡ take 8 bytes.now }
{
    let mut eight = [0u8; 8];
    eight.copy_from_slice(&bytes[..8]);
    u64::from_be_bytes(eight)
}

/// The bits of `high` and then of `low` without the first `shift`, as many as a word has.
#[inline(always)]
fn shifted_word(high: u64, low: u8, shift: u32) -> u64
    requires { shift < 8 }
    ensures first { (k : ℕ) → shift ≤ k → k < 64
        → number_bit result k ≡ number_bit high (k - shift) }
    ensures last { (k : ℕ) → k < shift → number_bit result k ≡ number_bit low (8 - shift + k) }
{
    high << shift | u64::from(low) >> (8 - shift)
}

/// The 64 bits that stand behind the first `shift` bits of nine bytes.
#[inline(always)]
fn word_of(bytes: &[u8], shift: u32) -> u64
    requires few { shift < 8 }
    requires long { 9 ≤ length bytes.now }
    ensures { (j : ℕ) → j < 64
        → number_bit result (63 - j) ≡ number_bit (slice_index bytes.now ((shift + j) / 8)) (7 - (shift + j) % 8) }
{
    shifted_word(number_of(bytes), bytes[8], shift)
}

/// The 64 bits of the line from bit `start` on.
pub(crate) fn word_at(line: &[u8], start: u32) -> u64
    requires { start ≤ 131072 }
    ensures { (j : ℕ) → j < 64
        → (number_bit result (63 - j) == 1) ≡ bit_at (key_bits line.now) (start + j) }
{
    let first = (start / 8) as usize;
    if first + 9 <= line.len() {
        return word_of(&line[first..first + 9], start % 8);
    }
    let mut nine = [0u8; 9];
    copy_bytes(line, first, &mut nine);
    word_of(&nine, start % 8)
}
