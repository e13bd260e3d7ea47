//! Lists of bits, in words of 64.

ghost use Rattle.std.specs.Prelude.{◌≡◌, ◌≢◌, ◌+◌, ◌*◌, ◌/◌, ◌%◌, ◌<◌, ◌^◌, ◌==◌, ℕ, IfOk, MatchOption, bit_xor, length, slice_index};
ghost use Rattle.sx_solve.specs.Rows.{bit};

use std::alloc::{AllocError, Global};

/// Words for so many bits, each of them 0.
pub(crate) fn no_bits(alloc: Global, count: usize) -> Result<Vec<u64>, AllocError>
    ensures words { IfOk result (λ v. length v.items ≡ count / 64 + 1) }
    ensures bits { IfOk result (λ v. (i : ℕ) → bit v.items i ≡ 0) }
{
    Ok(vec![in alloc; 0; count / 64 + 1]?)
}

/// Whether the bit is set.
pub(crate) fn test_bit(words: &[u64], i: usize) -> bool
    requires { i / 64 < length words.now }
    ensures { result ≡ (bit words.now i == 1) }
{
    words[i / 64] >> (i % 64) & 1 == 1
}

/// Sets the bit.
pub(crate) fn set_bit(words: &mut Vec<u64>, i: usize)
    requires { i / 64 < length words.old.items }
    ensures words { length words.new.items ≡ length words.old.items }
    ensures same { bit words.new.items i ≡ 1 }
    ensures others { (j : ℕ) → j ≢ i → bit words.new.items j ≡ bit words.old.items j }
{
    words[i / 64] |= 1 << (i % 64);
}

/// Adds the words to others.
pub(crate) fn add_bits(words: &mut Vec<u64>, others: &[u64])
    requires { length words.old.items ≡ length others.now }
    ensures words { length words.new.items ≡ length words.old.items }
    ensures bits { (i : ℕ) → bit words.new.items i
        ≡ (bit words.old.items i + bit others.now i) % 2 }
{
    for k in 0..words.len() {
        words[k] ^= others[k];
    }
}

/// The first bit that is set.
pub(crate) fn first_bit(words: &[u64]) -> Option<usize>
    requires { 64 * length words.now < 2 ^ 63 }
    ensures { MatchOption result ((i : ℕ) → bit words.now i ≡ 0) (λ i. bit words.now i ≡ 1) }
{
    for (k, word) in words.iter().enumerate() {
        if *word != 0 {
            return Some(64 * k + word.trailing_zeros() as usize);
        }
    }
    None
}
