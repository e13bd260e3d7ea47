//! Nondecreasing lists as low and upper words.
ghost use Rattle.std.specs.Prelude.{◌≡◌, ◌+◌, ◌*◌, ◌/◌, ◌%◌, ◌<◌, ◌≤◌, ◌^◌, ◌++◌, true, ℕ, IfOk, length, map, slice_index};
ghost use Rattle.sx_spec.specs.Fields.{below_of, low_width, low_words, number_words, packed, upper_words};
ghost use Rattle.sx_ef.specs.Parts.{is_sums_list, numbers_in, places_number};

use std::alloc::{AllocError, Global};
use sx_fields::fields::FieldsMut;
use sx_fields::packed_buf::PackedBuf;

/// An Elias-Fano list.
#[derive(Drop)]
pub struct EfBuf {
    /// How many numbers there are.
    pub count: u64,
    /// The last number plus 1.
    pub below: u64,
    /// The low bits of each number, packed.
    pub low: Vec<u64>,
    /// The high parts of the numbers, as the places of ones.
    pub upper: Vec<u64>,
}

/// How many low bits each of `count` numbers below `below` has: the largest with `count * 2^bits <= below`, or 0.
#[inline]
pub fn low_bits(count: u64, below: u64) -> u32
    requires { 0 < count }
    ensures width { result ≡ low_width count below }
    ensures narrow { result ≤ 63 }
{
    (u64::BITS - (below / count).leading_zeros()).saturating_sub(1)
}

/// The lowest `width` bits of each number, packed.
fn pack_low(alloc: Global, list: &[u64], width: u32) -> Result<Vec<u64>, AllocError>
    requires narrow { width ≤ 63 }
    requires short { length list.now < 2 ^ 32 }
    ensures { IfOk result (λ v. v.items ≡ packed width (map (λ x. x % 2 ^ width) list.now)) }
{
    let mut low = PackedBuf::zeroed(alloc, list.len(), width)?;
    let mask = (1 << width) - 1;
    for (i, number) in list.iter().enumerate() {
        low.set(i, number & mask);
    }
    Ok(low.into_words())
}

/// A one at the high part of number `i` plus `i`, for each `i`, in `bits` bits.
fn set_places(alloc: Global, list: &[u64], width: u32, bits: u64) -> Result<Vec<u64>, AllocError>
    requires narrow { width ≤ 63 }
    requires short { length list.now < 2 ^ 32 }
    requires rising { (i : ℕ) → i + 1 < length list.now
        → slice_index list.now i ≤ slice_index list.now (i + 1) }
    requires within { (i : ℕ) → i < length list.now
        → slice_index list.now i / 2 ^ width + i < bits }
    ensures { IfOk result (λ v. v.items ≡ number_words bits (places_number width list.now)) }
{
    let mut upper = vec![in alloc; 0u64; bits.div_ceil(64) as usize]?;
    for (i, number) in list.iter().enumerate() {
        let place = (number >> width) + i as u64;
        upper[(place / 64) as usize] |= 1 << (place % 64);
    }
    Ok(upper)
}

/// The Elias-Fano list of numbers that never fall. No number is 2^64 - 1.
///
/// # Errors
/// Only for want of memory.
pub(crate) fn encode(alloc: Global, list: &[u64]) -> Result<EfBuf, AllocError>
    requires some { 0 < length list.now }
    requires short { length list.now < 2 ^ 32 }
    requires rising { (i : ℕ) → i + 1 < length list.now
        → slice_index list.now i ≤ slice_index list.now (i + 1) }
    requires last { below_of list.now < 2 ^ 64 }
    ensures count { IfOk result (λ e. e.count ≡ length list.now) }
    ensures below { IfOk result (λ e. e.below ≡ below_of list.now) }
    ensures low { IfOk result (λ e. e.low.items ≡ low_words list.now) }
    ensures upper { IfOk result (λ e. e.upper.items ≡ upper_words list.now) }
    ensures valid { IfOk result
        (λ e. is_sums_list e.count e.below (e.low.items ++ e.upper.items) ≡ true) }
    ensures numbers { IfOk result
        (λ e. numbers_in e.count e.below (e.low.items ++ e.upper.items) ≡ list.now) }
{
    let count = list.len() as u64;
    let below = list[list.len() - 1] + 1;
    let width = low_bits(count, below);
    let bits = count + ((below - 1) >> width);
    let low = pack_low(alloc, list, width)?;
    let upper = set_places(alloc, list, width, bits)?;
    Ok(EfBuf {
        count,
        below,
        low,
        upper,
    })
}
