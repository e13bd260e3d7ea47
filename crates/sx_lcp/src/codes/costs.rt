//! How many bits a code has, and which values have codes of their own.

ghost use Rattle.std.specs.Prelude.{◌≡◌, ◌-◌, ◌<◌, ◌≤◌, ◌^◌, IfOk, length, map, min, sum_by, take};
ghost use Rattle.sx_spec_kinds.specs.TwoStep.{bits_of, cost_of, width_of};
ghost use Rattle.sx_lcp.specs.Rankings.{ranking_of, value_at, count_at};

use super::ranking::Ranked;
use std::alloc::{AllocError, Global};

/// The least number of bits of a code at which the codes of the values, fewer than 2 to the power 32,
/// and the escaped values cost least. The values are ranked, and the greatest has `width` bits.
pub(super) fn best_bits(values: &[u32], ranked: &[Ranked], width: u32) -> u32
    requires few { length values.now < 2 ^ 32 }
    requires ranked { ranked.now ≡ ranking_of values.now }
    requires width { width ≡ width_of values.now }
    requires bound { width ≤ 32 }
    ensures value { result ≡ bits_of values.now }
    ensures bound { result ≤ 32 }
{
    let mut best = 0u32;
    let mut least = cost(values, ranked, width, 0);
    for bits in 1..width + 1 {
        let next = cost(values, ranked, width, bits);
        if next < least {
            best = bits;
            least = next;
        }
    }
    best
}

/// What codes of so many bits, at most `width`, cost in all.
fn cost(values: &[u32], ranked: &[Ranked], width: u32, bits: u32) -> u64
    requires few { length values.now < 2 ^ 32 }
    requires ranked { ranked.now ≡ ranking_of values.now }
    requires width { width ≡ width_of values.now }
    requires bound { width ≤ 32 }
    requires bits { bits ≤ width }
    ensures { result ≡ cost_of values.now bits }
{
    let count = values.len() as u64;
    let own = counted(&ranked[..own_count(ranked, bits)]);
    count * u64::from(bits) + u64::from(width) * (count - own)
}

/// How many values have codes of their own where a code has so many bits, at most 32.
fn own_count(ranked: &[Ranked], bits: u32) -> usize
    requires { bits ≤ 32 }
    ensures { result ≡ min (2 ^ bits - 1) (length ranked.now) }
{
    ((1u64 << bits) - 1).min(ranked.len() as u64) as usize
}

/// The sum of the frequencies.
fn counted(ranked: &[Ranked]) -> u64
    requires { length ranked.now < 2 ^ 32 }
    ensures { result ≡ sum_by count_at ranked.now }
{
    let mut sum = 0u64;
    for entry in ranked {
        sum += u64::from(entry.0.0);
    }
    sum
}

/// The values that have codes of their own where a code has so many bits, at most 32.
///
/// # Errors
///
/// Want of memory.
pub(super) fn table_by(alloc: Global, ranked: &[Ranked], bits: u32) -> Result<Vec<u32>, AllocError>
    requires { bits ≤ 32 }
    ensures { IfOk result (λ table. table.items ≡ map value_at (take (2 ^ bits - 1) ranked.now)) }
{
    let own = own_count(ranked, bits);
    let mut table = Vec::with_capacity(alloc, own)?;
    for entry in &ranked[..own] {
        table.push(entry.1)?;
    }
    Ok(table)
}
