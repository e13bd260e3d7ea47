//! The numbers of parts, and how wide they are.

ghost use Rattle.std.specs.Prelude.{◌≡◌, ◌<◌, ◌≤◌, All, IfOk, length, map, slice_index};
ghost use Rattle.std.specs.List.{range_with_len};
ghost use Rattle.sx_spec_kinds.specs.Blocks.{block_size};
ghost use Rattle.sx_spec.specs.Parts.{least_width as least_width_of};
ghost use Rattle.sx_parts.specs.Ranking.{length_numbers as length_numbers_of, offset_numbers as offset_numbers_of};

use std::alloc::{AllocError, Global};
use sx_fields::digits::binary_digits;

/// How many bits the greatest of the values has; 0 where there is none.
pub fn least_width(values: &[u64]) -> u32
    ensures value { result ≡ least_width_of values.now }
    ensures bound { result ≤ 64 }
{
    let mut greatest = 0u64;
    for value in values {
        greatest = greatest.max(*value);
    }
    binary_digits(greatest)
}

/// How many bits the greatest of the numbers has, which have 32 bits; 0 where there is none.
pub fn narrow_width(numbers: &[u32]) -> u32
    ensures value { result ≡ least_width_of numbers.now }
    ensures bound { result ≤ 64 }
{
    let mut greatest = 0u32;
    for number in numbers {
        greatest = greatest.max(*number);
    }
    binary_digits(u64::from(greatest))
}

/// The numbers from 0 up to before `count`.
pub fn numbers_to(alloc: Global, count: u32) -> Result<Vec<u64>, AllocError>
    ensures { IfOk result (λ numbers. numbers.items ≡ range_with_len 0 count) }
{
    let mut numbers = Vec::with_capacity(alloc, count as usize)?;
    for i in 0..count {
        numbers.push(u64::from(i))?;
    }
    Ok(numbers)
}

/// The numbers from 0 up to before `count`, with 32 bits each.
pub fn members_to(alloc: Global, count: u32) -> Result<Vec<u32>, AllocError>
    ensures { IfOk result (λ members. members.items ≡ range_with_len 0 count) }
{
    let mut members = Vec::with_capacity(alloc, count as usize)?;
    for i in 0..count {
        members.push(i)?;
    }
    Ok(members)
}

/// For each of `count` keys its offset in its block of 2 to the power `log_bucket` keys.
pub fn offset_numbers(alloc: Global, count: u32, log_bucket: u32) -> Result<Vec<u64>, AllocError>
    requires { log_bucket ≤ 12 }
    ensures { IfOk result (λ numbers. numbers.items
        ≡ offset_numbers_of (block_size log_bucket) count) }
{
    let size = 1u64 << log_bucket;
    let mut numbers = Vec::with_capacity(alloc, count as usize)?;
    for i in 0..count {
        numbers.push(u64::from(i) % size)?;
    }
    Ok(numbers)
}

/// How many bits the greatest offset of `count` keys in their blocks of 2 to the power `log_bucket` keys has.
pub fn offset_width(count: u32, log_bucket: u32) -> u32
    requires { log_bucket ≤ 12 }
    ensures value { result ≡ least_width_of (offset_numbers_of (block_size log_bucket) count) }
    ensures bound { result ≤ 64 }
{
    let size = 1u64 << log_bucket;
    let mut greatest = 0u64;
    for i in 0..count {
        greatest = greatest.max(u64::from(i) % size);
    }
    binary_digits(greatest)
}

/// For each key its offset in its block of 2 to the power `log_bucket` keys and, times the size of a
/// block, the length of the block's prefix.
pub fn length_numbers(
    alloc: Global,
    lengths: &[u32],
    log_bucket: u32,
) -> Result<Vec<u64>, AllocError>
    requires { log_bucket ≤ 12 }
    ensures { IfOk result (λ numbers. numbers.items
        ≡ length_numbers_of (block_size log_bucket) lengths.now) }
{
    let size = 1u64 << log_bucket;
    let mut numbers = Vec::with_capacity(alloc, lengths.len())?;
    for (i, length) in lengths.iter().enumerate() {
        numbers.push(i as u64 % size + size * u64::from(*length))?;
    }
    Ok(numbers)
}

/// The numbers with 64 bits each.
pub fn widened(alloc: Global, numbers: &[u32]) -> Result<Vec<u64>, AllocError>
    ensures { IfOk result (λ wide. wide.items ≡ numbers.now) }
{
    let mut wide = Vec::with_capacity(alloc, numbers.len())?;
    for number in numbers {
        wide.push(u64::from(*number))?;
    }
    Ok(wide)
}

/// The numbers at these places.
pub fn numbers_at(alloc: Global, numbers: &[u32], places: &[u32]) -> Result<Vec<u64>, AllocError>
    requires { All (λ i. i < length numbers.now) places.now }
    ensures { IfOk result
        (λ chosen. chosen.items ≡ map (λ i. slice_index numbers.now i) places.now) }
{
    let mut chosen = Vec::with_capacity(alloc, places.len())?;
    for place in places {
        chosen.push(u64::from(numbers[*place as usize]))?;
    }
    Ok(chosen)
}
