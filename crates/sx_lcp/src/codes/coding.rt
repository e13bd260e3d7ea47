//! The codes of values by a table, and which of them are escaped.

ghost use Rattle.std.specs.Prelude.{◌≡◌, ℕ, ◌-◌, ◌<◌, ◌≤◌, ◌^◌, ◌==◌, if◌then◌else◌, IfOk, OnOk, length, map, nat_eq, unwrap_or};
ghost use Rattle.std.specs.HashMap.{get};
ghost use Rattle.std.specs.Option.{option_or};
ghost use Rattle.sx_spec_kinds.specs.TwoStep.{code_of};
ghost use Rattle.sx_lcp.specs.Rankings.{place_in, numbers_from};

use std::alloc::{AllocError, Global};
use std::collections::HashMap;

/// The code of each value, by the table of codes of so many bits, at most 32. Equal values mostly
/// stand side by side, so the table is asked once for each run of them.
///
/// # Errors
///
/// Want of memory.
pub(super) fn codes_by(
    alloc: Global,
    table: &[u32],
    bits: u32,
    values: &[u32],
) -> Result<Vec<u32>, AllocError>
    requires few { length table.now < 2 ^ 32 }
    requires bits { bits ≤ 32 }
    ensures { IfOk result (λ codes. codes.items ≡ map (code_of table.now bits) values.now) }
{
    let last = last_code(bits);
    let places = places(alloc, table)?;
    let mut codes = Vec::with_capacity(alloc, values.len())?;
    let mut known = 0u32;
    let mut code = code_at(&places, last, known);
    for value in values {
        if *value != known {
            known = *value;
            code = code_at(&places, last, known);
        }
        codes.push(code)?;
    }
    Ok(codes)
}

/// The place of a value, or the last code where it has none.
fn code_at(places: &HashMap<u32, u32>, last: u32, value: u32) -> u32
    ensures { result ≡ unwrap_or (get nat_eq places.now value) last }
{
    places.get(&value).copied().unwrap_or(last)
}

/// The greatest code of so many bits, at most 32, which the escaped values have.
pub(super) fn last_code(bits: u32) -> u32
    requires { bits ≤ 32 }
    ensures { result ≡ 2 ^ bits - 1 }
{
    ((1u64 << bits) - 1) as u32
}

/// The place of each value of a table of fewer than 2 to the power 32.
fn places(alloc: Global, table: &[u32]) -> Result<HashMap<u32, u32>, AllocError>
    requires { length table.now < 2 ^ 32 }
    ensures { IfOk result (λ m. (q : ℕ) → get nat_eq m q ≡ place_in table.now q) }
{
    let mut places = HashMap::with_capacity(alloc, table.len())?;
    for (place, value) in table.iter().enumerate() {
        put_place(&mut places, *value, place as u32)?;
    }
    Ok(places)
}

/// Gives a value this place, unless it has one.
fn put_place(places: &mut HashMap<u32, u32>, value: u32, place: u32) -> Result<(), AllocError>
    ensures { OnOk result ((q : ℕ) → get nat_eq places.new q ≡
        option_or (get nat_eq places.old q) (if value == q then Some place else None)) }
{
    places.entry(value)?.or_insert(place);
    Ok(())
}

/// The numbers of those of fewer than 2 to the power 32 codes that are the last one, rising.
///
/// # Errors
///
/// Want of memory.
pub(super) fn escaped_by(alloc: Global, codes: &[u32], last: u32) -> Result<Vec<u32>, AllocError>
    requires { length codes.now < 2 ^ 32 }
    ensures { IfOk result (λ v. v.items ≡ numbers_from last 0 codes.now) }
{
    let count = codes.iter().filter(|code| **code == last).count();
    let mut escaped = Vec::with_capacity(alloc, count)?;
    for (number, code) in codes.iter().enumerate() {
        if *code == last {
            escaped.push(number as u32)?;
        }
    }
    Ok(escaped)
}
