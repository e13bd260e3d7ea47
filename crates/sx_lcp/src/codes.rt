//! Two-step codes: short codes for the most frequent values of a list, and the others escaped.

ghost use Rattle.std.specs.Prelude.{◌≡◌, ◌<◌, ◌≤◌, ◌^◌, IfOk, length};
ghost use Rattle.sx_spec_kinds.specs.TwoStep.{two_step_of, width_of};
ghost use Rattle.sx_lcp.specs.TwoSteps.{two_step_as};

mod coding;
mod costs;
mod ranking;

use coding::{codes_by, escaped_by, last_code};
use costs::{best_bits, table_by};
use ranking::ranked_values;
use std::alloc::{AllocError, Global};
use sx_fields::digits::binary_digits;

/// The two-step codes of a list of values.
#[derive(Drop)]
pub struct TwoStep {
    /// How many bits a code has, at most 32.
    pub bits: u32,
    /// The values that have codes of their own, in the order of these.
    pub table: Vec<u32>,
    /// The code of each value: its place in the table, or the greatest code where it is escaped.
    pub codes: Vec<u32>,
    /// The numbers of the escaped values, rising.
    pub escaped: Vec<u32>,
}

/// The two-step codes of fewer than 2 to the power 32 values. A code has the least number of bits at
/// which the codes and the escaped values, each as wide as the greatest of all, take least room. The
/// most frequent values have codes of their own, and of those as frequent the least.
///
/// # Errors
///
/// Want of memory.
pub fn two_step(alloc: Global, values: &[u32]) -> Result<TwoStep, AllocError>
    requires few { length values.now < 2 ^ 32 }
    ensures { IfOk result (λ t. two_step_as t ≡ two_step_of values.now) }
{
    let ranked = ranked_values(alloc, values)?;
    let bits = best_bits(values, &ranked, width(values));
    let table = table_by(alloc, &ranked, bits)?;
    let codes = codes_by(alloc, &table, bits, values)?;
    let escaped = escaped_by(alloc, &codes, last_code(bits))?;
    Ok(TwoStep {
        bits,
        table,
        codes,
        escaped,
    })
}

/// How many bits the greatest of the values has; 0 where there is none.
fn width(values: &[u32]) -> u32
    ensures value { result ≡ width_of values.now }
    ensures bound { result ≤ 32 }
{
    let mut greatest = 0u32;
    for value in values {
        greatest = greatest.max(*value);
    }
    binary_digits(u64::from(greatest))
}
