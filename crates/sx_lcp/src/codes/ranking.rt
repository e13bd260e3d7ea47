//! The different values of a list in the order of their codes.

ghost use Rattle.std.specs.Prelude.{◌≡◌, ℕ, ◌+◌, ◌<◌, ◌^◌, ◌≢◌, ◌==◌, if◌then◌else◌, IfOk, OnOk, length, map, nat_eq, unwrap_or};
ghost use Rattle.std.specs.HashMap.{get, IsUnique};
ghost use Rattle.sx_spec_kinds.specs.TwoStep.{frequency};
ghost use Rattle.sx_lcp.specs.Rankings.{counted_more, ranked_entry, ranking_of};

use std::alloc::{AllocError, Global};
use std::cmp::Reverse;
use std::collections::HashMap;

/// How often a value stands in a list, and the value. These sort as the codes go.
pub(crate) type Ranked = (Reverse<u32>, u32);

/// The different ones of fewer than 2 to the power 32 values, each with its frequency: the most
/// frequent first, and of those as frequent the least first.
///
/// # Errors
///
/// Want of memory.
pub(super) fn ranked_values(alloc: Global, values: &[u32]) -> Result<Vec<Ranked>, AllocError>
    requires { length values.now < 2 ^ 32 }
    ensures { IfOk result (λ ranked. ranked.items ≡ ranking_of values.now) }
{
    let counts = counts(alloc, values)?;
    let mut ranked = entries(alloc, &counts)?;
    ranked.sort_unstable();
    Ok(ranked)
}

/// How often each value stands in a list of fewer than 2 to the power 32. Equal values mostly stand
/// side by side, so the map is asked once for each run of them.
fn counts(alloc: Global, values: &[u32]) -> Result<HashMap<u32, u32>, AllocError>
    requires { length values.now < 2 ^ 32 }
    ensures counts { IfOk result (λ m. (q : ℕ) →
        unwrap_or (get nat_eq m q) 0 ≡ frequency values.now q) }
    ensures some { IfOk result (λ m. (q : ℕ) → get nat_eq m q ≢ Some 0) }
{
    let mut counts = HashMap::new(alloc);
    let mut current = 0u32;
    let mut run = 0u32;
    for value in values {
        if *value != current {
            add_run(&mut counts, current, run)?;
            current = *value;
            run = 0;
        }
        run += 1;
    }
    add_run(&mut counts, current, run)?;
    Ok(counts)
}

/// Counts a value so many times more. One that was never counted gets no entry.
fn add_run(counts: &mut HashMap<u32, u32>, value: u32, run: u32) -> Result<(), AllocError>
    requires { unwrap_or (get nat_eq counts.old value) 0 + run < 2 ^ 32 }
    ensures { OnOk result ((q : ℕ) → get nat_eq counts.new q
        ≡ counted_more (get nat_eq counts.old q) (if value == q then run else 0)) }
{
    if run > 0 {
        *counts.entry(value)?.or_insert(0) += run;
    }
    Ok(())
}

/// The values with their counts, in any order.
fn entries(alloc: Global, counts: &HashMap<u32, u32>) -> Result<Vec<Ranked>, AllocError>
    ensures entries { IfOk result (λ v. v.items ≡ map ranked_entry counts.now.entries) }
    ensures unique { IsUnique nat_eq counts.now }
{
    let mut entries = Vec::with_capacity(alloc, counts.len())?;
    for (value, count) in counts {
        entries.push((Reverse(*count), *value))?;
    }
    Ok(entries)
}
