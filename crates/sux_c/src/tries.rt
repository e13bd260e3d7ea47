//! The seeds of a build, in order.

ghost use Rattle.std.specs.Prelude.{◌≡◌, ◌≢◌, ◌≤◌, ◌<◌, IfOk, length};
ghost use Rattle.sx_spec.specs.Values.{plain_values};
ghost use Rattle.sx_spec_program.specs.Program.{IsOfferedPlan};
ghost use Rattle.sux_c.specs.Building.{IsTried};

use crate::told::{SuxFailure, SuxFailures};
use std::alloc::{AllocError, Global};
use std::marker::Brand;
use std::sync::ledger::{Blank, Ledger};
use sx_assemble::assemble;
use sx_bits::KeyList;
use sx_parts::Assembled;
use sx_spec::Plan;
use sx_steps::Steps;

/// What keys and values come to by the seeds.
#[derive(Drop)]
pub(crate) enum Tried {
    /// The words of the dump that the first seed that works gives, that seed, and the failures of
    /// the seeds before it.
    Dump {
        words: Vec<u64>,
        seed: u64,
        failures: SuxFailures,
    },
    /// No seed works: the failures of all of them.
    Failed {
        failures: SuxFailures,
    },
}

/// The dump of the keys and values by the first seed that works, or a failure of each seed.
fn try_counted<L: Ledger>(
    alloc: Global,
    plan: &Plan,
    keys: &KeyList,
    values: &[u64],
    seeds: &[u64],
    steps: &mut Steps<L>,
) -> Result<Tried, AllocError>
    requires values { length values.now ≡ length keys.now.lines }
    requires plan { IsOfferedPlan plan.now }
    requires ranks { plan.now.signed ≢ 0
        → values.now ≡ plain_values (length keys.now.lines) }
    requires seeds { length seeds.now ≤ 16 }
    ensures { IfOk result (IsTried plan.now keys.now.lines values.now seeds.now) }
{
    let mut failures = SuxFailures::none();
    'tries: for seed in seeds {
        match assemble(alloc, keys, values, plan, *seed, steps)? {
            Assembled::Words(words) => {
                return Ok(Tried::Dump {
                    words,
                    seed: *seed,
                    failures,
                });
            }
            Assembled::SeedFailed(fault) => failures.push(SuxFailure::of(&fault)),
        }
    }
    Ok(Tried::Failed { failures })
}

/// The same, under a count of its own.
fn try_under<L: Ledger>(
    alloc: Global,
    plan: &Plan,
    keys: &KeyList,
    values: &[u64],
    seeds: &[u64],
    blank: Blank,
) -> Result<Tried, AllocError>
    requires name { blank.name ≡ L.name }
    requires parts { blank.parts ≡ L.parts }
    requires some { 0 < blank.parts }
    requires values { length values.now ≡ length keys.now.lines }
    requires plan { IsOfferedPlan plan.now }
    requires ranks { plan.now.signed ≢ 0
        → values.now ≡ plain_values (length keys.now.lines) }
    requires seeds { length seeds.now ≤ 16 }
    ensures { IfOk result (IsTried plan.now keys.now.lines values.now seeds.now) }
{
    let mut steps = Steps::<L>::new(blank);
    try_counted(alloc, plan, keys, values, seeds, &mut steps)
}

/// The dump of the keys and values by the first of at most 16 seeds that works, or a failure of each
/// seed.
///
/// # Errors
/// Want of memory.
pub(crate) fn try_seeds(
    alloc: Global,
    plan: &Plan,
    keys: &KeyList,
    values: &[u64],
    seeds: &[u64],
) -> Result<Tried, AllocError>
    requires values { length values.now ≡ length keys.now.lines }
    requires plan { IsOfferedPlan plan.now }
    requires ranks { plan.now.signed ≢ 0
        → values.now ≡ plain_values (length keys.now.lines) }
    requires seeds { length seeds.now ≤ 16 }
    ensures { IfOk result (IsTried plan.now keys.now.lines values.now seeds.now) }
{
    try_under::<Brand>(alloc, plan, keys, values, seeds, Blank::new(1))
}
