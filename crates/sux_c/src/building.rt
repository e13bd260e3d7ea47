//! Dumps that are built from keys in memory, into memory of the caller's.

ghost use Rattle.std.specs.Prelude.{◌≡◌, ◌≢◌, ◌<◌, ◌≤◌, ◌⊎◌, IfErr, IfOk, false, length, true};
ghost use Rattle.sx_spec.specs.Keys.{AreKeys, standard_limits};
ghost use Rattle.sx_spec.specs.Values.{plain_values};
ghost use Rattle.sx_spec_program.specs.Program.{IsOfferedPlan};
ghost use Rattle.sux_c.specs.Building.{AllFail, HoldsDump, IsBuilding, IsStop, IsTried, TakesWords, fits_counts, fits_values as values_fit, takes_values as plan_takes_values, values_of};
ghost use Rattle.sux_c.specs.KeyFaults.{IsFirstFault, lines_of};
ghost use Rattle.sux_c.specs.Plans.{IsAsked, plan_of};
ghost use Rattle.sux_c.specs.Told.{failures_in};

use crate::keys::{KeyStop, list_of};
use crate::plan::SuxPlan;
use crate::status::{BAD_COUNT, BAD_KEY, BAD_PLAN, DONE, NO_MEMORY, NO_ROOM, NO_SEED};
use crate::told::{MOST_SEEDS, SuxTold};
use crate::tries::{Tried, try_seeds};
use std::alloc::{AllocError, Global};
use sx_bits::KeyList;
use sx_spec::{Kind, Plan};

/// Why there is no build.
#[derive(Clone, Copy, Drop)]
pub(crate) enum Stop {
    /// What is asked for is no plan.
    Asked,
    /// There are not as many values or seeds as there have to be.
    Count,
    /// The key of this number, counted from 0, breaks this rule.
    Key { number: u64, rule: u32 },
    /// Memory is wanting.
    Memory,
}

impl From<KeyStop> for Stop {
    ghost use Rattle.std.specs.Prelude.{◌≡◌};
    ghost use Rattle.sux_c.specs.Building.{stop_of};

    ghost from_gives = { λ stop e. e ≡ stop_of stop };

    fn from(stop: KeyStop) -> Stop {
        match stop {
            KeyStop::Refused { number, rule } => Stop::Key { number, rule },
            KeyStop::Memory => Stop::Memory,
        }
    }
}

impl From<AllocError> for Stop {
    ghost use Rattle.std.specs.Prelude.{◌≡◌};
    ghost use Rattle.sux_c.specs.declared.building.Stop.TheVariants.{Memory};

    ghost from_gives = { λ _ e. e ≡ Memory };

    fn from(_: AllocError) -> Stop {
        Stop::Memory
    }
}

/// Whether there are as many values as the plan takes for so many keys, or none.
fn fits_values(plan: &Plan, keys: usize, values: usize) -> bool
    ensures { result ≡ values_fit plan.now keys values }
{
    let takes = matches!(plan.kind, Kind::Func) && plan.signed == 0;
    values == 0 || (takes && values == keys)
}

/// Whether there are as many values and seeds as the plan takes for so many keys.
fn fits(plan: &Plan, keys: usize, values: usize, seeds: usize) -> bool
    ensures { result ≡ fits_counts plan.now keys values seeds }
{
    1 <= seeds && seeds <= MOST_SEEDS && fits_values(plan, keys, values)
}

/// The numbers from 0 up to before `count`.
fn ranks(alloc: Global, count: u32) -> Result<Vec<u64>, AllocError>
    ensures { IfOk result (λ values. values.items ≡ plain_values count) }
{
    let mut values = Vec::with_capacity(alloc, count as usize)?;
    for i in 0..count {
        values.push(u64::from(i))?;
    }
    Ok(values)
}

/// What the keys come to with the values, or with their numbers where none are given.
fn build_list(
    alloc: Global,
    plan: &Plan,
    keys: &KeyList,
    values: &[u64],
    seeds: &[u64],
) -> Result<Tried, AllocError>
    requires plan { IsOfferedPlan plan.now }
    requires counts { fits_counts plan.now (length keys.now.lines) (length values.now)
        (length seeds.now) ≡ true }
    ensures { IfOk result (IsTried plan.now keys.now.lines
        (values_of keys.now.lines values.now) seeds.now) }
{
    if values.len() == 0 {
        let numbers = ranks(alloc, keys.len())?;
        return try_seeds(alloc, plan, keys, &numbers, seeds);
    }
    try_seeds(alloc, plan, keys, values, seeds)
}

/// What is handed comes to, where all of it is as it may be.
///
/// # Errors
/// The first thing that isn't as it may be, or want of memory.
fn build(
    alloc: Global,
    asked: &SuxPlan,
    keys: &[&[u8]],
    values: &[u64],
    seeds: &[u64],
) -> Result<Tried, Stop>
    ensures built { IfOk result (IsBuilding asked.now (lines_of keys.now) values.now seeds.now) }
    ensures stop { IfErr result (IsStop asked.now (lines_of keys.now) values.now seeds.now) }
{
    if !asked.is_asked() {
        return Err(Stop::Asked);
    }
    let plan = asked.to_plan();
    if !fits(&plan, keys.len(), values.len(), seeds.len()) {
        return Err(Stop::Count);
    }
    let list = list_of(alloc, keys)?;
    Ok(build_list(alloc, &plan, &list, values, seeds)?)
}

/// Builds the dump of the keys and values by the first seed that works, and puts its words at the
/// front of `out`. Where no values are given, they are the keys' numbers. What isn't told is left in
/// `told` as it was, and `out` too unless the dump stands there.
#[unsafe(no_mangle)]
pub extern "C" fn sux_build(
    alloc: Global,
    keys: &[&[u8]],
    values: &[u64],
    plan: &SuxPlan,
    seeds: &[u64],
    out: &mut [u64],
    told: &mut SuxTold,
) -> u8
    ensures done { result ≡ DONE → HoldsDump (plan_of plan.now) (lines_of keys.now) values.now
        seeds.now out.old out.new told.new }
    ensures no_room { result ≡ NO_ROOM → TakesWords (plan_of plan.now) (lines_of keys.now)
        values.now seeds.now (length out.old) told.new }
    ensures no_seed { result ≡ NO_SEED → AllFail (plan_of plan.now) (lines_of keys.now)
        (values_of (lines_of keys.now) values.now) seeds.now (failures_in told.new.failures) }
    ensures bad_key { result ≡ BAD_KEY
        → IsFirstFault (lines_of keys.now) told.new.number told.new.rule }
    ensures bad_count { result ≡ BAD_COUNT → fits_counts (plan_of plan.now) (length keys.now)
        (length values.now) (length seeds.now) ≡ false }
    ensures bad_plan { result ≡ BAD_PLAN → ¬ IsAsked plan.now }
    ensures asked { result ≢ BAD_PLAN → IsAsked plan.now }
    ensures counts { result ≢ BAD_PLAN → result ≢ BAD_COUNT → fits_counts (plan_of plan.now)
        (length keys.now) (length values.now) (length seeds.now) ≡ true }
    ensures valid { (result ≡ DONE) ⊎ (result ≡ NO_ROOM) ⊎ (result ≡ NO_SEED)
        → AreKeys standard_limits (lines_of keys.now) }
    ensures only { (result ≡ DONE) ⊎ (result ≡ NO_ROOM) ⊎ (result ≡ NO_SEED) ⊎ (result ≡ BAD_KEY)
        ⊎ (result ≡ BAD_COUNT) ⊎ (result ≡ BAD_PLAN) ⊎ (result ≡ NO_MEMORY) }
    ensures kept { result ≢ DONE → out.new ≡ out.old }
{
    match build(alloc, plan, keys, values, seeds) {
        Ok(
            Tried::Dump {
                words,
                seed,
                failures,
            },
        ) => {
            let front = words.as_slice();
            told.words = front.len() as u64;
            told.seed = seed;
            told.failures = failures;
            if front.len() > out.len() {
                return NO_ROOM;
            }
            out[..front.len()].copy_from_slice(front);
            DONE
        }
        Ok(Tried::Failed { failures }) => {
            told.failures = failures;
            NO_SEED
        }
        Err(Stop::Asked) => BAD_PLAN,
        Err(Stop::Count) => BAD_COUNT,
        Err(Stop::Key { number, rule }) => {
            told.number = number;
            told.rule = rule;
            BAD_KEY
        }
        Err(Stop::Memory) => NO_MEMORY,
    }
}
