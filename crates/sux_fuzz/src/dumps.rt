//! The dumps that are changed: one of each kind, unsigned and signed.
ghost use Rattle.std.specs.Prelude.{◌≡◌, ◌≢◌, ◌≤◌, ◌<◌, ◌*◌, IfOk, length, vec_len};
ghost use Rattle.sx_spec.specs.Values.{plain_values};
ghost use Rattle.sx_spec_program.specs.Program.{IsOfferedPlan};

use crate::keys::keys;
use anyhow::{Result, bail};
use std::alloc::{AllocError, Global};
use std::sync::ledger::Ledger;
use sx_assemble::assemble;
use sx_bits::KeyList;
use sx_kinds::kinds::{uses_buckets, uses_handles};
use sx_parts::Assembled;
use sx_parts::numbers::numbers_to;
use sx_spec::{Kind, Method, Plan};
use sx_steps::Steps;

/// The seeds that are tried for a dump.
const SEEDS: [u64; 4] = [0, 1, 2, 3];

/// How many bits of each signature a signed dump keeps.
const SIGNED: u32 = 16;

const KINDS: [Kind; 6] = [
    Kind::Func,
    Kind::Lcp,
    Kind::Lcp2,
    Kind::Hollow,
    Kind::HollowDist,
    Kind::Zfast,
];

/// The plan of a small dump: blocks of two keys, and so few bits of each handle that keys are
/// misled.
fn plan_of(kind: Kind, signed: u32) -> Plan
    requires { signed ≤ 64 }
    ensures offered { IsOfferedPlan result }
    ensures signed { result.signed ≡ signed }
{
    Plan {
        kind,
        method: Method::Mwhc,
        log_bucket: if uses_buckets(kind) { 1 } else { 0 },
        sig_bits: 192,
        handle_bits: if uses_handles(kind) { 2 } else { 0 },
        signed,
    }
}

/// Values of so many keys that reach over the ends of words.
fn wide_values(alloc: Global, count: u32) -> Result<Vec<u64>, AllocError>
    ensures { IfOk result (λ values. length values.items ≡ count) }
{
    (0..count)
        .map(|i| u64::from(i).wrapping_mul(1_000_000_007))
        .collect(alloc)
}

/// The values of so many keys: in a signed dump their numbers.
fn values_of(alloc: Global, count: u32, signed: u32) -> Result<Vec<u64>, AllocError>
    ensures many { IfOk result (λ values. length values.items ≡ count) }
    ensures ranks { IfOk result (λ values. signed ≢ 0 → values.items ≡ plain_values count) }
{
    if signed == 0 {
        return wide_values(alloc, count);
    }
    let numbers = numbers_to(alloc, count)?;
    Ok(numbers)
}

/// The words of the dump of the keys by the first seed that works.
fn dump_of<L: Ledger>(
    alloc: Global,
    keys: &KeyList,
    kind: Kind,
    signed: u32,
    steps: &mut Steps<L>,
) -> Result<Vec<u64>>
    requires { signed ≤ 64 }
{
    let plan = plan_of(kind, signed);
    let values = values_of(alloc, keys.len(), signed)?;
    for seed in SEEDS {
        match assemble(alloc, keys, &values, &plan, seed, steps)? {
            Assembled::Words(words) => return Ok(words),
            Assembled::SeedFailed(_) => {}
        }
    }
    bail!("no seed works")
}

/// A dump of each kind, unsigned and signed.
pub fn small_dumps<L: Ledger>(alloc: Global, steps: &mut Steps<L>) -> Result<Vec<Vec<u64>>>
    ensures { IfOk result (λ dumps. vec_len dumps ≡ 12) }
{
    let keys = keys(alloc)?;
    let mut dumps = Vec::new(alloc);
    for kind in KINDS {
        dumps.push(dump_of(alloc, &keys, kind, 0, steps)?)?;
        dumps.push(dump_of(alloc, &keys, kind, SIGNED, steps)?)?;
    }
    Ok(dumps)
}
