//! Dumps as words, put together from keys and values: one module for each kind.
#![tactic(auto)]

ghost use Rattle.std.specs.Prelude.{◌≡◌, ◌≢◌, ◌≤◌, IfOk, length};
ghost use Rattle.sx_spec_program.specs.Program.{IsOfferedPlan};
ghost use Rattle.sx_spec.specs.Values.{plain_values};
ghost use Rattle.sx_parts.specs.Assembling.{IsAssembled};

mod delimiters;
mod func;
mod hollow;
mod hollow_dist;
mod lcp;
mod lcp2;
mod zfast;

use func::assemble_func;
use hollow::assemble_hollow;
use hollow_dist::assemble_hollow_dist;
use lcp::assemble_lcp;
use lcp2::assemble_lcp2;
use std::alloc::{AllocError, Global};
use std::sync::ledger::Ledger;
use sx_bits::KeyList;
use sx_parts::Assembled;
use sx_sig::{Kind, Plan};
use sx_steps::Steps;
use zfast::assemble_zfast;

/// Builds what the plan's kind keeps of the keys, and lays out its dump in words, or tells why the
/// seed doesn't work. There are as many values as keys: a static function gives each key its
/// value, in as many bits as the greatest has, and the other kinds don't look at them. With a signed
/// width the values are the keys' numbers. The steps are for reads of words, which the
/// kind `zfast` makes of what it has built.
///
/// # Errors
///
/// Want of memory.
pub fn assemble<L: Ledger>(
    alloc: Global,
    keys: &KeyList,
    values: &[u64],
    plan: &Plan,
    seed: u64,
    steps: &mut Steps<L>,
) -> Result<Assembled, AllocError>
    requires plan { IsOfferedPlan plan.now }
    requires values { length values.now ≡ length keys.now.lines }
    requires ranks { plan.now.signed ≢ 0
        → values.now ≡ plain_values (length keys.now.lines) }
    ensures assembled { IfOk result (IsAssembled keys.now.lines values.now plan.now seed) }
    ensures counted { steps.old ≤ steps.new }
{
    match plan.kind {
        Kind::Func => assemble_func(alloc, keys, values, plan, seed),
        Kind::Lcp => assemble_lcp(alloc, keys, plan, seed),
        Kind::Lcp2 => assemble_lcp2(alloc, keys, plan, seed),
        Kind::Hollow => assemble_hollow(alloc, keys, plan, seed),
        Kind::HollowDist => assemble_hollow_dist(alloc, keys, plan, seed),
        Kind::Zfast => assemble_zfast(alloc, keys, plan, seed, steps),
    }
}
