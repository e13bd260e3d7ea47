//! The seeds of a build, in order.
ghost use Rattle.std.specs.Prelude.{◌≡◌, ◌≢◌, ◌≤◌, ◌<◌, ◌^◌, ◌++◌, IfOk, OnOk, All, length};
ghost use Rattle.sx_spec_kinds.specs.declared.Kind.TheVariants.{Func};
ghost use Rattle.sx_spec.specs.Messages.{no_seed_text};
ghost use Rattle.sx_spec.specs.Values.{plain_values};
ghost use Rattle.sx_spec_program.specs.Program.{IsOfferedPlan};
ghost use Rattle.sx_trial.specs.Seeds.{IsTried};

use std::alloc::{AllocError, Global};
use std::sync::ledger::Ledger;
use sx_assemble::assemble;
use sx_bits::KeyList;
use sx_parts::Assembled;
use sx_spec::Plan;
use sx_steps::Steps;
use sx_text::failures::push_failure;
use sx_text::messages::built_text;

/// What keys and values come to by the seeds.
#[derive(Drop)]
pub enum Tried {
    /// The words of the dump that the first seed that works gives, and the line on it.
    Dump { words: Vec<u64>, line: Vec<u8> },
    /// No seed works; the message tells a failure of each.
    Failed { message: Vec<u8> },
}

/// The dump of the keys and values by the first seed that works, or a failure of each seed.
pub fn try_seeds<L: Ledger>(
    alloc: Global,
    plan: &Plan,
    seeds: &[u64],
    keys: &KeyList,
    values: &[u64],
    steps: &mut Steps<L>,
) -> Result<Tried, AllocError>
    requires values { length values.now ≡ length keys.now.lines }
    requires plan { IsOfferedPlan plan.now }
    requires ranks { plan.now.signed ≢ 0
        → values.now ≡ plain_values (length keys.now.lines) }
    ensures tried { IfOk result (IsTried plan.now seeds.now keys.now.lines values.now) }
    ensures counted { steps.old ≤ steps.new }
{
    let mut message = Vec::new(alloc);
    'tries: for seed in seeds {
        match assemble(alloc, keys, values, plan, *seed, steps)? {
            Assembled::Words(words) => {
                let line = built_text(alloc, u64::from(keys.len()), *seed, words.len() as u64)?;
                return Ok(Tried::Dump { words, line });
            }
            Assembled::SeedFailed(fault) => push_failure(&mut message, plan, *seed, &fault)?,
        }
    }
    message.extend_from_slice(b"sux: no handed seed works\n")?;
    Ok(Tried::Failed { message })
}
