//! Trials of a kind.
ghost use Rattle.std.specs.Prelude.{◌≡◌, ◌+◌, ◌≤◌, IfOk, length, sum as sum_of};
ghost use Rattle.sx_spec.specs.Command.{default_plan as default_plan_of, default_seeds};
ghost use Rattle.sx_spec.specs.Layout.{Dump as DumpRecord};
ghost use Rattle.sx_spec.specs.Outcomes.{trial_line};
ghost use Rattle.sx_spec.specs.Trial.{trial_keys};
ghost use Rattle.sx_spec.specs.Values.{plain_values};
ghost use Rattle.sx_dump.specs.Opening.{dump_in};
ghost use Rattle.sx_trial.specs.Seeds.{IsTried};
ghost use Rattle.sx_trial.specs.Trials.{IsMade, IsTrial, replies_from};

use crate::made::{eight_digits, made_keys, made_values};
use crate::seeds::{Tried, try_seeds};
use std::alloc::{AllocError, Global};
use std::sync::ledger::Ledger;
use sx_bits::BitView;
use sx_dump::{Dump, OpenFault, open_dump};
use sx_fields::bank::{WordBank, Words, WordsBuf};
use sx_kinds::kinds::{uses_buckets, uses_handles};
use sx_spec::{Kind, Method, Plan};
use sx_steps::Steps;
use sx_text::messages::trial_text;

/// The seeds that are tried.
const SEEDS: [u64; 4] = [0, 1, 2, 3];

/// What a trial comes to.
#[derive(Drop)]
pub enum Trial {
    /// The line on a dump of the made keys that was built and asked.
    Line(Vec<u8>),
    /// No seed works; the message tells a failure of each.
    Failed(Vec<u8>),
}

/// Replies that are numbers: how many, and their sum.
#[derive(Clone, Copy)]
struct Replies {
    count: u32,
    sum: u128,
}

/// The plan of a kind without options.
pub(crate) fn default_plan(kind: Kind) -> Plan
    ensures { result ≡ default_plan_of kind }
{
    Plan {
        kind,
        method: Method::Mwhc,
        log_bucket: if uses_buckets(kind) { 5 } else { 0 },
        sig_bits: 192,
        handle_bits: if uses_handles(kind) { 32 } else { 0 },
        signed: 0,
    }
}

/// Asks the dump the numbers from one on, so many, in eight digits.
fn ask<B: WordBank + Copy, L: Ledger>(
    dump: &Dump<B, WordsBuf>,
    first: u32,
    count: u32,
    steps: &mut Steps<L>,
) -> Replies
    requires { first + count ≤ 2000000 }
    ensures count { result.count
        ≡ length (replies_from (dump_in (B.words_of dump.now.bank)) first count) }
    ensures sum { result.sum
        ≡ sum_of (replies_from (dump_in (B.words_of dump.now.bank)) first count) }
    ensures counted { steps.old ≤ steps.new }
{
    let mut replies = Replies { count: 0, sum: 0 };
    for number in first..first + count {
        let line = eight_digits(number);
        match dump.string_reply(&BitView::key_bits(&line), steps) {
            Some(value) => {
                replies.count += 1;
                replies.sum += u128::from(value);
            }
            None => {}
        }
    }
    replies
}

/// What the made keys come to by the seeds.
fn build_made<L: Ledger>(
    alloc: Global,
    kind: Kind,
    count: u32,
    steps: &mut Steps<L>,
) -> Result<Tried, AllocError>
    requires { count ≤ 1000000 }
    ensures tried { IfOk result (IsTried (default_plan_of kind) default_seeds (trial_keys count)
        (plain_values count)) }
    ensures counted { steps.old ≤ steps.new }
{
    let keys = made_keys(alloc, count)?;
    let values = made_values(alloc, count)?;
    try_seeds(alloc, &default_plan(kind), &SEEDS, &keys, &values, steps)
}

/// The line on the dump in these words, which is asked its keys and as many strangers.
fn line_of<L: Ledger>(
    alloc: Global,
    kind: Kind,
    count: u32,
    words: &[u64],
    steps: &mut Steps<L>,
) -> Result<Vec<u8>, AllocError>
    requires few { count ≤ 1000000 }
    requires made { (d : DumpRecord) × IsMade kind count words.now d }
    ensures line { IfOk result (λ line. (d : DumpRecord) → IsMade kind count words.now d
        → line.items ≡ trial_line kind count d) }
    ensures counted { steps.old ≤ steps.new }
{
    let dump = match open_dump(alloc, words, words.len() as u64 * 8, Words::new(words)) {
        Ok(dump) => dump,
        Err(OpenFault::Memory) => return Err(AllocError),
        // what was built passes every check
        Err(OpenFault::Malformed { .. }) => unreachable!(),
    };
    let members = ask(&dump, 0, count, steps);
    let strangers = ask(&dump, count, count, steps);
    trial_text(
        alloc,
        kind,
        u64::from(count),
        u64::from(members.count),
        members.sum,
        strangers.sum,
    )
}

/// Builds a dump of so many made keys, at most 1,000,000, with the default options, opens it, and
/// asks it each key and as many strangers.
///
/// # Errors
///
/// Want of memory.
pub fn try_kind<L: Ledger>(
    alloc: Global,
    kind: Kind,
    count: u32,
    steps: &mut Steps<L>,
) -> Result<Trial, AllocError>
    requires { count ≤ 1000000 }
    ensures tried { IfOk result (IsTrial kind count) }
    ensures counted { steps.old ≤ steps.new }
{
    match build_made(alloc, kind, count, steps)? {
        Tried::Dump { words, .. } => Ok(Trial::Line(line_of(alloc, kind, count, &words, steps)?)),
        Tried::Failed { message } => Ok(Trial::Failed(message)),
    }
}
