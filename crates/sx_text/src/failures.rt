//! What is told of seeds that don't work.
ghost use Rattle.std.specs.Prelude.{◌≡◌, ◌++◌, [], OnOk, unwrap_or, slice_get};
ghost use Rattle.sx_spec.specs.Messages.{failure_text, spaced, witness_word};
ghost use Rattle.sx_spec.specs.Kinds.{part_names};
ghost use Rattle.sx_static.specs.Answer.{witness_numbers};
ghost use Rattle.sx_parts.specs.Assembling.{failure_of};
ghost use Rattle.sx_text.specs.FailureTexts.{front_text, pair_text, try_text, tries_text, twins_text, witness_text};

use crate::messages::push_number;
use std::alloc::AllocError;
use sx_parts::{PartCause, PartFault, Witness};
use sx_spec::{Kind, Method, Plan};

/// The name of a kind's part.
fn part_name(kind: Kind, part: u32) -> &'static str
    ensures { result.now ≡ unwrap_or (slice_get (part_names kind) part) [] }
{
    match (kind, part) {
        (Kind::Func, 0) => "values",
        (Kind::Lcp, 0) => "lengths",
        (Kind::Lcp, 1) | (Kind::Lcp2, 3) => "prefixes",
        (Kind::Lcp2 | Kind::HollowDist | Kind::Zfast, 0) => "offsets",
        (Kind::Lcp2, 1) | (Kind::Zfast, 2) => "codes",
        (Kind::Lcp2, 2) => "escaped",
        (Kind::HollowDist, 1) => "turns",
        (Kind::Zfast, 1) => "handles",
        _ => "",
    }
}

/// The word for what shows that a try doesn't work.
fn witness_word(method: Method) -> &'static str
    ensures { result.now ≡ witness_word method }
{
    match method {
        Method::Mwhc => "core",
        Method::Gov3 => "sum",
    }
}

/// The numbers of pairs that a witness names.
fn numbers_of(witness: &Witness) -> &[u32]
    ensures { result.now ≡ witness_numbers witness.now }
{
    match witness {
        Witness::Core(numbers) | Witness::Sum(numbers) => numbers,
    }
}

/// Puts the beginning of a line on a part at the end.
fn push_front(text: &mut Vec<u8>, seed: u64, part: &str) -> Result<(), AllocError>
    ensures { OnOk result (text.new.items ≡ text.old.items ++ front_text seed part.now) }
{
    text.extend_from_slice(b"sux: seed ")?;
    push_number(text, seed)?;
    text.extend_from_slice(b": part ")?;
    text.extend_from_slice(part.as_bytes())?;
    text.extend_from_slice(b": ")
}

/// Puts what is told of two strings at the end.
fn push_pair(text: &mut Vec<u8>, first: u32, second: u32) -> Result<(), AllocError>
    ensures { OnOk result (text.new.items ≡ text.old.items ++ pair_text first second) }
{
    text.extend_from_slice(b"strings ")?;
    push_number(text, u64::from(first))?;
    text.extend_from_slice(b" and ")?;
    push_number(text, u64::from(second))?;
    text.extend_from_slice(b" have one signature\n")
}

/// Puts the line on two strings with one signature at the end.
fn push_twins(
    text: &mut Vec<u8>,
    seed: u64,
    part: &str,
    first: u32,
    second: u32,
) -> Result<(), AllocError>
    ensures { OnOk result
        (text.new.items ≡ text.old.items ++ twins_text seed part.now first second) }
{
    push_front(text, seed, part)?;
    push_pair(text, first, second)
}

/// Puts the numbers at the end, a space before each.
fn push_numbers(text: &mut Vec<u8>, numbers: &[u32]) -> Result<(), AllocError>
    ensures { OnOk result (text.new.items ≡ text.old.items ++ spaced numbers.now) }
{
    for number in numbers {
        text.extend_from_slice(b" ")?;
        push_number(text, u64::from(*number))?;
    }
    Ok(())
}

/// Puts what stands before the numbers of a try's witness at the end.
fn push_try(text: &mut Vec<u8>, chunk: u32, attempt: u64, word: &str) -> Result<(), AllocError>
    ensures { OnOk result (text.new.items ≡ text.old.items ++ try_text chunk attempt word.now) }
{
    text.extend_from_slice(b"chunk ")?;
    push_number(text, u64::from(chunk))?;
    text.extend_from_slice(b": try ")?;
    push_number(text, attempt)?;
    text.extend_from_slice(b": ")?;
    text.extend_from_slice(word.as_bytes())
}

/// Puts the line on a try's witness at the end.
fn push_witness(
    text: &mut Vec<u8>,
    chunk: u32,
    attempt: u64,
    word: &str,
    witness: &Witness,
) -> Result<(), AllocError>
    ensures { OnOk result
        (text.new.items ≡ text.old.items ++ witness_text chunk word.now attempt witness.now) }
{
    push_try(text, chunk, attempt, word)?;
    push_numbers(text, numbers_of(witness))?;
    text.extend_from_slice(b"\n")
}

/// Puts a line for each try of a chunk at the end.
fn push_stuck(
    text: &mut Vec<u8>,
    seed: u64,
    part: &str,
    chunk: u32,
    word: &str,
    witnesses: &[Witness],
) -> Result<(), AllocError>
    ensures { OnOk result
        (text.new.items ≡ text.old.items ++ tries_text seed part.now chunk word.now 0 witnesses.now) }
{
    'tries: for attempt in 0..witnesses.len() {
        push_front(text, seed, part)?;
        push_witness(text, chunk, attempt as u64, word, &witnesses[attempt])?;
    }
    Ok(())
}

/// Puts the lines on a seed that doesn't work at the end.
pub fn push_failure(
    text: &mut Vec<u8>,
    plan: &Plan,
    seed: u64,
    fault: &PartFault,
) -> Result<(), AllocError>
    ensures { OnOk result
        (text.new.items ≡ text.old.items ++ failure_text plan.now seed (failure_of fault.now)) }
{
    let part = part_name(plan.kind, fault.part);
    match &fault.cause {
        PartCause::Twins { first, second } => push_twins(text, seed, part, *first, *second),
        PartCause::Stuck { chunk, witnesses } => {
            push_stuck(
                text,
                seed,
                part,
                *chunk,
                witness_word(plan.method),
                witnesses,
            )
        }
    }
}
