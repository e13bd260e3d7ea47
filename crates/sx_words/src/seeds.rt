//! The seeds of a build.

ghost use Rattle.std.specs.Prelude.{◌≡◌, ◌≤◌, IfOk, length, is_some, map, unwrap_or};
ghost use Rattle.std.specs.List.{list_all};
ghost use Rattle.sx_spec.specs.Command.{seeds_in, seed_texts, default_seeds};
ghost use Rattle.sx_spec.specs.Values.{value_on};

use std::alloc::{AllocError, Global};
use std::marker::Model;
use sx_numbers::number_of;

/// How many seeds there are at most.
const MOST: usize = 16;

/// 1 to 16 seeds in the order in which they are tried.
#[derive(Debug, Drop)]
pub struct Seeds {
    numbers: Vec<u64>,
}

impl Model for Seeds {
    ghost use Rattle.std.specs.Prelude.{◌≤◌, List, ℕ, length};

    ghost Value = { List ℕ };

    ghost view = { λ a. a.numbers.items };

    ghost invariant = { λ a. (1 ≤ length a.numbers.items) × (length a.numbers.items ≤ 16) };
}

impl Seeds {
    /// The seeds 0 to 3.
    pub fn standard(alloc: Global) -> Result<Seeds, AllocError>
        ensures { IfOk result (λ seeds. seeds ≡ default_seeds) }
    {
        Ok(Seeds {
            numbers: Vec::from_slice(alloc, &[0, 1, 2, 3])?,
        })
    }

    /// The seeds.
    pub fn as_slice(&self) -> &[u64]
        ensures value { result.now ≡ self.now }
        ensures some { 1 ≤ length result.now }
        ensures few { length result.now ≤ 16 }
    {
        self.numbers.as_slice()
    }
}

/// How many texts stand between the commas.
fn count_texts(text: &str) -> usize
    ensures { result ≡ length (seed_texts text.now) }
{
    text.split(',').count()
}

/// Whether all of them are numbers of 64 bits.
fn are_numbers(text: &str) -> bool
    ensures { result ≡ list_all (λ t. is_some (value_on t)) (seed_texts text.now) }
{
    text.split(',')
        .all(|piece| number_of(piece.as_bytes()).is_some())
}

/// Their numbers, 0 where there is none.
fn numbers_in(alloc: Global, text: &str) -> Result<Vec<u64>, AllocError>
    ensures { IfOk result
        (λ numbers. numbers.items ≡ map (λ t. unwrap_or (value_on t) 0) (seed_texts text.now)) }
{
    text.split(',')
        .map(|piece| number_of(piece.as_bytes()).unwrap_or(0))
        .collect(alloc)
}

/// Whether the text lists 1 to 16 numbers of 64 bits between commas.
pub fn lists_seeds(text: &str) -> bool
    ensures { result ≡ is_some (seeds_in text.now) }
{
    count_texts(text) <= MOST && are_numbers(text)
}

/// The seeds that the text lists, or the standard ones if it lists none.
pub fn seeds_listed(alloc: Global, text: &str) -> Result<Seeds, AllocError>
    ensures { IfOk result (λ seeds. seeds ≡ unwrap_or (seeds_in text.now) default_seeds) }
{
    if count_texts(text) <= MOST && are_numbers(text) {
        let numbers = numbers_in(alloc, text)?;
        Ok(Seeds { numbers })
    } else {
        Seeds::standard(alloc)
    }
}
