//! What the dumps of all kinds are put together from: the signatures and numbers of parts, their
//! functions, and sections that are laid out in words.
#![tactic(auto)]

ghost use Rattle.std.specs.Prelude.{◌≡◌, IfOk};
ghost use Rattle.sx_sections.specs.Headers.{header_as};
ghost use Rattle.sx_bits.specs.KeyLists.{IsKeyList};
ghost use Rattle.sx_parts.specs.Sectioning.{AreLaidOut, IsFinished, header_for};

pub mod layout;
pub mod numbers;
pub mod parts;
pub mod signatures;
pub mod signed;

use layout::{SectionBuf, dump_words};
use parts::Stop;
use std::alloc::{AllocError, Global};
use sx_bits::KeyList;
use sx_sections::header::Header;
use sx_sig::Plan;
pub use sx_static::Witness;

/// What keys and values come to.
#[derive(Drop)]
pub enum Assembled {
    /// The words of the dump, fewer than 2 to the power 27.
    Words(Vec<u64>),
    /// The seed doesn't work.
    SeedFailed(PartFault),
}

/// The first part for which a seed doesn't work, counted from 0, and why.
#[derive(Drop)]
pub struct PartFault {
    pub part: u32,
    pub cause: PartCause,
}

/// Why a part can't be built. Strings are named by their numbers in the part's list.
#[derive(Drop)]
pub enum PartCause {
    /// Two strings have one signature: `second` is the least number with an equal one before it,
    /// and `first` the least such.
    Twins { first: u32, second: u32 },
    /// The first chunk that no try works for, with a witness for each of its 64 tries.
    Stuck { chunk: u32, witnesses: Vec<Witness> },
}

/// The header of a dump of these keys.
pub fn header_of(keys: &KeyList, plan: &Plan, seed: u64) -> Header
    ensures header { header_as result ≡ header_for plan.now keys.now.lines seed }
    ensures keys { IsKeyList keys.now }
{
    Header {
        plan: *plan,
        keys: keys.len(),
        seed,
    }
}

/// The dump with this header and these sections, or why there are none.
///
/// # Errors
///
/// Want of memory.
pub fn finished(
    alloc: Global,
    header: &Header,
    sections: Result<Vec<SectionBuf>, Stop>,
) -> Result<Assembled, AllocError>
    requires { IfOk sections (λ s. AreLaidOut s.items) }
    ensures { IfOk result (IsFinished (header_as header.now) sections) }
{
    match sections {
        Ok(sections) => Ok(Assembled::Words(dump_words(alloc, header, &sections)?)),
        Err(Stop::Part(fault)) => Ok(Assembled::SeedFailed(fault)),
        Err(Stop::Memory) => Err(AllocError),
    }
}

#[cfg(test)]
mod tests;
