//! Static functions: a value for each signature of a list, read as the xor of three cells.
#![tactic(auto)]

ghost use Rattle.std.specs.Prelude.{◌≡◌, ◌<◌, ◌≤◌, ◌^◌, All, IfOk, length};
ghost use Rattle.sx_static.specs.Answer.{IsAnswer, entries_of};

mod both;
mod cells;
mod chunk;
mod edges;
mod section;
mod table;
mod tries;
mod twins;
mod view;

pub use both::{Both, build_both};
pub use section::{TABLE_CHECK, function_check, start_of, try_of};
use std::alloc::{AllocError, Global};
use sx_fields::packed_buf::PackedBuf;
use sx_sig::{chunk_bits, chunks_of};
pub use sx_spec::{Method, Signature};
use table::build_chunks;
use twins::{early_twins, twins_told};
pub use view::FuncView;

/// A function as it is built.
#[derive(Drop)]
pub struct FuncBuf {
    /// How many bits a value has, at most 64.
    pub width: u32,
    /// How many signatures it was built from.
    pub pairs: u32,
    /// The chunk table: the first cell of each chunk, with its try from bit 58 on, and the number of all cells.
    pub table: Vec<u64>,
    /// The cells of all chunks in a row, each of as many bits as a value.
    pub cells: PackedBuf,
}

/// Why a try doesn't work for a chunk, by the numbers of pairs, which rise.
#[derive(Debug, Drop)]
pub enum Witness {
    /// The edges of these pairs are a core.
    Core(Vec<u32>),
    /// The equations of these pairs have a sum that no cells meet.
    Sum(Vec<u32>),
}

/// What a build comes to.
#[derive(Drop)]
pub enum Built {
    /// The function.
    Done(FuncBuf),
    /// Two signatures are equal: `second` is the least number that has an equal one before it, and `first` the least such.
    Twins { first: u32, second: u32 },
    /// The first chunk that no try works for, with a witness for each of its 64 tries.
    Stuck { chunk: u32, witnesses: Vec<Witness> },
}

/// Builds the function that answers each signature with its value, a number of `width` bits, at most 64. There are at most
/// 134,217,728 signatures. Each chunk gets the least try that works for it.
///
/// # Errors
///
/// Want of memory.
pub fn build(
    alloc: Global,
    sigs: &[Signature],
    values: &[u64],
    width: u32,
    method: Method,
) -> Result<Built, AllocError>
    requires values { length values.now ≡ length sigs.now }
    requires few { length sigs.now ≤ 2 ^ 27 }
    requires fit { All (λ v. v < 2 ^ width) values.now }
    requires width { width ≤ 64 }
    ensures { IfOk result (λ b. IsAnswer method 64 width (entries_of sigs.now values.now) b) }
{
    let chunks = chunks_of(alloc, sigs, chunk_bits(sigs.len() as u32))?;
    match early_twins(alloc, sigs, &chunks, method)? {
        Some(twins) => Ok(twins_told(twins)),
        None => build_chunks(alloc, sigs, values, width, method, &chunks),
    }
}

#[cfg(test)]
mod reading_tests;
#[cfg(test)]
mod tests;
