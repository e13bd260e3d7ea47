//! The lengths and prefixes of blocks of keys.

ghost use Rattle.std.specs.Prelude.{◌≡◌, ◌<◌, ◌≤◌, IfOk, length};
ghost use Rattle.sx_bits.specs.KeyLists.{IsKeyList};
ghost use Rattle.sx_spec_kinds.specs.Blocks.{block_size};
ghost use Rattle.sx_lcp.specs.Parts.{AreParts, IsPrefixOf};

use std::alloc::{AllocError, Global};
use sx_bits::{KeyList, Piece};

/// What a distributor by longest common prefixes is built from.
#[derive(Drop)]
pub struct LcpParts {
    /// For each key how many bits the longest common prefix of its block has.
    pub lengths: Vec<u32>,
    /// That prefix for each block, as a piece of the list of keys.
    pub prefixes: Vec<Piece>,
}

/// How many keys a full block has.
fn full_size(log_bucket: u32) -> u32
    requires { log_bucket ≤ 12 }
    ensures value { result ≡ block_size log_bucket }
    ensures some { 0 < result }
    ensures bound { result ≤ 4096 }
{
    1 << log_bucket
}

/// The longest common prefix of the keys `first` up to before `after`. The keys are in order, so
/// what the first and the last of them share is in all of them.
fn prefix_of(keys: &KeyList, first: u32, after: u32) -> Piece
    requires keys { IsKeyList keys.now }
    requires some { first < after }
    requires within { after ≤ length keys.now.lines }
    ensures { IsPrefixOf keys.now.lines first after result }
{
    let last = keys.view(after - 1);
    Piece {
        tag: None,
        key: first,
        from: 0,
        to: keys.view(first).lcp(&last),
    }
}

/// The lengths and the prefixes of blocks of 2 to the power `log_bucket` keys, which is at most 12;
/// the last block may be shorter. The prefixes differ.
///
/// # Errors
///
/// Want of memory.
pub fn lcp_parts(alloc: Global, keys: &KeyList, log_bucket: u32) -> Result<LcpParts, AllocError>
    requires bucket { log_bucket ≤ 12 }
    ensures { IfOk result (AreParts (block_size log_bucket) keys.now.lines) }
{
    let count = keys.len();
    let size = full_size(log_bucket);
    let blocks = count.div_ceil(size);
    let mut lengths = Vec::with_capacity(alloc, count as usize)?;
    let mut prefixes = Vec::with_capacity(alloc, blocks as usize)?;
    for block in 0..blocks {
        let first = block * size;
        let after = (first + size).min(count);
        let prefix = prefix_of(keys, first, after);
        lengths.resize(after as usize, prefix.to)?;
        prefixes.push(prefix)?;
    }
    Ok(LcpParts { lengths, prefixes })
}
