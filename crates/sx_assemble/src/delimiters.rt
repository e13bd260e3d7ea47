//! The delimiters between blocks of keys.

ghost use Rattle.std.specs.Prelude.{◌≡◌, ◌<◌, ◌≤◌, IfOk, length, map};
ghost use Rattle.sx_spec_strings.specs.Bits.{key_bits};
ghost use Rattle.sx_spec_kinds.specs.Blocks.{block_size, delimiters_of};
ghost use Rattle.sx_bits.specs.KeyLists.{IsKeyList};
ghost use Rattle.sx_trie.specs.Tries.{AreRising, delimiter_bits};

use std::alloc::{AllocError, Global};
use sx_bits::KeyList;

/// How many keys a full block has.
fn full_size(log_bucket: u32) -> u32
    requires { log_bucket ≤ 12 }
    ensures value { result ≡ block_size log_bucket }
    ensures some { 0 < result }
{
    1 << log_bucket
}

/// The numbers of the delimiters, which rise: those of the last keys of all blocks but the last.
pub(crate) fn delimiter_numbers(
    alloc: Global,
    keys: &KeyList,
    log_bucket: u32,
) -> Result<Vec<u32>, AllocError>
    requires { log_bucket ≤ 12 }
    ensures rising { IfOk result (λ numbers. AreRising keys.now.lines numbers.items) }
    ensures bits { IfOk result (λ numbers. delimiter_bits keys.now.lines numbers.items
        ≡ delimiters_of (block_size log_bucket) (map key_bits keys.now.lines)) }
    ensures keys { IsKeyList keys.now }
{
    let count = keys.len();
    let size = full_size(log_bucket);
    let full = count.div_ceil(size).saturating_sub(1);
    let mut numbers = Vec::with_capacity(alloc, full as usize)?;
    for block in 0..full {
        numbers.push(block * size + (size - 1))?;
    }
    Ok(numbers)
}
