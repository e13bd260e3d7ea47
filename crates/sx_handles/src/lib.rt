//! The handles of the trie of delimiters that fat binary search is built on, and the codes of keys:
//! the ways to the delimiters beside a key, which tell the prefixes of the key that are handles; and
//! the block that a node and a code name.
#![tactic(auto)]

mod blocks;
mod parts;
mod ways;

pub use blocks::block_from;
pub use parts::{ZfastParts, zfast_parts};
pub use ways::{Way, WayNode, Ways};

#[cfg(test)]
mod tests;
