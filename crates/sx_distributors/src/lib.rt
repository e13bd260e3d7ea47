//! Distributors of keys into blocks of one size, as they answer from a bank of words: a function gives
//! a key its offset in its block, and what looks among delimiters, a hollow trie or fat binary search,
//! gives it the block.
#![tactic(auto)]

mod hollow;
mod zfast;

pub use hollow::HollowDistributor;
pub use zfast::ZfastDistributor;
