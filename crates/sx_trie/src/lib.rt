//! The compacted trie of delimiters, and where strings leave it.
#![tactic(auto)]

mod building;
mod exits;
mod handles;
mod nodes;
mod tries;

pub use exits::{Exit, Place};
pub use handles::fattest;
pub use nodes::Node;
pub use tries::Trie;

#[cfg(test)]
mod tests;
