//! Hollow tries: of each inner node of a trie of keys only how many leaves its left child has and how
//! many bits it skips, and the walk of a string by these numbers.
#![tactic(auto)]

mod cursors;
mod dist;
mod gap;
mod keeping;
mod lists;
mod top;
mod turning;
mod view;
mod walk;

pub use dist::HollowDistView;
pub use keeping::top_of;
pub use lists::{HollowLists, hollow_lists};
pub use view::HollowView;

#[cfg(test)]
mod dist_tests;
#[cfg(test)]
mod keeping_tests;
#[cfg(test)]
mod lists_tests;
#[cfg(test)]
mod view_tests;
