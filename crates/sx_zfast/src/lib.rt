//! The z-fast distributor: fat binary search among the prefixes of a string for the deepest node of a
//! trie of delimiters whose handle is one of them, where of each handle only some bits of its
//! signature are kept, and a code of each key tells the block from that node; and the corrections of
//! just those keys that a false answer misleads.
#![tactic(auto)]

mod corrected;
mod correcting;
mod memo;
mod probing;
mod reach;
mod signing;
mod view;

pub use corrected::Corrections;
pub use correcting::{Corrected, corrections};
pub use view::{ZfastView, largest_in};

#[cfg(test)]
mod view_tests;
