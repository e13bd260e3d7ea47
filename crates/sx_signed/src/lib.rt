//! Signed maps: at each place some bits of the key's signature are kept, by which most strangers are told.
#![tactic(auto)]

mod keeping;
mod view;

pub use keeping::keep;
pub use view::{SignedView, agrees, where_kept};

#[cfg(test)]
mod tests;
