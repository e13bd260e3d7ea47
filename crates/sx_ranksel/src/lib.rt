//! Rank and select over the bits of a bank of words.
#![tactic(auto)]

mod counts;
pub mod directories;
mod groups;
pub mod ranksel;
mod search;
#[cfg(test)]
mod tests;
