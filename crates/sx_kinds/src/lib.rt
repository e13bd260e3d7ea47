//! Kinds, methods and options: their words, what a kind uses, and which of them the program offers.
#![tactic(auto)]

pub mod kinds;
pub mod offer;
pub mod options;
#[cfg(test)]
mod tests;
