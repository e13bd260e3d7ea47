//! Objects in memory that stand for the outside, and fail at the calls that they are told.
#![tactic(auto)]

pub mod calls;
pub mod calm;
mod copies;
mod entries;
mod entry;
mod in_use;
pub mod shelf;
pub mod sink;
pub mod source;
#[cfg(test)]
mod tests;
