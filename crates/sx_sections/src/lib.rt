//! The sections of a dump of any kind: which they are, what each has to be, and where they stand.
#![tactic(auto)]

pub mod check;
pub mod codes;
pub mod corrections;
pub mod counts;
pub mod fault;
pub mod header;
pub mod lines;
pub mod name;
pub mod number;
pub mod open;
pub mod place;
pub mod rule;
pub mod slots;
#[cfg(test)]
mod tests;
pub mod walk;
