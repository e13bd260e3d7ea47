//! The outside as traits: sources, sinks and a shelf of files, each with a count of its faults;
//! the lines of a source and of a file.
#![tactic(auto)]

pub mod line;
pub mod shelf;
pub mod sink;
pub mod source;
#[cfg(test)]
mod tests;
pub mod words;
