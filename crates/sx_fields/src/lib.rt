//! Numbers of a fixed width in lists of 64-bit words.
#![tactic(auto)]

pub mod bank;
pub mod digits;
pub mod fields;
pub mod packed;
pub mod packed_buf;
mod place;
pub mod section;
#[cfg(test)]
mod tests;
