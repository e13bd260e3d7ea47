//! Elias-Fano lists: nondecreasing numbers in about two bits more than their low bits each.
#![tactic(auto)]

pub mod check;
pub mod cursor;
pub mod encode;
pub mod section;
#[cfg(test)]
mod tests;
pub mod view;
