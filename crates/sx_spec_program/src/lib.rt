//! What a program promises that offers a part of the whole.
#![tactic(auto)]

pub mod examples;
