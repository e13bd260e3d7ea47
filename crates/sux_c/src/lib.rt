//! Dumps for programs in C and what calls C: built from keys in memory, opened where their words lie,
//! and asked. Nothing is kept between calls: the words of a dump, its handle and the lines are the
//! caller's. Only a build takes memory, and it gives all of it back.
#![tactic(auto)]

mod answer;
mod asking;
mod building;
mod found;
mod handle;
mod header;
mod keys;
mod opening;
mod place;
mod plan;
mod rooms;
mod status;
#[cfg(test)]
mod tests;
mod told;
mod tries;
