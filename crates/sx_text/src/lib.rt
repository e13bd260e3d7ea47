//! Text that the program writes: its messages, and a buffer in which text is gathered before it is written.
#![tactic(auto)]

pub mod buffer;
pub mod failures;
pub mod messages;
#[cfg(test)]
mod tests;
