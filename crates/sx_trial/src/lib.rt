//! What keys come to by the seeds of a list, and trials: dumps of made keys that are built and
//! asked in memory.
#![tactic(auto)]

mod made;
mod seeds;
mod trial;

pub use seeds::{Tried, try_seeds};
pub use trial::{Trial, try_kind};

#[cfg(test)]
mod tests;
