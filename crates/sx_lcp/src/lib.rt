//! Distributors by longest common prefixes: what they are built from, and what they reply.
#![tactic(auto)]

mod codes;
#[cfg(test)]
mod codes_tests;
mod lcp;
mod lcp2;
mod parts;
mod reply;

pub use codes::{TwoStep, two_step};
pub use lcp::LcpView;
pub use lcp2::Lcp2View;
pub use parts::{LcpParts, lcp_parts};
pub use reply::place_in;

#[cfg(test)]
mod parts_tests;
#[cfg(test)]
mod views_tests;
