//! Tests of dumps that are put together, with numbers that were computed elsewhere.
#![tactic(auto)]

#[cfg(test)]
mod correction_tests;
#[cfg(test)]
mod ranked_tests;
#[cfg(test)]
mod tests;
#[cfg(test)]
mod zfast_tests;
