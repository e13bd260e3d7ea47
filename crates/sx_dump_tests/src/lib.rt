//! Tests of dumps that are opened, asked and shown, with numbers that were computed elsewhere.
#![tactic(auto)]

#[cfg(test)]
mod cut_tests;
#[cfg(test)]
mod hollow_dist_tests;
#[cfg(test)]
mod open_tests;
#[cfg(test)]
mod reads_tests;
#[cfg(test)]
mod show_tests;
#[cfg(test)]
mod signed_tests;
#[cfg(test)]
mod zfast_tests;
