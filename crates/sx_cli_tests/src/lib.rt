//! Whole runs of the commands over files and streams in memory: what they write, what each message is,
//! and what they leave where a call fails.
#![tactic(auto)]

#[cfg(test)]
mod failing_tests;
#[cfg(test)]
mod faults;
#[cfg(test)]
mod ranks_tests;
#[cfg(test)]
mod tests;
#[cfg(test)]
mod trial_tests;
#[cfg(test)]
mod waiting_tests;
#[cfg(test)]
mod watched;
#[cfg(test)]
mod zfast_tests;
