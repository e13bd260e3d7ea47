//! The program's commands, over files, input, out and err that are given.
#![tactic(auto)]

mod build;
mod dump;
mod dump_file;
mod file_words;
mod keys;
mod open;
mod query;
pub mod run;
mod serve;
mod show;
pub mod telling;
mod trial;
mod values;

pub use sx_spec::Status;
