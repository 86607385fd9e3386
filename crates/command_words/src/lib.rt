//! The words of the command line: tested by their grammar, and taken by `clap`.
#![tactic(auto)]

mod taken;
pub mod words;

pub use taken::command_of;
