//! The switch as a program: the words of its command line, and what it does with them.
#![tactic(auto)]

mod check;
pub mod laws;
mod load;
mod process;
mod program;
mod replay;
mod status;
mod tell;
mod words;

pub use process::exit_of;
pub use program::run;
