//! The press of a run: the events that it was given, in their order, and the steps that they are.
#![tactic(auto)]

mod published;
mod ruling;
mod steps;

pub use published::Published;
pub use steps::{kinds_of, steps_in};
