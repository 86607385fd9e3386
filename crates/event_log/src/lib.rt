//! One list of events that only grows, shared by threads. The list itself exists in the proofs alone: threads share its length,
//! and a token says with which events it begins.
#![tactic(auto)]

mod events;
pub mod laws;
mod machine;
mod told;

pub use events::EventLog;
pub use machine::Machine;
pub use told::{Told, open};
