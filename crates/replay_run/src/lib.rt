//! A replay of a tape by the desk: each of its lanes on a thread of its own, and the report of lanes that are at their ends.
#![tactic(auto)]

mod counting;
mod ending;
pub mod laws;
mod opening;
mod order;
mod parts;
mod passes;
mod play;
mod reporting;
mod threads;

pub use play::{replay_free, replay_in_order};
pub use run_lanes::{Freely, Gate};
