//! A worker runs packets on snapshots of the control state, and counts what they hit.
#![tactic(auto)]

mod counting;
pub mod laws;
mod loading;
mod place;
mod stay;
mod watch;
mod worker;

pub use loading::Loaded;
pub use worker::{NoEntry, Worker};
