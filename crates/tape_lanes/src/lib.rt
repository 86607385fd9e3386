//! What the records of a tape give each lane: a controller's calls, and a worker's packets and meets.
#![tactic(auto)]

mod dealing;
pub mod laws;

pub use dealing::{Dealt, deal};
