//! The work of one lane in a run: packets on snapshots of the control state, with the record of each and the counts of what
//! they hit; and what all lanes together have done.
#![tactic(auto)]

pub mod laws;
mod recording;
mod work;

pub use work::{Finished, LaneWork};
