//! Lanes of a tape that bring the bytes of a gRPC client: what they come to in a run, what they are sent, and laws about them.
#![tactic(auto)]

mod lane;
pub mod laws;

pub use lane::ByteLane;
