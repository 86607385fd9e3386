//! What becomes of a packet in a plane.
#![tactic(auto)]

mod copies;
mod ending;
mod lists;
mod metadata;
mod running;
mod single;
mod verdict;
mod walk;

pub use running::{Scratch, run};
pub use verdict::Verdict;
