//! The walk of a packet through the tables and conditionals of a plane.
#![tactic(auto)]

mod choosing;
mod entries;
mod hashing;
mod key;
mod walking;
mod weights;

pub use walking::{Turn, run_node};
