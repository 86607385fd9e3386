//! A plane: a program with what controllers have written to it, whose changes can be undone until they are kept.
#![tactic(auto)]

mod causes;
mod changing;
mod config;
mod defaults;
mod digests;
mod entries;
mod groups;
mod members;
mod multicast;
mod parts;
mod plane;

pub use config::Config;
pub use parts::Drawn;
pub use plane::Plane;
