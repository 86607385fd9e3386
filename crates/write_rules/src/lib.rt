//! The rules of an update that ask for the program alone, and what an update changes.
#![tactic(auto)]

mod actions;
mod digests;
mod groups;
mod matches;
mod members;
mod multicast;
mod numbers;
mod rules;
mod sets;
mod updates;

pub use numbers::number;
pub use rules::{is_canonical_match, is_malformed_match, is_too_wide};
pub use updates::{name_of, resolve};
