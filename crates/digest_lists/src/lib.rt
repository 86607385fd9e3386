//! Which samples of a digest are sent to a controller, and in which lists (P4Runtime 1.3.0, "DigestEntry" and "DigestList").
#![tactic(auto)]

mod digest;
pub mod laws;
mod lists;
mod samples;

pub use lists::Lists;
