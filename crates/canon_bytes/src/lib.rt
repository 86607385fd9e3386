//! Byte strings that are numbers (P4Runtime 1.3.0, "Bytestrings").
#![tactic(auto)]

pub mod laws;
mod reading;
mod writing;

pub use reading::{ByteFault, read};
pub use writing::write;
