//! The bits of a byte string, most significant first, at any offset and any width up to 128.
#![tactic(auto)]

mod chunk;
mod fields;

pub use fields::{put, take};
