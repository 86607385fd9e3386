//! What every other crate stands on: lists, texts, and want of memory.
#![tactic(auto)]

mod lists;
mod memory;

pub use lists::{ByteList, List, Text};
pub use memory::{NoMemory, Refusal};
