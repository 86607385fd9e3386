//! A JSON text as a flat list of small nodes, which take at most 4 bytes for each byte of the text, and 4 more. Its strings and
//! the digits of its numbers stand beside them.
#![tactic(auto)]

mod element;
pub mod node;
mod number;
mod packed;
mod reading;
mod tree;

pub use element::{Element, Items};
pub use reading::NotJson;
pub use tree::Tree;
