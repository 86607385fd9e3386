//! What is read of JSON values: readers of shapes, which tell a value of another shape from want of memory.
#![tactic(auto)]

pub mod arrays;
mod errors;
pub mod shapes;

pub use errors::OtherShape;
pub use name_index::Name;
