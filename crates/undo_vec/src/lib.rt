//! A vector whose edits can be undone.
#![tactic(auto)]

mod edit;
mod vector;

pub use vector::UndoVec;
