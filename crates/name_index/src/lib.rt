//! Objects found by their names, without a walk over all of them.
#![tactic(auto)]

mod labels;
mod lookup;
mod names;

pub use labels::Labelled;
pub use lookup::{Index, put_first};
pub use names::Name;
