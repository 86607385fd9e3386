//! The entries of a program's tables: which one a key takes, and what changes them.
#![tactic(auto)]

mod causes;
mod changes;
mod groups;
pub mod laws;
mod rows;
mod store;

pub use causes::{entry_rows, slots_drawn};
pub use store::{TableStore, Tables};
