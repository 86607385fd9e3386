//! An index of rows that stand elsewhere, each at a place: it leads from a key, and from a name, to the place of a row.
#![tactic(auto)]

mod asks;
mod chains;
mod cuts;
mod found;
mod index;
pub mod laws;
mod matching;
mod naming;
mod placed;
mod rows;
mod search;
mod shapes;

pub use index::RowIndex;
pub use rows::Rows;
