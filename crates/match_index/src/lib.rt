//! An entry of a table found by its name, and by a packet's key, without a walk over all entries.
#![tactic(auto)]

mod bins;
mod cuts;
mod index;
pub mod matching;
mod scan;
mod seqs;
mod shapes;

pub use index::{MatchIndex, Row};
