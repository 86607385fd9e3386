//! Lists of texts, which take little more memory than their bytes.
#![tactic(auto)]

mod left;
mod list;

pub use left::TextsLeft;
pub use list::TextList;
