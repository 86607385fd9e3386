//! The rules of a P4Info, judged in its bytes: no object is kept, so what that takes does not grow with what objects are kept as.
#![tactic(auto)]

mod asking;
mod flaw;
mod gathering;
mod kinds;
pub mod numbers;
mod opened;
mod pairs;
mod parts;
mod readable;
mod references;
mod repeats;
mod rules;

pub use flaw::info_flaw;
