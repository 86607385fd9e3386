//! Actions of a program, run over a packet's store.
#![tactic(auto)]

mod marks;
mod primitives;
mod running;

pub use marks::{Count, Marks};
pub use running::run_action;
