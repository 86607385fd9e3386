//! What calls, packets and journals mean: the definitions that all crates above cite, and laws about them.
#![tactic(auto)]

pub mod calls;
pub mod cells;
pub mod laws;
pub mod refusals;
