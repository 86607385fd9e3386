//! What a tape is, what it is to be a run of it, and what its report says: definitions, and laws about them.
#![tactic(auto)]

pub mod laws;
