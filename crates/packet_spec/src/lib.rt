//! What becomes of one packet in a plane: the walk through tables and conditionals, and the steps around it.
#![tactic(auto)]

pub mod laws;
