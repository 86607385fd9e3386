//! What the objects, entries and planes of the switch mean, and which events may follow one another: the definitions
//! that the stores and the control state are proved against.
#![tactic(auto)]

pub mod laws;
