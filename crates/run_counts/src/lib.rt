//! The counters of a run are exact: how long the packets of a run are and how many, and what words of 64 bits have counted at
//! its end: laws about the definitions.
#![tactic(auto)]

pub mod laws;
