//! What a program does with one packet by itself, without what controllers wrote: parser, actions, checksums, deparser.
#![tactic(auto)]

pub mod laws;
