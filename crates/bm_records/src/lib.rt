//! The records of a program in BMv2's JSON form, each read of the JSON value that it stands in.
#![tactic(auto)]

mod labels;
mod objects;
mod operations;
mod parsers;
mod pipelines;
mod primitives;
pub mod raw;
