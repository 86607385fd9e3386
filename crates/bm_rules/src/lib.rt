//! The rules of a program in BMv2's JSON form that ask for what its names stand for: L4 to L15.
#![tactic(auto)]

mod agreement;
mod edges;
pub mod fields;
mod graphs;
mod keys;
mod kinds;
pub mod names;
mod nexts;
mod nodes;
mod operations;
mod references;
mod rules;
mod scope;
mod twice;

pub use rules::flaw;
