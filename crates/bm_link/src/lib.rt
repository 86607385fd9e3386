//! Links a program in BMv2's JSON form: each name resolved to the place of what it stands for.
#![tactic(auto)]

mod expressions;
mod fault;
mod fields;
mod headers;
mod nodes;
mod objects;
mod pipelines;
mod programs;
mod scope;
mod sides;
mod tables;

pub use fault::LinkFault;
pub use pipelines::link;
