//! A pipeline in BMv2's JSON form with each name resolved to the place of what it names, and what makes it valid.
#![tactic(auto)]

pub mod actions;
pub mod checksums;
pub mod headers;
pub mod parser;
pub mod pipeline;
pub mod program;
pub mod tables;

pub use pipeline::Pipeline;
