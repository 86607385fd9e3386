//! The configuration of the built-in Ethernet bridge: its P4Info, and what becomes of a frame that misses.
#![tactic(auto)]

mod configuration;
pub mod laws;
mod objects;
mod pipeline;

pub use configuration::config;
