//! P4Runtime's messages: those that a client sends are read, those that a server sends are written.
#![tactic(auto)]

mod entities;
mod infos;
pub mod laws;
mod responses;
mod status;
mod stream;
mod writing;

pub use p4v1_read::{read_call, read_config, read_p4info};
pub use writing::{Writable, write_message};
