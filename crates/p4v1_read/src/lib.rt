//! The messages of P4Runtime on the wire.
#![tactic(auto)]

mod calls;
mod entities;
pub mod laws;
mod p4infos;
mod reading;
mod requests;
mod role_configs;
mod stream;

pub use calls::read_call;
pub use p4infos::read_p4info;
pub use requests::read_config;
pub use role_configs::{arbitration_update, role_config_of};
