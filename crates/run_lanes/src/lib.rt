//! The lanes of a run: controllers' lanes make their calls and workers' lanes run their packets, each to its end, on threads.
#![tactic(auto)]

mod asking;
mod ending;
mod gate;
pub mod laws;
mod opening;
mod packets;

pub use asking::ask_all;
pub use ending::{end_caller, end_worker};
pub use gate::{Freely, Gate};
pub use opening::{open_caller, open_worker};
pub use packets::{PacketPass, take_all, take_next};
