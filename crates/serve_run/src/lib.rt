//! A switch that serves: controllers over links and packets over ports, each on a thread of its own.
#![tactic(auto)]

mod accepting;
mod callers;
mod clock;
mod ending;
mod hall;
pub mod laws;
mod link_pass;
mod live;
mod opening;
mod ports;
mod ports_end;
mod rooms;
mod served;
mod shared_desk;
mod sharing;
mod threads;
mod waiting;

pub use ending::ServeEnd;
pub use link_pass::{LinkPass, with_verdicts};
pub use opening::{MOST_WORKERS, Serving, serve};
pub use ports::serve_ports;
pub use ports_end::PortsEnd;
pub use served::ServedDesk;
