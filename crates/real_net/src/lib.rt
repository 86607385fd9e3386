//! Links, ports and nets over the system's TCP and UDP on 127.0.0.1, and what a loop asks whether it is to end.
#![tactic(auto)]

mod attempts;
mod count;
mod datagrams;
mod flags;
mod laws;
mod link;
mod loopback;
mod net;
mod polled;
mod ports;
mod stops;
mod system;

pub use flags::StopFlag;
pub use laws::datagrams_have_one_reading;
pub use link::RealLink;
pub use loopback::Loopback;
pub use net::RealNet;
pub use ports::RealPorts;
pub use stops::{FlagStop, ListStop};
