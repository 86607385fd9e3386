//! The outside as traits: what is read, sent and timed, with each fault, pause and end counted.
#![tactic(auto)]

mod answers;
mod attempts;
mod count;
mod course;
mod held;
mod lists;
mod memory_link;
mod memory_net;
mod memory_ports;
mod memory_streams;
mod net;
mod packets;
mod real;
mod streams;
mod system;
mod timing;
mod waker;

pub use answers::{Accepted, Got, Opened, Pulled, Sent, Taken};
pub use lists::{ListClock, OpenGate};
pub use memory_link::MemoryLink;
pub use memory_net::MemoryNet;
pub use memory_ports::MemoryPorts;
pub use memory_streams::{MemorySink, MemorySource};
pub use net::{Link, Net, Ports};
pub use p4_types::tape::Who;
pub use packets::{Arrival, Departure};
pub use real::{RealClock, RealSink, RealSource};
pub use streams::{Sink, Source};
pub use timing::{Clock, Gate, Stop};
pub use waker::LinkWaker;

/// The bytes of the longest packet that enters the switch.
pub const MAX_PACKET: usize = 9216;

/// The bytes of the longest packet that leaves the switch.
pub const MAX_OUTPUT: usize = 10240;

/// The last port of the switch; the first is 0.
pub const MAX_PORT: u16 = 510;
