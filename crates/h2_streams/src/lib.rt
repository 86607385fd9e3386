//! The streams of an HTTP/2 connection: their windows, and what waits to be sent (RFC 9113, sections
//! 5.1, 5.2 and 6.9).
#![tactic(auto)]

mod draining;
mod outgoing;
mod stream;
mod table;

pub use outgoing::Outgoing;
pub use stream::{Message, Queue, Stream, Waiting};
pub use table::Streams;
