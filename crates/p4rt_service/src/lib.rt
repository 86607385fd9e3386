//! P4Runtime over one HTTP/2 connection, the server's end: the calls that a client's bytes make of a desk, and the bytes
//! that are sent to it (P4Runtime 1.3.0, "P4Runtime Service").
#![tactic(auto)]

mod answering;
mod bytes;
mod desk;
mod events;
pub mod laws;
mod link;
mod service;
mod standing;

pub use desk::Desk;
pub use link::Link;
pub use mail_room::Next;
pub use service::Service;
pub use standing::Standing;
