//! Messages by the numbers of their fields: one place for each rule of reading.
#![tactic(auto)]

mod errors;
pub mod laws;
mod message;
mod messages;
mod steps;
mod values;
mod walk;
pub mod write;

pub use errors::Unreadable;
pub use message::Message;
pub use messages::Messages;
