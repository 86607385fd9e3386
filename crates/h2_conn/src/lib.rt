//! The connection of an HTTP/2 server: frames from bytes however they are cut, events from frames, and
//! what is sent within the windows (RFC 9113, sections 3.4, 5, 6 and 8.1).
#![tactic(auto)]

mod acting;
mod breach;
mod bytes;
mod conn;
mod decoder;
mod event;
mod headers;
pub mod laws;
mod phase;
mod pieces;
mod placing;
mod receiver;
mod sending;
mod settings;
mod state;
mod unread;

pub use breach::Breach;
pub use conn::Conn;
pub use decoder::BlockDecoder;
pub use event::{Given, H2Event};
pub use phase::Phase;
pub use receiver::{PartialContinuation, Receiver};
pub use state::{HeaderBlock, Skipped, State};
pub use unread::Unread;
