//! Packets that controllers send: their metadata become the header that stands before the payload.
#![tactic(auto)]

mod header;
mod metadata;
mod packet;
mod rule;

pub use packet::entering;
pub use rule::PacketRule;
