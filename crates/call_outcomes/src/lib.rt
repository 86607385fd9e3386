//! What calls come to, before their events are handed on: a code, messages, notices and events, made of what the control state says of
//! them.
#![tactic(auto)]

mod leading;
mod lists;
mod messages;
mod notices;
mod packets;
mod prepared;
mod replies;
mod writes;

pub use leading::{is_of_primary, may_set};
pub use lists::{copied, only};
pub use notices::{standing_notices, unserved_answer};
pub use packets::packet_reply;
pub use prepared::Prepared;
pub use replies::{bare, capabilities, failure, get_reply, read_reply, set_reply, unreadable};
pub use writes::{atomicity_of, is_atomic, written};
