//! What waits for controllers: bounded lists of messages, first in first out, and the digest lists that become due (this project's profile).
#![tactic(auto)]

mod again;
mod mail;
mod mailbox;
mod next;
mod outbox;

pub use again::Again;
pub use mail::{LANE_LIMIT, Mail};
pub use mailbox::{Mailbox, Waiting};
pub use next::Next;
pub use outbox::{NOTICE_LIMIT, Outbox, PACKET_LIMIT};
