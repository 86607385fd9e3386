//! One connection of a controller, served to its end.
#![tactic(auto)]

mod ends;
mod giving;
mod list_desk;
mod pulling;
mod room;
mod sending;
mod serving;
mod watch;

pub use ends::LinkEnd;
pub use list_desk::{ListDesk, ListPass};
pub use room::{EnoughRoom, Room};
pub use serving::serve_link;

/// How many answers of `next` that are no packet a link takes before it pulls again.
pub const MOST_MESSAGES: u16 = 256;

/// How many bytes a link pulls at most at once.
pub const PULL_BYTES: usize = 16384;

/// How long a link waits for the client's preface and SETTINGS, in nanoseconds: 10 seconds.
pub const OPENING_WAIT: u64 = 10_000_000_000;

/// How long a link is quiet before it may be asked to make room, in nanoseconds: 10 seconds.
pub const QUIET_WAIT: u64 = 10_000_000_000;
