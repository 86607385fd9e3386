//! A reply in memory of its own: one copy is answered, the other stands in a journal.
#![tactic(auto)]

mod bytes;
mod entries;
mod notices;
mod reply;

pub use reply::copied_reply;
