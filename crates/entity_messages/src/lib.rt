//! What is written to a plane, as the messages that stand for it: table entries, default actions, members, groups and multicast groups.
#![tactic(auto)]

mod entries;
mod groups;
mod members;
mod multicast;
pub mod order;
mod weights;

pub use entries::{shown_default, shown_entry, shown_name};
pub use groups::shown_group;
pub use members::shown_member;
pub use multicast::shown_multicast;
