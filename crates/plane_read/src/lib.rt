//! What a Read of a plane selects, and how it is answered: table entries, members, groups, multicast groups, digest entries, and what counters have counted.
#![tactic(auto)]

mod cells;
mod counts;
mod defaults;
mod digests;
mod groups;
mod members;
mod messages;
mod multicast;
mod reading;
mod refusals;
mod selecting;

pub use counts::Counts;
pub use reading::read;
