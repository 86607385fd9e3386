//! Who has made which call: a table whose tokens tie the entries that each lane has made to one journal.
#![tactic(auto)]

mod entry;
pub mod laws;
mod opening;
mod roles;
mod seats;
mod table;

pub use entry::OfLane;
pub use opening::open_lanes;
pub use seats::{JournalSeat, LaneSeat, Note};
pub use table::LaneTable;
