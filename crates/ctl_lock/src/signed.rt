//! Calls that were made.
use lane_table::OfLane;
use p4_types::journal::Entry;
use snap_worker::Loaded;
use switch_spec::calls::LaneCall;

/// A call that was made, what counters had counted where it asked, and its entry in the journal.
#[derive(Drop)]
pub struct Signed {
    pub call: LaneCall,
    pub figures: Loaded,
    pub entry: Entry,
}

impl OfLane for Signed {
    ghost lane = { λ signed. signed.entry.lane };
}
