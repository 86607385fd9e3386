//! Calls that were made, as the table of lanes has them.
use lane_table::OfLane;

/// A call that was made: by which lane, and how many steps it made. No list of them is kept: they stand in the views of the table
/// alone, which have no bytes.
#[derive(Clone, Copy)]
pub struct CallSteps {
    pub lane: u16,
    pub steps: u64,
}

impl OfLane for CallSteps {
    ghost lane = { λ made. made.lane };
}
