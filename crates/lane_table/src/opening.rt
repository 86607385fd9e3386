//! A table whose lanes are all claimed.
ghost use Rattle.std.specs.Prelude.{◌≡◌, [], IfOk};
ghost use Rattle.lane_table.specs.Lanes.{seats_from};

use crate::entry::OfLane;
use crate::seats::{JournalSeat, LaneSeat};
use crate::table::LaneTable;
use list_types::NoMemory;
use std::alloc::Global;

/// How many lanes controllers have: 0 to 31.
const LANES: u16 = 32;

/// A table of 32 lanes with the seat of its journal, which has no entries, and the seat of each lane, by its number.
pub fn open_lanes<E: OfLane + Drop>(
    alloc: Global,
) -> Result<(LaneTable<E>, JournalSeat<E>, Vec<LaneSeat<E>>), NoMemory>
    ensures journal { IfOk result (λ r. r.1 ≡ record { table = r.0; entries = []; lanes = 32 }) }
    ensures lanes { IfOk result (λ r. r.2.items ≡ seats_from r.0 32) }
{
    let mut seats = Vec::with_capacity(alloc, 32)?;
    let (table, mut journal) = LaneTable::open(alloc)?;
    for _ in 0..LANES {
        seats.push_reserved(table.claim(&mut journal));
    }
    Ok((table, journal, seats))
}
