//! What a desk stands on before its first call.
ghost use Rattle.std.specs.Prelude.{◌≡◌, ◌+◌, ◌<◌, ◌≤◌, length, IfOk};
ghost use Rattle.counter_bank.specs.Account.{most_slots};
ghost use Rattle.live_desk.specs.Opening.{AreParts};

use crate::call_steps::CallSteps;
use counter_bank::{Bank, Seat};
use ctl_core::Control;
use lane_table::{JournalSeat, LaneSeat, LaneTable, open_lanes};
use list_types::NoMemory;
use p4_types::events::Start;
use pub_snap::{Publisher, Viewer};
use std::alloc::Global;
use std::sync::Wait;

/// How many callers a desk has: lanes 0 to 31.
const LANES: usize = 32;

/// The control state, a viewer of it for each caller and each worker, the counters with all their parts, and the callers' places in
/// the table of lanes.
#[derive(Drop)]
pub struct Parts {
    pub(crate) control: Control,
    pub(crate) viewers: Vec<Viewer>,
    pub(crate) bank: Bank,
    pub(crate) rest: Seat,
    pub(crate) table: LaneTable<CallSteps>,
    pub(crate) seat: JournalSeat<CallSteps>,
    pub(crate) places: Vec<LaneSeat<CallSteps>>,
}

/// Who lets the published list of a desk grow, and what the desk stands on beside, for 32 callers and so many workers, at most 16.
/// There are 1 to 1,048,576 slots of counters.
pub fn open_parts<R: Wait + Drop>(
    rt: R,
    alloc: Global,
    start: &Start,
    workers: usize,
) -> Result<(Publisher<R>, Parts), NoMemory>
    requires workers { workers ≤ 16 }
    requires slots { (0 < start.now.slots) × (start.now.slots ≤ most_slots) }
    ensures parts { IfOk result (λ r. AreParts start.now r.0 r.1) }
    ensures many { IfOk result (λ r. length r.1.viewers.items ≡ workers + 32) }
{
    let (bank, rest) = counter_bank::open(alloc, start.slots)?;
    let (table, seat, places) = open_lanes(alloc)?;
    let (publisher, viewers) = pub_snap::open(alloc, rt, start, workers + LANES)?;
    let Ok(control) = Control::open(alloc, start) else {
        // where they went out of scope by themselves, all that they own would be part of this proof
        drop(publisher);
        drop(viewers);
        return Err(NoMemory);
    };
    Ok((
        publisher,
        Parts {
            control,
            viewers,
            bank,
            rest,
            table,
            seat,
            places,
        },
    ))
}
