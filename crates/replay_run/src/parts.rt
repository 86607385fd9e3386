//! What a run stands on before its first call.
ghost use Rattle.std.specs.Prelude.{◌<◌, ◌≤◌, IfOk};
ghost use Rattle.counter_bank.specs.Account.{most_slots};
ghost use Rattle.replay_run.specs.Opening.{AreParts};

use counter_bank::{Bank, Seat};
use ctl_core::Control;
use ctl_lock::Signed;
use lane_table::{JournalSeat, LaneSeat, LaneTable, open_lanes};
use list_types::NoMemory;
use p4_types::events::Start;
use pub_snap::{Publisher, Viewer};
use std::alloc::Global;
use std::sync::Wait;

/// How many lanes a run has: 32 of controllers and 16 of workers.
const LANES: usize = 48;

/// The control state, a viewer of it for each lane, the counters with all their parts, and the lanes' places in the journal.
#[derive(Drop)]
pub(crate) struct Parts {
    pub(crate) control: Control,
    pub(crate) viewers: Vec<Viewer>,
    pub(crate) bank: Bank,
    pub(crate) rest: Seat,
    pub(crate) table: LaneTable<Signed>,
    pub(crate) journal: JournalSeat<Signed>,
    pub(crate) lanes: Vec<LaneSeat<Signed>>,
}

/// Who lets the published list of a run grow, and what the run stands on beside.
pub(crate) fn open_parts<R: Wait + Drop>(
    rt: R,
    alloc: Global,
    start: &Start,
) -> Result<(Publisher<R>, Parts), NoMemory>
    requires slots { (0 < start.now.slots) × (start.now.slots ≤ most_slots) }
    ensures parts { IfOk result (λ r. AreParts start.now r.0 r.1) }
{
    let (bank, rest) = counter_bank::open(alloc, start.slots)?;
    let (table, journal, lanes) = open_lanes(alloc)?;
    let (publisher, viewers) = pub_snap::open(alloc, rt, start, LANES)?;
    let Ok(control) = Control::open(alloc, start) else {
        // where they went out of scope by themselves, all that they own would be part of this proof
        drop(publisher);
        drop(viewers);
        return Err(NoMemory);
    };
    Ok((
        publisher,
        Parts {
            control,
            viewers,
            bank,
            rest,
            table,
            journal,
            lanes,
        },
    ))
}
