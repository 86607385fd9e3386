//! The passes of lanes, before they have made or taken anything.
ghost use Rattle.std.specs.Prelude.{◌≡◌, ◌<◌, [], false, IfOk};
ghost use Rattle.std.specs.List.{AllByRecursion};
ghost use Rattle.tape_lanes.specs.Lanes.{IsItem};

use crate::packets::PacketPass;
use counter_bank::Seat;
use ctl_lock::{CallPass, Naming, Signed};
use lane_table::LaneSeat;
use lane_work::LaneWork;
use list_types::{List, NoMemory};
use p4_types::tape::Who;
use pub_snap::Viewer;
use std::alloc::Global;
use switch_spec::calls::{LaneCall, WorkerItem};

/// The pass of a controller's lane that sees by a viewer and counts by a seat. Packets that its calls make enter do so at the CPU
/// port.
pub fn open_caller<J: Naming>(
    alloc: Global,
    lane: u16,
    cpu: u16,
    place: LaneSeat<Signed>,
    calls: List<LaneCall>,
    viewer: Viewer,
    seat: Seat,
) -> Result<CallPass<J>, NoMemory>
    requires table { place.table ≡ J.table }
    requires number { place.number ≡ lane }
    requires lane { lane < 32 }
    requires nothing { place.entries ≡ [] }
    requires cpu { cpu ≡ J.start.cpu }
    requires calls { calls ≡ J.calls lane }
    requires list { viewer.told.list ≡ J.list }
    requires start { viewer.told.start ≡ J.start }
    requires bank { seat.bank ≡ J.bank }
    requires part { seat.parts ≡ 1 }
    requires added { seat.added ≡ [] }
    ensures lane { IfOk result (λ pass. pass.lane ≡ lane) }
    ensures begun { IfOk result (λ pass. pass.made ≡ []) }
    ensures whole { IfOk result (λ pass. pass.failed ≡ false) }
{
    let work = LaneWork::open(alloc, Who::Controller(lane), viewer, seat)?;
    Ok(CallPass::new(lane, cpu, place, calls.into_vec(), work))
}

/// The pass of a worker's lane that sees by a viewer and counts by a seat.
pub fn open_worker<J: Naming>(
    alloc: Global,
    lane: u16,
    items: List<WorkerItem>,
    viewer: Viewer,
    seat: Seat,
) -> Result<PacketPass<J>, NoMemory>
    requires each { AllByRecursion IsItem items }
    requires items { items ≡ J.items lane }
    requires list { viewer.told.list ≡ J.list }
    requires start { viewer.told.start ≡ J.start }
    requires bank { seat.bank ≡ J.bank }
    requires part { seat.parts ≡ 1 }
    requires added { seat.added ≡ [] }
    ensures lane { IfOk result (λ pass. pass.lane ≡ lane) }
    ensures begun { IfOk result (λ pass. pass.mets ≡ []) }
    ensures whole { IfOk result (λ pass. pass.failed ≡ false) }
{
    let work = LaneWork::open(alloc, Who::Worker(lane), viewer, seat)?;
    Ok(PacketPass::new(alloc, lane, items.into_vec(), work))
}
