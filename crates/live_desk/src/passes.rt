//! The workers and the passes of a desk, before anything was asked.
ghost use Rattle.std.specs.Prelude.{◌≡◌, ◌+◌, ◌<◌, ◌≤◌, ◌++◌, ◌∷◌, [], length, map, IfOk, OnOk};
ghost use Rattle.std.specs.List.{AllByRecursion};
ghost use Rattle.counter_bank.specs.Account.{first_seat};
ghost use Rattle.lane_table.specs.Lanes.{seats_from};
ghost use Rattle.live_desk.specs.Opening.{IsFresh, IsNew, SeesStart, lanes_below, without_parts};

use crate::call_steps::CallSteps;
use crate::desk_worker::DeskWorker;
use crate::naming::Naming;
use crate::pass::Pass;
use counter_bank::{Bank, Seat};
use lane_table::LaneSeat;
use list_types::NoMemory;
use pub_snap::Viewer;
use snap_worker::Worker;
use std::alloc::Global;

/// A worker for each viewer, with a part of the counters of its own.
pub(crate) fn open_workers<J: Naming>(
    alloc: Global,
    bank: &Bank,
    rest: &mut Seat,
    viewers: Vec<Viewer>,
) -> Result<Vec<DeskWorker<J>>, NoMemory>
    requires bank { bank.now.id ≡ J.bank }
    requires rest { rest.old ≡ first_seat J.bank }
    requires few { length viewers.items ≤ 64 }
    requires viewers { AllByRecursion (SeesStart J.list J.start) viewers.items }
    ensures workers { IfOk result (λ workers. AllByRecursion (IsFresh J.list J.start J.bank) workers.items) }
    ensures many { IfOk result (λ workers. length workers.items ≡ length viewers.items) }
    ensures rest { OnOk result (rest.new ≡ without_parts (length viewers.items) (first_seat J.bank)) }
{
    let mut workers = Vec::with_capacity(alloc, viewers.len())?;
    for viewer in viewers {
        let seat = bank.split(rest);
        let worker = Worker::open(alloc, viewer, seat)?;
        workers.push_reserved(DeskWorker::new(worker));
    }
    Ok(workers)
}

// Takes the last of a list that has one.
fn take_last<X>(items: &mut Vec<X>) -> X
    requires some { 0 < length items.old.items }
    ensures last { items.old.items ≡ items.new.items ++ result ∷ [] }
{
    match items.pop() {
        Some(item) => item,
        None => unreachable!(),
    }
}

// The pass of the highest of the lanes that are left.
fn next_pass<J: Naming>(
    alloc: Global,
    lane: u16,
    cpu: u16,
    places: &mut Vec<LaneSeat<CallSteps>>,
    workers: &mut Vec<DeskWorker<J>>,
) -> Pass<J>
    requires lane { lane < 32 }
    requires cpu { cpu ≡ J.start.cpu }
    requires places { places.old.items ≡ seats_from J.table (lane + 1) }
    requires workers { AllByRecursion (IsFresh J.list J.start J.bank) workers.old.items }
    requires some { 0 < length workers.old.items }
    ensures lane { result.lane ≡ lane }
    ensures pass { IsNew J.list J.start J.bank result }
    ensures places { places.new.items ≡ seats_from J.table lane }
    ensures workers { AllByRecursion (IsFresh J.list J.start J.bank) workers.new.items }
    ensures fewer { length workers.old.items ≡ length workers.new.items + 1 }
{
    let seat = take_last(places);
    let worker = take_last(workers);
    Pass::open(alloc, lane, cpu, seat, worker)
}

/// The passes of all lanes, the highest first, by 32 of the workers. Packets that their calls make enter do so at the CPU port.
pub(crate) fn open_passes<J: Naming>(
    alloc: Global,
    cpu: u16,
    places: Vec<LaneSeat<CallSteps>>,
    workers: &mut Vec<DeskWorker<J>>,
) -> Result<Vec<Pass<J>>, NoMemory>
    requires cpu { cpu ≡ J.start.cpu }
    requires places { places.items ≡ seats_from J.table 32 }
    requires workers { AllByRecursion (IsFresh J.list J.start J.bank) workers.old.items }
    requires many { 32 ≤ length workers.old.items }
    ensures lanes { IfOk result (λ passes. map (λ pass. pass.lane) passes.items ≡ lanes_below 32) }
    ensures passes { IfOk result (λ passes. AllByRecursion (IsNew J.list J.start J.bank) passes.items) }
    ensures workers { AllByRecursion (IsFresh J.list J.start J.bank) workers.new.items }
    ensures fewer { OnOk result (length workers.old.items ≡ length workers.new.items + 32) }
{
    let mut places = places;
    let mut passes = Vec::new(alloc);
    let mut lane: u16 = 32;
    'lanes: while lane > 0 {
        lane -= 1;
        let pass = next_pass(alloc, lane, cpu, &mut places, workers);
        passes.push(pass)?;
    }
    Ok(passes)
}
