//! A tape is dealt to its lanes.
ghost use Rattle.std.specs.Prelude.{◌≡◌, ◌<◌, [], ◌∷◌, length, replicate, IfOk, OnOk, OnErr};
ghost use Rattle.std.specs.List.{AllByRecursion};
ghost use Rattle.run_spec.specs.Tape.{IsRecord};
ghost use Rattle.tape_lanes.specs.Dealing.{given, calls_with, items_with};
ghost use Rattle.tape_lanes.specs.Lanes.{by_lane, calls_in, items_in};

use list_types::{List, NoMemory};
use p4_types::tape::TapeRecord;
use std::alloc::Global;
use switch_spec::calls::{LaneCall, WorkerItem};

/// What a tape gives its lanes.
#[derive(Drop)]
pub struct Dealt {
    /// The calls of the controllers' lanes, 0 to 31, by rising lane.
    pub calls: Vec<List<LaneCall>>,
    /// The packets and meets of the workers' lanes, 0 to 15, by rising lane.
    pub items: Vec<List<WorkerItem>>,
}

// So many lanes that are given nothing yet.
fn lanes<T: Drop>(alloc: Global, count: usize) -> Result<Vec<List<T>>, NoMemory>
    ensures { IfOk result (λ lanes. lanes.items ≡ replicate count []) }
{
    let mut lanes = Vec::new(alloc);
    for _ in 0..count {
        lanes.push(List::new(alloc))?;
    }
    Ok(lanes)
}

// Gives a lane an item more, behind those that it has.
fn give<T: Drop>(lanes: &mut Vec<List<T>>, lane: u16, item: T) -> Result<(), NoMemory>
    requires { lane < length lanes.old.items }
    ensures { OnOk result (lanes.new.items ≡ given lane item lanes.old.items) }
{
    lanes[lane as usize].push(item)?;
    Ok(())
}

// Gives a record to its lane.
fn deal_one(
    item: TapeRecord,
    calls: &mut Vec<List<LaneCall>>,
    items: &mut Vec<List<WorkerItem>>,
) -> Result<(), NoMemory>
    requires item { IsRecord item }
    requires controllers { length calls.old.items ≡ 32 }
    requires workers { length items.old.items ≡ 16 }
    ensures calls { OnOk result (calls.new.items ≡ calls_with item calls.old.items) }
    ensures items { OnOk result (items.new.items ≡ items_with item items.old.items) }
{
    match item {
        TapeRecord::Call {
            lane,
            method,
            message,
        } => give(calls, lane, LaneCall::Asks { method, message }),
        TapeRecord::Leave { lane } => give(calls, lane, LaneCall::Leaves),
        TapeRecord::Packet { lane, port, packet } => {
            give(items, lane, WorkerItem::Brings { port, packet })
        }
        TapeRecord::Meet {
            lane,
            controller,
            call,
        } => give(items, lane, WorkerItem::Meets { controller, call }),
    }
}

/// Deals the records of a tape to their lanes, each lane's in their order. Messages and packets are not copied.
pub fn deal(alloc: Global, tape: List<TapeRecord>) -> Result<Dealt, NoMemory>
    requires each { AllByRecursion IsRecord tape }
    ensures calls { IfOk result (λ dealt. dealt.calls.items ≡ by_lane (calls_in tape) 32) }
    ensures items { IfOk result (λ dealt. dealt.items.items ≡ by_lane (items_in tape) 16) }
{
    let mut calls = lanes(alloc, 32)?;
    let mut items = lanes(alloc, 16)?;
    for item in tape.into_vec() {
        deal_one(item, &mut calls, &mut items)?;
    }
    Ok(Dealt { calls, items })
}
