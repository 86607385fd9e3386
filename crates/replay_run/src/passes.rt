//! The passes of all lanes, before they have made or taken anything.
ghost use Rattle.std.specs.Prelude.{◌≡◌, ◌+◌, ◌<◌, ◌≤◌, ◌++◌, ◌∷◌, [], ℕ, length, IfOk, OnOk};
ghost use Rattle.std.specs.List.{AllByRecursion};
ghost use Rattle.lane_table.specs.Lanes.{seats_from};
ghost use Rattle.replay_run.specs.Opening.{IsAsker, IsPost, IsTaker};
ghost use Rattle.run_lanes.specs.Gathered.{OfEach};
ghost use Rattle.tape_lanes.specs.Lanes.{IsItem, by_lane};

use crate::opening::Post;
use ctl_lock::{CallPass, Naming, Signed};
use lane_table::LaneSeat;
use list_types::{List, NoMemory};
use run_lanes::{PacketPass, open_caller, open_worker};
use std::alloc::Global;
use switch_spec::calls::{LaneCall, WorkerItem};

/// The lanes that controllers have: 0 to 31.
const CALLERS: u16 = 32;

/// The lanes that workers have: 0 to 15.
const WORKERS: u16 = 16;

// Takes the last of a list that has one.
fn take_last<X>(items: &mut Vec<X>) -> X
    requires some { 0 < length items.old.items }
    ensures last { items.old.items ≡ items.new.items ++ result ∷ [] }
{
    match items.pop() {
        Some(item) => item,
        None => unreachable!(),
    }
}

// The pass of the highest of the controllers' lanes that are left.
fn next_caller<J: Naming>(
    alloc: Global,
    lane: u16,
    cpu: u16,
    places: &mut Vec<LaneSeat<Signed>>,
    calls: &mut Vec<List<LaneCall>>,
    posts: &mut Vec<Post>,
) -> Result<CallPass<J>, NoMemory>
    requires lane { lane < 32 }
    requires cpu { cpu ≡ J.start.cpu }
    requires places { places.old.items ≡ seats_from J.table (lane + 1) }
    requires calls { calls.old.items ≡ by_lane J.calls (lane + 1) }
    requires posts { AllByRecursion (IsPost J.list J.start J.bank) posts.old.items }
    requires some { 0 < length posts.old.items }
    ensures pass { IfOk result (IsAsker lane) }
    ensures places { places.new.items ≡ seats_from J.table lane }
    ensures calls { calls.new.items ≡ by_lane J.calls lane }
    ensures posts { AllByRecursion (IsPost J.list J.start J.bank) posts.new.items }
    ensures fewer { length posts.old.items ≡ length posts.new.items + 1 }
{
    let place = take_last(places);
    let own = take_last(calls);
    let Post { viewer, seat } = take_last(posts);
    open_caller(alloc, lane, cpu, place, own, viewer, seat)
}

/// The passes of all controllers' lanes, the highest first. Packets that their calls make enter do so at the CPU port.
pub fn open_callers<J: Naming>(
    alloc: Global,
    cpu: u16,
    places: Vec<LaneSeat<Signed>>,
    calls: Vec<List<LaneCall>>,
    posts: &mut Vec<Post>,
) -> Result<Vec<CallPass<J>>, NoMemory>
    requires cpu { cpu ≡ J.start.cpu }
    requires places { places.items ≡ seats_from J.table 32 }
    requires calls { calls.items ≡ by_lane J.calls 32 }
    requires posts { AllByRecursion (IsPost J.list J.start J.bank) posts.old.items }
    requires many { 32 ≤ length posts.old.items }
    ensures passes { IfOk result (λ passes. OfEach IsAsker 32 passes.items) }
    ensures posts { AllByRecursion (IsPost J.list J.start J.bank) posts.new.items }
    ensures fewer { OnOk result (length posts.old.items ≡ length posts.new.items + 32) }
{
    let mut places = places;
    let mut calls = calls;
    let mut passes = Vec::new(alloc);
    let mut lane = CALLERS;
    'lanes: while lane > 0 {
        lane -= 1;
        let pass = next_caller(alloc, lane, cpu, &mut places, &mut calls, posts)?;
        passes.push(pass)?;
    }
    Ok(passes)
}

// The pass of the highest of the workers' lanes that are left.
fn next_worker<J: Naming>(
    alloc: Global,
    lane: u16,
    items: &mut Vec<List<WorkerItem>>,
    posts: &mut Vec<Post>,
) -> Result<PacketPass<J>, NoMemory>
    requires items { items.old.items ≡ by_lane J.items (lane + 1) }
    requires each { AllByRecursion IsItem (J.items lane) }
    requires posts { AllByRecursion (IsPost J.list J.start J.bank) posts.old.items }
    requires some { 0 < length posts.old.items }
    ensures pass { IfOk result (IsTaker lane) }
    ensures items { items.new.items ≡ by_lane J.items lane }
    ensures posts { AllByRecursion (IsPost J.list J.start J.bank) posts.new.items }
    ensures fewer { length posts.old.items ≡ length posts.new.items + 1 }
{
    let own = take_last(items);
    let Post { viewer, seat } = take_last(posts);
    open_worker(alloc, lane, own, viewer, seat)
}

/// The passes of all workers' lanes, the highest first.
pub fn open_workers<J: Naming>(
    alloc: Global,
    items: Vec<List<WorkerItem>>,
    posts: &mut Vec<Post>,
) -> Result<Vec<PacketPass<J>>, NoMemory>
    requires items { items.items ≡ by_lane J.items 16 }
    requires each { (lane : ℕ) → AllByRecursion IsItem (J.items lane) }
    requires posts { AllByRecursion (IsPost J.list J.start J.bank) posts.old.items }
    requires many { 16 ≤ length posts.old.items }
    ensures passes { IfOk result (λ passes. OfEach IsTaker 16 passes.items) }
{
    let mut items = items;
    let mut passes = Vec::new(alloc);
    let mut lane = WORKERS;
    'lanes: while lane > 0 {
        lane -= 1;
        let pass = next_worker(alloc, lane, &mut items, posts)?;
        passes.push(pass)?;
    }
    Ok(passes)
}
