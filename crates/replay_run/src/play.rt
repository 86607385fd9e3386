//! A replay of a tape by the desk, each of its lanes to its end.
ghost use Rattle.std.specs.Prelude.{◌≡◌, ◌<◌, ◌≤◌, [], length, IfOk, OnOk};
ghost use Rattle.std.specs.List.{AllByRecursion};
ghost use Rattle.counter_bank.specs.Account.{first_seat, most_slots};
ghost use Rattle.lane_table.specs.Lanes.{seats_from};
ghost use Rattle.p4_types.specs.declared.tape.TapeRecord.{TapeRecord};
ghost use Rattle.replay_run.specs.Ends.{HasAsked, HasTaken};
ghost use Rattle.replay_run.specs.Opening.{AreParts, IsAsker, IsTaker, SeesRun, without_parts};
ghost use Rattle.replay_run.specs.Running.{IsRunReport};
ghost use Rattle.run_lanes.specs.Gathered.{OfEach};
ghost use Rattle.run_spec.specs.Tape.{IsRecord};
ghost use Rattle.tape_lanes.specs.Lanes.{calls_in, items_in};

use crate::ending::{end_callers, end_workers};
use crate::opening::open_posts;
use crate::order::{follow, order_of};
use crate::parts::{Parts, open_parts};
use crate::passes::{open_callers, open_workers};
use crate::reporting::report;
use crate::threads::{Passes, run_each};
use counter_bank::{Bank, Seat};
use ctl_lock::{ClosedDesk, Locked, Naming, Signed, TapeDesk};
use lane_table::LaneSeat;
use list_types::{List, NoMemory};
use p4_types::events::Start;
use p4_types::journal::Report;
use p4_types::tape::{TapeRecord, Who};
use pub_snap::{Publisher, Viewer};
use run_lanes::{Freely, Gate};
use std::alloc::Global;
use std::marker::Brand;
use std::sync::Wait;
use std::thread::Threads;
use tape_lanes::{Dealt, deal};

// Lanes that are at their ends, and their desk, make the report.
fn close<J: Naming>(
    alloc: Global,
    closed: ClosedDesk<J>,
    rest: Seat,
    ended: Passes<J>,
) -> Result<Report, NoMemory>
    requires slots { closed.bank.slots ≡ J.start.slots }
    requires rest { rest ≡ without_parts 48 (first_seat J.bank) }
    requires callers { OfEach HasAsked 32 ended.0.items }
    requires workers { OfEach HasTaken 16 ended.1.items }
    ensures { (tape : List TapeRecord) → AllByRecursion IsRecord tape → length tape ≤ 1000000 → J.calls ≡ calls_in tape → J.items ≡ items_in tape → IfOk result (IsRunReport J.start tape) }
{
    let mut closed = closed;
    let (callers, workers) = ended;
    closed.confirm_lanes();
    let Ok(callers) = end_callers(alloc, &mut closed, callers) else {
        // where they went out of scope by themselves, all that they own would be part of this proof
        drop(closed);
        drop(workers);
        return Err(NoMemory);
    };
    let Ok(workers) = end_workers(alloc, &mut closed, workers) else {
        drop(closed);
        drop(callers);
        return Err(NoMemory);
    };
    report(alloc, closed, rest, workers, callers)
}

// The passes of all lanes with what the tape gives them, which take their parts of the counters from the rest.
fn open_passes<J: Naming>(
    alloc: Global,
    cpu: u16,
    tape: List<TapeRecord>,
    bank: &Bank,
    rest: &mut Seat,
    viewers: Vec<Viewer>,
    places: Vec<LaneSeat<Signed>>,
) -> Result<Passes<J>, NoMemory>
    requires each { AllByRecursion IsRecord tape }
    requires cpu { cpu ≡ J.start.cpu }
    requires calls { J.calls ≡ calls_in tape }
    requires items { J.items ≡ items_in tape }
    requires bank { bank.now.id ≡ J.bank }
    requires rest { rest.old ≡ first_seat J.bank }
    requires viewers { AllByRecursion (SeesRun J.list J.start) viewers.items }
    requires many { length viewers.items ≡ 48 }
    requires places { places.items ≡ seats_from J.table 32 }
    ensures rest { OnOk result (rest.new ≡ without_parts 48 (first_seat J.bank)) }
    ensures callers { IfOk result (λ r. OfEach IsAsker 32 r.0.items) }
    ensures workers { IfOk result (λ r. OfEach IsTaker 16 r.1.items) }
{
    let mut posts = open_posts::<J>(alloc, bank, rest, viewers)?;
    let Dealt { calls, items } = deal(alloc, tape)?;
    let callers = open_callers::<J>(alloc, cpu, places, calls, &mut posts)?;
    let workers = open_workers::<J>(alloc, items, &mut posts)?;
    Ok((callers, workers))
}

// The desk of a run, the rest of its counters' parts, and the passes of its lanes with what the tape gives them.
fn seat_lanes<J: Naming, R: Wait + Drop>(
    alloc: Global,
    start: Start,
    tape: List<TapeRecord>,
    publisher: Publisher<R>,
    parts: Parts,
) -> Result<(TapeDesk<J, R>, Seat, Passes<J>), NoMemory>
    requires each { AllByRecursion IsRecord tape }
    requires start { start ≡ J.start }
    requires calls { J.calls ≡ calls_in tape }
    requires items { J.items ≡ items_in tape }
    requires parts { AreParts start publisher parts }
    requires list { publisher.told.list ≡ J.list }
    requires bank { parts.bank.id ≡ J.bank }
    requires table { parts.table ≡ J.table }
    ensures slots { IfOk result (λ r. r.0.slots ≡ start.slots) }
    ensures rest { IfOk result (λ r. r.1 ≡ without_parts 48 (first_seat J.bank)) }
    ensures callers { IfOk result (λ r. OfEach IsAsker 32 r.2.0.items) }
    ensures workers { IfOk result (λ r. OfEach IsTaker 16 r.2.1.items) }
{
    let Parts {
        control,
        viewers,
        bank,
        mut rest,
        table,
        journal,
        lanes,
    } = parts;
    let Ok(passes) = open_passes::<J>(alloc, start.cpu, tape, &bank, &mut rest, viewers, lanes)
    else {
        drop(control);
        drop(publisher);
        return Err(NoMemory);
    };
    let locked = Locked::new(alloc, control, publisher, journal);
    let desk = TapeDesk::new(alloc, table, bank, locked);
    Ok((desk, rest, passes))
}

// Replays a tape under the names of one run.
#[allow(clippy::too_many_arguments)]
fn play_freely<J: Naming + Send + Sync, T: Threads + Wait + Sync, G: Gate + Sync>(
    rt: &T,
    alloc: Global,
    gate: &G,
    start: Start,
    tape: List<TapeRecord>,
    publisher: Publisher<&T>,
    parts: Parts,
) -> Result<Report, NoMemory>
    requires each { AllByRecursion IsRecord tape }
    requires number { length tape ≤ 1000000 }
    requires start { start ≡ J.start }
    requires calls { J.calls ≡ calls_in tape }
    requires items { J.items ≡ items_in tape }
    requires parts { AreParts start publisher parts }
    requires list { publisher.told.list ≡ J.list }
    requires bank { parts.bank.id ≡ J.bank }
    requires table { parts.table ≡ J.table }
    ensures { IfOk result (IsRunReport J.start tape) }
{
    let (desk, rest, passes) = seat_lanes::<J, &T>(alloc, start, tape, publisher, parts)?;
    let Ok(ended) = run_each(rt, alloc, &desk, gate, passes) else {
        drop(desk);
        return Err(NoMemory);
    };
    close(alloc, desk.finish(rt), rest, ended)
}

/// Replays a tape, each of its lanes on a thread of its own: a controller's lane makes its calls, one after another, and runs
/// the packets that they make enter; a worker's lane runs its packets on snapshots of the control state, and waits at its
/// meets. The gate is asked before each call and each packet. There are 1 to 1,048,576 slots of counters. Where no thread can be made the lanes run one after another,
/// the controllers' first.
pub fn replay_free<T: Threads + Wait + Sync, G: Gate + Sync>(
    rt: &T,
    alloc: Global,
    gate: &G,
    start: Start,
    tape: List<TapeRecord>,
) -> Result<Report, NoMemory>
    requires slots { (0 < start.slots) × (start.slots ≤ most_slots) }
    requires each { AllByRecursion IsRecord tape }
    requires number { length tape ≤ 1000000 }
    ensures { IfOk result (IsRunReport start tape) }
{
    let (publisher, parts) = open_parts(rt, alloc, &start)?;
    play_freely::<Brand, T, G>(rt, alloc, gate, start, tape, publisher, parts)
}

// Replays a tape in this order of its lanes, under the names of one run.
#[allow(clippy::too_many_arguments)]
fn play_in_order<J: Naming + Send + Sync, T: Threads + Wait + Sync>(
    rt: &T,
    alloc: Global,
    order: &[Who],
    start: Start,
    tape: List<TapeRecord>,
    publisher: Publisher<&T>,
    parts: Parts,
) -> Result<Report, NoMemory>
    requires each { AllByRecursion IsRecord tape }
    requires number { length tape ≤ 1000000 }
    requires start { start ≡ J.start }
    requires calls { J.calls ≡ calls_in tape }
    requires items { J.items ≡ items_in tape }
    requires parts { AreParts start publisher parts }
    requires list { publisher.told.list ≡ J.list }
    requires bank { parts.bank.id ≡ J.bank }
    requires table { parts.table ≡ J.table }
    ensures { IfOk result (IsRunReport J.start tape) }
{
    let (desk, rest, passes) = seat_lanes::<J, &T>(alloc, start, tape, publisher, parts)?;
    let passes = follow(rt, alloc, &desk, order, passes);
    let Ok(ended) = run_each(rt, alloc, &desk, &Freely, passes) else {
        drop(desk);
        return Err(NoMemory);
    };
    close(alloc, desk.finish(rt), rest, ended)
}

/// Replays a tape at the desk of a replay on threads, but on this thread alone, each record in its turn on the tape. Lanes that
/// have something left behind the tape's last record are brought to their ends on threads.
pub fn replay_in_order<T: Threads + Wait + Sync>(
    rt: &T,
    alloc: Global,
    start: Start,
    tape: List<TapeRecord>,
) -> Result<Report, NoMemory>
    requires slots { (0 < start.slots) × (start.slots ≤ most_slots) }
    requires each { AllByRecursion IsRecord tape }
    requires number { length tape ≤ 1000000 }
    ensures { IfOk result (IsRunReport start tape) }
{
    let order = order_of(alloc, tape.as_slice())?;
    let (publisher, parts) = open_parts(rt, alloc, &start)?;
    play_in_order::<Brand, T>(rt, alloc, order.as_slice(), start, tape, publisher, parts)
}
