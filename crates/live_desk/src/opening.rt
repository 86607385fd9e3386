//! A desk at which nothing was asked, with its passes and its workers.
ghost use Rattle.std.specs.Prelude.{◌≡◌, ◌+◌, ◌≤◌, length, map, IfOk};
ghost use Rattle.std.specs.List.{AllByRecursion};
ghost use Rattle.counter_bank.specs.Account.{first_seat};
ghost use Rattle.lane_table.specs.Lanes.{seats_from};
ghost use Rattle.live_desk.specs.Opening.{AreParts, IsFresh, IsNew, SeesStart, lanes_below};

use crate::call_steps::CallSteps;
use crate::desk::LiveDesk;
use crate::desk_worker::DeskWorker;
use crate::live::Live;
use crate::locked::Locked;
use crate::naming::Naming;
use crate::parts::Parts;
use crate::pass::Pass;
use crate::passes::{open_passes, open_workers};
use crate::wakers::LinkWakers;
use counter_bank::{Bank, Seat};
use lane_table::LaneSeat;
use list_types::NoMemory;
use mail_room::Mail;
use p4_types::events::Start;
use pub_snap::{Publisher, Viewer};
use std::alloc::Global;
use std::sync::Wait;

/// The passes of a desk, the highest lane first, and its workers.
pub type Callers<J> = (Vec<Pass<J>>, Vec<DeskWorker<J>>);

// The passes of all lanes, and the workers that are left.
fn seat_callers<J: Naming>(
    alloc: Global,
    cpu: u16,
    bank: &Bank,
    rest: &mut Seat,
    viewers: Vec<Viewer>,
    places: Vec<LaneSeat<CallSteps>>,
) -> Result<Callers<J>, NoMemory>
    requires cpu { cpu ≡ J.start.cpu }
    requires bank { bank.now.id ≡ J.bank }
    requires rest { rest.old ≡ first_seat J.bank }
    requires viewers { AllByRecursion (SeesStart J.list J.start) viewers.items }
    requires many { 32 ≤ length viewers.items }
    requires few { length viewers.items ≤ 64 }
    requires places { places.items ≡ seats_from J.table 32 }
    ensures lanes { IfOk result (λ r. map (λ pass. pass.lane) r.0.items ≡ lanes_below 32) }
    ensures passes { IfOk result (λ r. AllByRecursion (IsNew J.list J.start J.bank) r.0.items) }
    ensures workers { IfOk result (λ r. AllByRecursion (IsFresh J.list J.start J.bank) r.1.items) }
    ensures left { IfOk result (λ r. length viewers.items ≡ length r.1.items + 32) }
{
    let mut workers = open_workers::<J>(alloc, bank, rest, viewers)?;
    let Ok(passes) = open_passes::<J>(alloc, cpu, places, &mut workers) else {
        drop(workers);
        return Err(NoMemory);
    };
    Ok((passes, workers))
}

/// A desk at which nothing was asked, a pass for each of its 32 callers, the highest lane first, and its workers.
pub fn open_desk<J: Naming, R: Wait + Drop>(
    rt: R,
    alloc: Global,
    start: Start,
    publisher: Publisher<R>,
    parts: Parts,
) -> Result<(LiveDesk<J, R>, Callers<J>), NoMemory>
    requires start { start ≡ J.start }
    requires parts { AreParts start publisher parts }
    requires list { publisher.told.list ≡ J.list }
    requires bank { parts.bank.id ≡ J.bank }
    requires table { parts.table ≡ J.table }
    ensures slots { IfOk result (λ r. r.0.slots ≡ start.slots) }
    ensures lanes { IfOk result (λ r. map (λ pass. pass.lane) r.1.0.items ≡ lanes_below 32) }
    ensures passes { IfOk result (λ r. AllByRecursion (IsNew J.list J.start J.bank) r.1.0.items) }
    ensures workers { IfOk result (λ r. AllByRecursion (IsFresh J.list J.start J.bank) r.1.1.items) }
    ensures left { IfOk result (λ r. length parts.viewers.items ≡ length r.1.1.items + 32) }
{
    let Parts {
        control,
        viewers,
        bank,
        mut rest,
        table,
        seat,
        places,
    } = parts;
    let Ok(mail) = Mail::open(alloc) else {
        drop(control);
        drop(publisher);
        return Err(NoMemory);
    };
    let Ok(wakers) = LinkWakers::open(alloc) else {
        drop(control);
        drop(publisher);
        return Err(NoMemory);
    };
    let Ok(callers) = seat_callers::<J>(alloc, start.cpu, &bank, &mut rest, viewers, places) else {
        drop(control);
        drop(publisher);
        return Err(NoMemory);
    };
    let locked = Locked::new(alloc, control, publisher, seat);
    let live = Live::new(locked, mail);
    Ok((LiveDesk::new(alloc, rt, table, bank, live, wakers), callers))
}
