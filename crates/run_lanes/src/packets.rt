//! What runs the packets of a worker's lane.
ghost use Rattle.std.specs.Prelude.{◌≡◌, ◌<◌, ◌≤◌, [], true, false, length, max, IfSome, IfNone, OnOk};
ghost use Rattle.std.specs.List.{AllByRecursion};
ghost use Rattle.ctl_lock.specs.Passing.{IsOwn, RunsAtLast, SameLane};
ghost use Rattle.lane_work.specs.Work.{new_work, steps_told};
ghost use Rattle.p4_types.specs.declared.tape.Who.TheVariants.{Worker};
ghost use Rattle.run_lanes.specs.Packets.{Awaits, IsPacketPass, IsTaken, Takes, is_packet_next};
ghost use Rattle.tape_lanes.specs.Lanes.{IsItem};

use crate::gate::Gate;
use ctl_lock::{Asked, Met, Naming, TapeDesk, run_at_last};
use lane_work::LaneWork;
use list_types::NoMemory;
use p4_types::tape::Who;
use std::alloc::Global;
use std::collections::VecDeque;
use std::marker::{Model, PhantomData};
use std::sync::Wait;
use switch_spec::calls::WorkerItem;

/// Runs the packets of one worker's lane, one after another, and waits at its meets. It goes from thread to thread.
#[derive(Drop)]
pub struct PacketPass<J: Naming> {
    lane: u16,
    todo: VecDeque<WorkerItem>,
    mets: Vec<Met<J>>,
    work: LaneWork,
    failed: bool,
    of: PhantomData<J>,
}

impl<J: Naming> Model for PacketPass<J> {
    ghost use Rattle.std.specs.List.{AllByRecursion};
    ghost use Rattle.run_lanes.specs.Packets.{PacketPassing, PassesPackets};
    ghost use Rattle.tape_lanes.specs.Lanes.{IsItem};
    ghost use Rattle.bm_expr.specs.TreeCode.{number_code, truth_code};
    ghost use Rattle.std.specs.Coded.{codes};

    ghost coded = { Prim.hlevel (codes, number_code, truth_code) };

    ghost Value = { PacketPassing };

    ghost view = { λ p. record { lane = p.lane; todo = p.todo.items; mets = p.mets.items; work = p.work; failed = p.failed } };

    ghost invariant = { λ p.
        AllByRecursion IsItem p.todo.items
        × PassesPackets p.failed J.list J.start J.bank p.lane (J.items p.lane) p.todo.items p.mets.items p.work };
}

impl<J: Naming> PacketPass<J> {
    /// The pass of a lane that has taken nothing.
    pub fn new(alloc: Global, lane: u16, items: Vec<WorkerItem>, work: LaneWork) -> PacketPass<J>
        requires each { AllByRecursion IsItem items.items }
        requires items { items.items ≡ J.items lane }
        requires own { IsOwn J.list J.start J.bank (Worker lane) work }
        requires fresh { work ≡ new_work work.who work.told work.refusals work.seat }
        requires added { work.seat.added ≡ [] }
        ensures { result ≡ record { lane = lane; todo = J.items lane; mets = []; work = work; failed = false } }
    {
        PacketPass {
            lane,
            todo: VecDeque::from_vec(items),
            mets: Vec::new(alloc),
            work,
            failed: false,
            of: PhantomData,
        }
    }

    /// The worker's lane, 0 to 15.
    pub fn lane(&self) -> u16
        ensures { result ≡ self.now.lane }
    {
        self.lane
    }

    /// How much it still has to take.
    pub fn left(&self) -> usize
        ensures { result ≡ length self.now.todo }
    {
        self.todo.len()
    }

    /// Leaves the snapshot that its last packets were run on, so that whoever publishes need not wait for it.
    pub fn rest(&mut self)
        ensures { self.new ≡ self.old }
    {
        self.work.rest();
    }

    /// Whether a packet is next.
    pub fn brings(&self) -> bool
        ensures { result ≡ is_packet_next self.now.todo }
    {
        matches!(self.todo.front(), Some(WorkerItem::Brings { .. }))
    }

    /// The calls that the lane met and what it has done, or none where it found no memory.
    pub fn into_work(self) -> Option<(Vec<Met<J>>, LaneWork)>
        ensures mets { IfSome result (λ r. r.0.items ≡ self.mets) }
        ensures work { IfSome result (λ r. r.1 ≡ self.work) }
        ensures whole { IfSome result (λ r. IsPacketPass J.list J.start J.bank self.lane (J.items self.lane) self.todo self.mets r.1) }
        ensures some { IfSome result (λ r. self.failed ≡ false) }
        ensures none { IfNone result (self.failed ≡ true) }
    {
        if self.failed {
            return None;
        }
        Some((self.mets, self.work))
    }
}

// Waits for a call, and learns what was told then.
fn meet<J: Naming, R: Wait + Drop, W: Wait>(
    rt: &W,
    desk: &TapeDesk<J, R>,
    controller: u16,
    call: u32,
    mets: &mut Vec<Met<J>>,
    work: &mut LaneWork,
) -> Result<(), NoMemory>
    requires controller { controller < 32 }
    requires list { work.old.told.list ≡ J.list }
    ensures met { OnOk result (Awaits controller call mets.old.items mets.new.items work.old work.new) }
{
    work.rest();
    mets.reserve(1)?;
    let met = desk.told_after(rt, controller, call)?;
    work.learn(met.told());
    mets.push_reserved(met);
    Ok(())
}

// Takes an item: runs its packet, or waits for its call.
fn take<J: Naming, R: Wait + Drop, W: Wait>(
    rt: &W,
    alloc: Global,
    desk: &TapeDesk<J, R>,
    item: WorkerItem,
    mets: &mut Vec<Met<J>>,
    work: &mut LaneWork,
) -> Result<(), NoMemory>
    requires item { IsItem item }
    requires list { work.old.told.list ≡ J.list }
    requires start { work.old.told.start ≡ J.start }
    requires bank { work.old.seat.bank ≡ J.bank }
    ensures taken { OnOk result (Takes item mets.old.items mets.new.items work.old work.new) }
{
    match item {
        WorkerItem::Brings { port, packet } => run_at_last(
            rt,
            alloc,
            desk.bank(),
            work,
            port,
            packet.as_slice(),
        ),
        WorkerItem::Meets { controller, call } => meet(rt, desk, controller, call, mets, work),
    }
}

// The same as `take_next`, but that behind a packet the lane may keep its snapshot.
fn take_on<J: Naming, R: Wait + Drop, W: Wait>(
    rt: &W,
    alloc: Global,
    desk: &TapeDesk<J, R>,
    pass: PacketPass<J>,
) -> (PacketPass<J>, Asked)
    ensures lane { result.0.lane ≡ pass.lane }
    ensures taken { IsTaken result.1 pass result.0 }
{
    if pass.failed {
        return (pass, Asked::NoMemory);
    }
    let PacketPass {
        lane,
        mut todo,
        mut mets,
        mut work,
        failed: _,
        of,
    } = pass;
    let Some(item) = todo.pop_front() else {
        let failed = false;
        return (
            PacketPass {
                lane,
                todo,
                mets,
                work,
                failed,
                of,
            },
            Asked::AllMade,
        );
    };
    let Ok(()) = take(rt, alloc, desk, item, &mut mets, &mut work) else {
        let failed = true;
        return (
            PacketPass {
                lane,
                todo,
                mets,
                work,
                failed,
                of,
            },
            Asked::NoMemory,
        );
    };
    let failed = false;
    (
        PacketPass {
            lane,
            todo,
            mets,
            work,
            failed,
            of,
        },
        Asked::Made,
    )
}

/// Takes a worker's next item, unless it has taken all or found no memory before.
pub fn take_next<J: Naming, R: Wait + Drop, W: Wait>(
    rt: &W,
    alloc: Global,
    desk: &TapeDesk<J, R>,
    pass: PacketPass<J>,
) -> (PacketPass<J>, Asked)
    ensures lane { result.0.lane ≡ pass.lane }
    ensures taken { IsTaken result.1 pass result.0 }
{
    let (mut pass, taken) = take_on(rt, alloc, desk, pass);
    pass.rest();
    (pass, taken)
}

/// Takes all that a worker's lane was given, unless it finds no memory. The gate is asked before each packet. Packets one after another
/// are run on one snapshot, up to 32 of them; none is kept while the lane waits, or behind the last.
pub fn take_all<J: Naming, R: Wait + Drop, W: Wait, G: Gate>(
    rt: &W,
    alloc: Global,
    desk: &TapeDesk<J, R>,
    gate: &G,
    pass: PacketPass<J>,
) -> PacketPass<J>
    ensures lane { result.lane ≡ pass.lane }
    ensures ended { result.failed ≡ false → result.todo ≡ [] }
{
    let mut pass = pass;
    let mut number = 1u64;
    'items: while pass.left() > 0 {
        if pass.brings() {
            if gate.holds() {
                pass.rest();
            }
            gate.turn(Who::Worker(pass.lane()), number);
            number = number.saturating_add(1);
        }
        let (next, taken) = take_on(rt, alloc, desk, pass);
        pass = next;
        if !matches!(taken, Asked::Made) {
            pass.rest();
            return pass;
        }
    }
    pass.rest();
    pass
}
