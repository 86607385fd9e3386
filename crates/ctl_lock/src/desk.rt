//! The desk at which the lanes of a run make their calls.
ghost use Rattle.std.specs.Prelude.{◌≡◌, ◌<◌, ◌≤◌, IfOk, IfSome, OnOk, OnErr};
ghost use Rattle.ctl_lock.specs.Locked.{HasSeen, IsWhole};
ghost use Rattle.ctl_lock.specs.Passing.{IsAsked};
ghost use Rattle.ctl_lock.specs.Reading.{Looks};
ghost use Rattle.snap_worker.specs.Sums.{noted_by};

use crate::call::read;
use crate::loading::look;
use crate::locked::{Locked, Outcome};
use crate::met::Met;
use crate::naming::Naming;
use crate::pass::CallPass;
use crate::running::run_behind;
use crate::signed::Signed;
use counter_bank::Bank;
use lane_table::{LaneSeat, LaneTable};
use lane_work::LaneWork;
use list_types::NoMemory;
use std::alloc::Global;
use std::marker::{Model, PhantomData};
use std::sync::atomic::{AtomicBool, Ordering};
use std::sync::{Mutex, Wait};
use std::thread::yield_now;
use switch_spec::calls::LaneCall;

/// What asking for a lane's next call came to.
#[derive(Clone, Copy)]
pub enum Asked {
    /// The call was made, and the packet that it made enter was run.
    Made,
    /// The lane has made all its calls.
    AllMade,
    /// There was no memory for the call's entry or for the record of a packet, now or before.
    NoMemory,
}

/// What the lanes of a run share: the control of the switch behind one lock, the table of lanes, and the bank of counters.
pub struct TapeDesk<J: Naming, R: Wait + Drop> {
    pub(crate) alloc: Global,
    pub(crate) table: LaneTable<Signed>,
    pub(crate) bank: Bank,
    pub(crate) locked: Mutex<Locked<J, R>>,
    // whether a lane found no memory, so that calls which others wait for may never be made
    pub(crate) gave_up: AtomicBool,
}

// Written out, so that those who let one go need not look into it.
impl<J: Naming, R: Wait + Drop> Drop for TapeDesk<J, R> {
    fn drop(self) {
        let Self {
            alloc: _,
            table: _table,
            bank: _bank,
            locked: _locked,
            gave_up: _gave_up,
        } = self;
    }
}

impl<J: Naming, R: Wait + Drop> Model for TapeDesk<J, R> {
    ghost use Rattle.std.specs.Prelude.{◌≡◌, ◌≤◌};
    ghost use Rattle.counter_bank.specs.Account.{Opened};

    ghost Value = { Opened };

    ghost view = { λ d. d.bank };

    ghost invariant = { λ d. (d.table ≡ J.table) × (d.bank.id ≡ J.bank) × (J.start.slots ≤ d.bank.slots) };
}

impl<J: Naming, R: Wait + Drop> TapeDesk<J, R> {
    /// A desk at which no call was made.
    pub fn new(
        alloc: Global,
        table: LaneTable<Signed>,
        bank: Bank,
        locked: Locked<J, R>,
    ) -> TapeDesk<J, R>
        requires table { table ≡ J.table }
        requires bank { bank.id ≡ J.bank }
        requires slots { J.start.slots ≤ bank.slots }
        ensures { result ≡ bank }
    {
        TapeDesk {
            alloc,
            table,
            bank,
            locked: Mutex::new(locked),
            gave_up: AtomicBool::new(false),
        }
    }

    /// Where it takes memory, the table of lanes, the counters, and what stands behind the lock.
    pub(crate) fn into_parts(self) -> (Global, LaneTable<Signed>, Bank, Locked<J, R>)
        ensures table { result.1 ≡ J.table }
        ensures bank { result.2 ≡ self }
        ensures name { result.2.id ≡ J.bank }
    {
        let Self {
            alloc,
            table,
            bank,
            locked,
            gave_up: _,
        } = self;
        (alloc, table, bank, locked.into_inner())
    }

    /// The counters.
    pub fn bank(&self) -> &Bank
        ensures bank { result.now ≡ self.now }
        ensures name { result.now.id ≡ J.bank }
        ensures slots { J.start.slots ≤ result.now.slots }
    {
        &self.bank
    }

    // Makes a lane's call under the lock; it sees the counters as the lane's own seat finds them then.
    fn call<W: Wait>(
        &self,
        rt: &W,
        lane: u16,
        seat: &mut LaneSeat<Signed>,
        work: &mut LaneWork,
        call: LaneCall,
    ) -> Result<Outcome, NoMemory>
        requires table { seat.old.table ≡ J.table }
        requires number { seat.old.number ≡ lane }
        requires lane { lane < 32 }
        requires bank { work.old.seat.bank ≡ J.bank }
        ensures made { IfOk result (HasSeen J.start J.list call (noted_by work.new.seat) seat.old seat.new) }
        ensures kept { OnErr result (seat.new ≡ seat.old) }
        ensures looks { Looks work.old work.new }
    {
        let read = read(self.alloc, &call);
        let mut locked = self.locked.lock(rt);
        let slots = locked.next_slot();
        let (read, figures) = look(self.alloc, &self.bank, work, slots, read);
        locked.make(rt, &self.table, seat, lane, call, &read, figures)
    }

    // The same, and then runs the packet that the call makes enter, without the lock.
    fn call_whole<W: Wait>(
        &self,
        rt: &W,
        lane: u16,
        cpu: u16,
        seat: &mut LaneSeat<Signed>,
        work: &mut LaneWork,
        call: LaneCall,
    ) -> Result<(), NoMemory>
        requires table { seat.old.table ≡ J.table }
        requires number { seat.old.number ≡ lane }
        requires lane { lane < 32 }
        requires bank { work.old.seat.bank ≡ J.bank }
        requires list { work.old.told.list ≡ J.list }
        requires start { work.old.told.start ≡ J.start }
        ensures made { OnOk result (IsWhole J.start J.list cpu call seat.old seat.new work.old work.new) }
        ensures seat { (seat.new.table ≡ seat.old.table) × (seat.new.number ≡ seat.old.number) }
    {
        let outcome = self.call(rt, lane, seat, work, call)?;
        let packet = outcome.packet?;
        run_behind(rt, self.alloc, &self.bank, work, cpu, packet, &outcome.told)
    }

    /// Makes a lane's next call, unless it has made all or found no memory before. The packet that the call makes enter is run
    /// once the lock was given back, by the lane's own worker, which has learnt the call.
    pub fn ask_next<W: Wait>(&self, rt: &W, pass: CallPass<J>) -> (CallPass<J>, Asked)
        ensures lane { result.0.lane ≡ pass.lane }
        ensures asked { IsAsked result.1 pass result.0 }
    {
        if pass.failed {
            return (pass, Asked::NoMemory);
        }
        let CallPass {
            lane,
            cpu,
            mut seat,
            mut todo,
            mut work,
            failed: _,
            of,
        } = pass;
        let Some(call) = todo.pop_front() else {
            let failed = false;
            return (
                CallPass {
                    lane,
                    cpu,
                    seat,
                    todo,
                    work,
                    failed,
                    of,
                },
                Asked::AllMade,
            );
        };
        let Ok(()) = self.call_whole(rt, lane, cpu, &mut seat, &mut work, call) else {
            self.give_up();
            let failed = true;
            return (
                CallPass {
                    lane,
                    cpu,
                    seat,
                    todo,
                    work,
                    failed,
                    of,
                },
                Asked::NoMemory,
            );
        };
        let failed = false;
        (
            CallPass {
                lane,
                cpu,
                seat,
                todo,
                work,
                failed,
                of,
            },
            Asked::Made,
        )
    }

    /// Lets those who wait for a call wait no longer: a lane that found no memory will not make its calls.
    pub fn give_up(&self) {
        self.gave_up.store(true, Ordering::SeqCst);
    }

    // Whether a lane has made so many calls: then what is published, and a note of the journal.
    fn meet<W: Wait>(&self, rt: &W, lane: u16, call: u32) -> Option<Met<J>>
        requires lane { lane < 32 }
        ensures lane { IfSome result (λ met. met.lane ≡ lane) }
        ensures call { IfSome result (λ met. met.call ≡ call) }
    {
        let (number, told, note) = self.locked.lock(rt).noted(&self.table, lane);
        if number < u64::from(call) {
            return None;
        }
        Some(Met {
            lane,
            call,
            told,
            note,
            of: PhantomData,
        })
    }

    /// Waits until a controller's lane has made its call of this number, from 1. It returns once the journal has that call, or
    /// once a lane found no memory, as its calls are made no more.
    pub fn told_after<W: Wait>(&self, rt: &W, lane: u16, call: u32) -> Result<Met<J>, NoMemory>
        requires lane { lane < 32 }
        ensures lane { IfOk result (λ met. met.lane ≡ lane) }
        ensures call { IfOk result (λ met. met.call ≡ call) }
    {
        for _ in rt.forever() {
            if let Some(met) = self.meet(rt, lane, call) {
                return Ok(met);
            }
            if self.gave_up.load(Ordering::SeqCst) {
                return Err(NoMemory);
            }
            yield_now();
        }
        unreachable!()
    }
}
