//! The end of a desk, once no caller makes a call any more.
ghost use Rattle.std.specs.Prelude.{◌≡◌};
ghost use Rattle.live_desk.specs.Callers.{events_by};
ghost use Rattle.live_desk.specs.Locked.{AreCounted, seat_of};
ghost use Rattle.pub_snap.specs.Beginnings.{Begins};

use crate::call_steps::CallSteps;
use crate::desk::LiveDesk;
use crate::naming::Naming;
use crate::pass::Pass;
use counter_bank::Bank;
use lane_table::{JournalSeat, LaneTable};
use pub_snap::Told;
use std::marker::{Model, PhantomData};
use std::sync::Wait;
use std::thread::yield_now;

/// What is left of a desk: the whole published list, the counters, and the seat of all calls, with which each pass is compared.
pub struct ClosedDesk<J: Naming> {
    table: LaneTable<CallSteps>,
    seat: JournalSeat<CallSteps>,
    told: Told,
    bank: Bank,
    of: PhantomData<J>,
}

// Written out, so that those who let one go need not look into it.
impl<J: Naming> Drop for ClosedDesk<J> {
    fn drop(self) {
        let Self {
            table: _table,
            seat: _seat,
            told: _told,
            bank: _bank,
            of: _,
        } = self;
    }
}

impl<J: Naming> Model for ClosedDesk<J> {
    ghost use Rattle.std.specs.Prelude.{◌≡◌};
    ghost use Rattle.live_desk.specs.Locked.{AreCounted, Closing, seat_of};
    ghost use Rattle.bm_expr.specs.TreeCode.{number_code, truth_code};
    ghost use Rattle.std.specs.Coded.{codes};

    ghost coded = { Prim.hlevel (codes, number_code, truth_code) };

    ghost Value = { Closing };

    ghost view = { λ d. record { told = d.told; bank = d.bank } };

    ghost invariant = { λ d.
        (d.table ≡ J.table)
        × (d.seat ≡ seat_of J.table d.seat.entries)
        × (d.bank.id ≡ J.bank)
        × (d.told.list ≡ J.list)
        × (d.told.start ≡ J.start)
        × AreCounted d.told.events d.seat.entries };
}

impl<J: Naming, R: Wait + Drop> LiveDesk<J, R> {
    /// Closes the desk, once no pass makes a call any more.
    pub fn finish(self) -> ClosedDesk<J>
        ensures bank { result.bank ≡ self }
    {
        let (table, bank, live) = self.into_parts();
        let (told, seat) = live.into_locked().into_parts();
        ClosedDesk {
            table,
            seat,
            told,
            bank,
            of: PhantomData,
        }
    }
}

impl<J: Naming> ClosedDesk<J> {
    /// The whole published list.
    pub fn told(&self) -> &Told
        ensures told { result.now ≡ self.now.told }
        ensures list { result.now.list ≡ J.list }
        ensures start { result.now.start ≡ J.start }
    {
        &self.told
    }

    // Waits until the list begins with what was told, which it does at once.
    fn wait_for<W: Wait>(&self, rt: &W, told: &Told)
        requires list { told.now.list ≡ J.list }
        ensures { Begins told.now self.now.told }
    {
        for _ in rt.forever() {
            if told.begins(&self.told) {
                return;
            }
            yield_now();
        }
        unreachable!()
    }

    /// The whole list begins with all that a pass has seen or learnt, and has no event of its caller that its calls did not make.
    /// It waits until the list begins so, which it does at once.
    pub fn agree<W: Wait>(&mut self, rt: &W, pass: &mut Pass<J>)
        ensures begins { Begins pass.old.worker.told self.old.told }
        ensures own { events_by pass.old.lane self.old.told.events ≡ events_by pass.old.lane pass.old.last.events }
        ensures same { (self.new ≡ self.old) × (pass.new ≡ pass.old) }
    {
        self.wait_for(rt, pass.told());
        self.table.compare(&mut self.seat, &mut pass.seat);
    }
}
