//! The end of a run, once all calls are made.
ghost use Rattle.std.specs.Prelude.{◌≡◌, ◌<◌, ◌≤◌, ◌++◌, ◌∷◌, [], ℕ, IfOk};
ghost use Rattle.counter_bank.specs.Account.{Opened};
ghost use Rattle.ctl_lock.specs.Calls.{journal_of};
ghost use Rattle.ctl_lock.specs.Finishing.{Closing};
ghost use Rattle.ctl_lock.specs.Locked.{IsStanding, SeeAll};
ghost use Rattle.lane_table.specs.Lanes.{of_lane};
ghost use Rattle.lane_work.specs.Work.{steps_told};
ghost use Rattle.p4_types.specs.declared.events.Event.TheVariants.{Close};
ghost use Rattle.plane_spec.specs.Legal.{Legal};
ghost use Rattle.plane_spec.specs.Planes.{opened, applied};
ghost use Rattle.pub_snap.specs.Snapshots.{all_of};
ghost use Rattle.switch_spec.specs.Carrying.{made_on, steps_through};
ghost use Rattle.switch_spec.specs.History.{journal_events, published};

use crate::desk::TapeDesk;
use crate::line::Line;
use crate::met::Met;
use crate::naming::Naming;
use crate::pass::CallPass;
use crate::signed::Signed;
use counter_bank::Bank;
use ctl_core::{Control, Press};
use lane_table::{JournalSeat, LaneTable};
use list_types::{List, NoMemory};
use p4_types::events::Event;
use plane_state::Config;
use pub_snap::Told;
use std::alloc::Global;
use std::marker::{Model, PhantomData};
use std::sync::Wait;
use std::thread::yield_now;

/// What is left of a run once all calls are made: the journal, the whole published list, with its Close, and the counters.
pub struct ClosedDesk<J: Naming> {
    table: LaneTable<Signed>,
    seat: JournalSeat<Signed>,
    control: Control,
    journal: Vec<Signed>,
    told: Told,
    bank: Bank,
    of: PhantomData<J>,
}

// Written out, so that those who let one go need not look into it.
impl<J: Naming> Drop for ClosedDesk<J> {
    fn drop(self) {
        let Self {
            table: _table,
            seat: _seat,
            control: _control,
            journal: _journal,
            told: _told,
            bank: _bank,
            of: _,
        } = self;
    }
}

impl<J: Naming> Model for ClosedDesk<J> {
    ghost use Rattle.std.specs.Prelude.{◌≡◌};
    ghost use Rattle.ctl_lock.specs.Calls.{journal_of};
    ghost use Rattle.ctl_lock.specs.Finishing.{Closing};
    ghost use Rattle.ctl_lock.specs.Locked.{IsStanding, SeeAll, seat_of};
    ghost use Rattle.plane_spec.specs.Planes.{opened};
    ghost use Rattle.switch_spec.specs.History.{journal_events, published};
    ghost use Rattle.bm_expr.specs.TreeCode.{number_code, truth_code};
    ghost use Rattle.std.specs.Coded.{codes};

    ghost coded = { Prim.hlevel (codes, number_code, truth_code) };

    ghost Value = { Closing };

    ghost view = { λ d. record { core = d.control; journal = d.journal.items; told = d.told; bank = d.bank } };

    ghost invariant = { λ d.
        (d.table ≡ J.table)
        × (d.seat ≡ seat_of J.table d.journal.items)
        × (d.bank.id ≡ J.bank)
        × (d.told.list ≡ J.list)
        × (d.told.start ≡ J.start)
        × (d.told.events ≡ published J.start (journal_of d.journal.items))
        × IsStanding J.start (journal_events (opened J.start) (journal_of d.journal.items)) d.control (journal_of d.journal.items)
        × SeeAll (opened J.start) d.journal.items };
}

// A list of Close alone.
fn closing(alloc: Global) -> Result<List<Event<Config>>, NoMemory>
    ensures { IfOk result (λ events. events ≡ Close ∷ []) }
{
    let mut events = List::new(alloc);
    events.push(Event::Close)?;
    Ok(events)
}

// Adds Close to the list, to be published. It asks again where there is no memory.
fn close<J: Naming, R: Wait + Drop, W: Wait>(rt: &W, alloc: Global, line: &mut Line<J, R>)
    requires legal { Legal (applied (opened J.start) (all_of line.old)) (Close ∷ []) }
    ensures closed { all_of line.new ≡ all_of line.old ++ Close ∷ [] }
{
    for _ in rt.forever() {
        if let Ok(events) = closing(alloc) {
            if line.push(events).is_ok() {
                return;
            }
        }
        yield_now();
    }
    unreachable!()
}

impl<J: Naming, R: Wait + Drop> TapeDesk<J, R> {
    /// Closes the desk, once no lane makes a call any more: Close is published behind the calls.
    pub fn finish<W: Wait>(self, rt: &W) -> ClosedDesk<J>
        ensures bank { result.bank ≡ self }
    {
        let (alloc, table, bank, locked) = self.into_parts();
        let (control, mut line, journal, seat) = locked.into_parts();
        close(rt, alloc, &mut line);
        line.publish();
        let told = line.tell();
        drop(line);
        ClosedDesk {
            table,
            seat,
            control,
            journal,
            told,
            bank,
            of: PhantomData,
        }
    }
}

impl<J: Naming> ClosedDesk<J> {
    /// The published list, to its Close.
    pub fn told(&self) -> &Told
        ensures told { result.now ≡ self.now.told }
        ensures list { result.now.list ≡ J.list }
        ensures start { result.now.start ≡ J.start }
        ensures events { result.now.events ≡ published J.start (journal_of self.now.journal) }
    {
        &self.told
    }

    /// The calls that a pass made are the calls of its lane in the journal, in their order.
    pub fn agree(&mut self, pass: &mut CallPass<J>)
        ensures made { pass.old.made ≡ of_lane (λ signed. signed.entry.lane) pass.old.lane self.old.journal }
        ensures same { (self.new ≡ self.old) × (pass.new ≡ pass.old) }
    {
        self.table.compare(&mut self.seat, &mut pass.seat);
    }

    /// A worker that learnt what a meet tells learnt the steps through its call, as the journal has it.
    pub fn confirm(&mut self, met: &mut Met<J>)
        ensures through { steps_through met.old.lane met.old.call (journal_of self.old.journal) ≤ steps_told met.old.told }
        ensures same { (self.new ≡ self.old) × (met.new ≡ met.old) }
    {
        self.table.confirm(&mut self.seat, &mut met.note);
    }

    /// No lane from 32 on has made a call.
    pub fn confirm_lanes(&mut self)
        ensures others { (lane : ℕ) → 32 ≤ lane → made_on lane (journal_of self.old.journal) ≡ [] }
        ensures same { self.new ≡ self.old }
    {
        self.table.confirm_lanes(&mut self.seat);
    }

    /// The control behind the last call, the journal, and the counters.
    pub fn into_parts(self) -> (Control, Vec<Signed>, Bank)
        ensures control { result.0 ≡ self.core }
        ensures journal { result.1.items ≡ self.journal }
        ensures bank { result.2 ≡ self.bank }
        ensures name { result.2.id ≡ J.bank }
        ensures standing { IsStanding J.start (journal_events (opened J.start) (journal_of self.journal)) self.core (journal_of self.journal) }
        ensures seen { SeeAll (opened J.start) self.journal }
    {
        let ClosedDesk {
            table: _table,
            seat: _seat,
            control,
            journal,
            told: _told,
            bank,
            of: _,
        } = self;
        (control, journal, bank)
    }
}
