//! What stands behind the lock: the control of the switch, the published list, and the seat of all calls.
ghost use Rattle.std.specs.Prelude.{◌≡◌, ◌<◌, ◌≤◌, [], length, replicate, slice_index, IfNone, IfSome, MatchBool, ◌+◌, ◌-◌, set, true};
ghost use Rattle.ctl_core.specs.Core.{Handled, raised};
ghost use Rattle.live_desk.specs.Callers.{IsCounted};
ghost use Rattle.live_desk.specs.Mailing.{entries_of};
ghost use Rattle.live_desk.specs.Passing.{IsCalled};
ghost use Rattle.live_desk.specs.Locked.{AreCounted, IsSigned, figures_of, seat_of};
ghost use Rattle.plane_spec.specs.Planes.{opened, applied};
ghost use Rattle.pub_snap.specs.Beginnings.{Begins, IsLonger};
ghost use Rattle.pub_snap.specs.Snapshots.{all_of};
ghost use Rattle.snap_worker.specs.Working.{state_after};
ghost use Rattle.switch_spec.specs.Answer.{answer_to};
ghost use Rattle.switch_spec.specs.History.{is_unavailable};

use crate::call_steps::CallSteps;
use crate::line::Line;
use crate::loading::look;
use crate::naming::Naming;
use crate::pass::Pass;
use counter_bank::Bank;
use ctl_core::Control;
use lane_table::{JournalSeat, LaneSeat, LaneTable};
use p4_types::calls::{Call, Reply};
use p4_types::messages::DigestEntry;
use pub_snap::{Publisher, Told};
use role_arbiter::Roles;
use snap_worker::Loaded;
use std::alloc::Global;
use std::marker::Model;
use std::sync::Wait;

/// What stands behind the lock. The control is that after the published list, which has of each lane as many events as its calls
/// made steps.
pub struct Locked<J: Naming, R: Wait + Drop> {
    alloc: Global,
    control: Control,
    line: Line<J, R>,
    seat: JournalSeat<CallSteps>,
}

// Written out, so that those who let one go need not look into it.
impl<J: Naming, R: Wait + Drop> Drop for Locked<J, R> {
    fn drop(self) {
        let Self {
            alloc: _,
            control: _control,
            line: _line,
            seat: _seat,
        } = self;
    }
}

impl<J: Naming, R: Wait + Drop> Model for Locked<J, R> {
    ghost use Rattle.std.specs.Prelude.{◌≡◌, []};
    ghost use Rattle.live_desk.specs.Locked.{Locking, IsStanding, seat_of};
    ghost use Rattle.bm_expr.specs.TreeCode.{number_code, truth_code};
    ghost use Rattle.std.specs.Coded.{codes};

    ghost coded = { Prim.hlevel (codes, number_code, truth_code) };

    ghost Value = { Locking };

    ghost view = { λ l. record { told = l.line.told; made = l.seat.entries } };

    ghost invariant = { λ l.
        (l.line.pending ≡ [])
        × (l.line.told.list ≡ J.list)
        × (l.line.told.start ≡ J.start)
        × (l.seat ≡ seat_of J.table l.seat.entries)
        × IsStanding l.line.told l.control l.seat.entries };
}

// The reply to a lane's next call. Without the figures that it asks for, for want of memory, it is declined.
fn reply<J: Naming, R: Wait + Drop>(
    alloc: Global,
    control: &mut Control,
    line: &mut Line<J, R>,
    lane: u16,
    call: &Call,
    figures: &Option<Loaded>,
) -> Reply
    requires lane { lane < 32 }
    requires state { applied (opened J.start) (all_of line.old) ≡ control.old.control }
    ensures refused { IfNone figures.now (is_unavailable result.code ≡ true) }
    ensures handled { Handled control.old.control control.old.steps (all_of line.old) (answer_to control.old.control (figures_of figures.now) lane (raised (slice_index control.old.calls lane) 1) call.now) result control.new.control (all_of line.new) }
    ensures steps { result.steps ≡ control.new.steps }
    ensures counted { control.new.calls ≡ set control.old.calls lane (raised (slice_index control.old.calls lane) 1) }
{
    match figures {
        Some(figures) => control.handle(alloc, lane, call, line, figures),
        None => control.decline(alloc, lane),
    }
}

// How many steps there were.
fn steps(control: &Control) -> u64
    ensures { result ≡ control.now.steps }
{
    control.image().steps()
}

// A lane's latest call, with the steps since there were so many.
fn call_steps(control: &Control, lane: u16, before: u64) -> CallSteps
    requires { before ≤ control.now.steps }
    ensures { result ≡ record { lane = lane; steps = control.now.steps - before } }
{
    CallSteps {
        lane,
        steps: control.image().steps() - before,
    }
}

impl<J: Naming, R: Wait + Drop> Locked<J, R> {
    /// Nothing was called yet, and all lanes are claimed.
    pub fn new(
        alloc: Global,
        control: Control,
        publisher: Publisher<R>,
        seat: JournalSeat<CallSteps>,
    ) -> Locked<J, R>
        requires seat { seat ≡ seat_of J.table [] }
        requires control { control.control ≡ opened J.start }
        requires steps { control.steps ≡ 0 }
        requires calls { control.calls ≡ replicate 32 0 }
        requires list { publisher.told.list ≡ J.list }
        requires begin { publisher.told.start ≡ J.start }
        requires nothing { publisher.told.events ≡ [] }
        requires pending { publisher.pending ≡ [] }
        ensures { result ≡ record { told = publisher.told; made = [] } }
    {
        Locked {
            alloc,
            control,
            line: Line::new(publisher),
            seat,
        }
    }

    /// What is published, and the seat of all calls.
    pub fn into_parts(self) -> (Told, JournalSeat<CallSteps>)
        ensures told { result.0 ≡ self.told }
        ensures list { result.0.list ≡ J.list }
        ensures start { result.0.start ≡ J.start }
        ensures seat { result.1 ≡ seat_of J.table result.1.entries }
        ensures counted { AreCounted result.0.events result.1.entries }
    {
        let Locked {
            alloc: _,
            control: _control,
            line,
            seat,
        } = self;
        (line.tell(), seat)
    }

    /// Whether what is published begins with all that was told. If not, what was told has more.
    pub fn has(&self, told: &Told) -> bool
        requires list { told.now.list ≡ J.list }
        ensures { MatchBool result (Begins told.now self.now.told) (IsLonger self.now.told told.now) }
    {
        told.begins(&self.line.tell())
    }

    /// The roles, their sessions and their primaries.
    pub fn roles(&self) -> &Roles
        ensures { result.now ≡ (state_after self.now.told).roles }
    {
        self.control.image().roles()
    }

    /// The digest entries of the active plane, by rising id.
    pub fn digests(&self) -> &[DigestEntry]
        ensures { result.now ≡ entries_of (state_after self.now.told).active }
    {
        match self.control.image().active() {
            Some(plane) => plane.digests(),
            None => &[],
        }
    }

    /// The slot of the counters that is drawn next.
    pub fn next_slot(&self) -> u32
        ensures slot { result ≡ (state_after self.now.told).next_slot }
        ensures limit { result ≤ J.start.slots }
    {
        self.control.image().next_slot()
    }

    /// Makes a lane's next call, and publishes what it did, which is told. Without memory for the figures that it asks for it is
    /// refused for memory.
    pub fn make(
        &mut self,
        table: &LaneTable<CallSteps>,
        seat: &mut LaneSeat<CallSteps>,
        lane: u16,
        call: &Call,
        figures: &Option<Loaded>,
    ) -> (Reply, Told)
        requires table { table.now ≡ J.table }
        requires seat { seat.old.table ≡ J.table }
        requires number { seat.old.number ≡ lane }
        requires lane { lane < 32 }
        ensures signed { IsSigned lane call.now figures.now self.old.told seat.old seat.new result.0 result.1 }
        ensures seat { (seat.new.table ≡ seat.old.table) × (seat.new.number ≡ seat.old.number) }
        ensures told { self.new.told ≡ result.1 }
        ensures list { result.1.list ≡ J.list }
        ensures start { result.1.start ≡ J.start }
    {
        let before = steps(&self.control);
        let reply = reply(
            self.alloc,
            &mut self.control,
            &mut self.line,
            lane,
            call,
            figures,
        );
        let made = call_steps(&self.control, lane, before);
        self.line.publish();
        let told = self.line.tell();
        table.sign(&mut self.seat, seat, &made);
        (reply, told)
    }

    // Makes a pass's next call behind what is published, and publishes what it did.
    fn call_now(
        &mut self,
        table: &LaneTable<CallSteps>,
        bank: &Bank,
        pass: &mut Pass<J>,
        call: &Call,
    ) -> Reply
        requires table { table.now ≡ J.table }
        requires bank { bank.now.id ≡ J.bank }
        requires slots { J.start.slots ≤ bank.now.slots }
        requires begins { Begins pass.old.worker.told self.old.told }
        ensures called { IsCalled call.now result pass.old pass.new }
        ensures size { IfSome result.packet (λ packet. length packet ≤ 9216) }
        ensures told { self.new.told ≡ pass.new.last }
    {
        let slots = self.next_slot();
        let figures = look(self.alloc, bank, &mut pass.worker, slots, call);
        let (reply, told) = self.make(table, &mut pass.seat, pass.lane, call, &figures);
        pass.worker.learn(&told);
        pass.last = told;
        reply
    }

    /// Makes a pass's next call, and publishes what it did, unless what is published does not begin with all that the pass has seen
    /// or learnt. A call that reads counters sees them as the pass's own seat finds them then.
    pub fn call(
        &mut self,
        table: &LaneTable<CallSteps>,
        bank: &Bank,
        pass: &mut Pass<J>,
        call: &Call,
    ) -> Option<Reply>
        requires table { table.now ≡ J.table }
        requires bank { bank.now.id ≡ J.bank }
        requires slots { J.start.slots ≤ bank.now.slots }
        ensures called { IfSome result (λ reply. IsCalled call.now reply pass.old pass.new) }
        ensures size { IfSome result (λ reply. IfSome reply.packet (λ packet. length packet ≤ 9216)) }
        ensures told { IfSome result (λ reply. self.new.told ≡ pass.new.last) }
        ensures kept { IfNone result ((pass.new ≡ pass.old) × (self.new ≡ self.old)) }
    {
        if !self.has(pass.told()) {
            return None;
        }
        Some(self.call_now(table, bank, pass, call))
    }
}
