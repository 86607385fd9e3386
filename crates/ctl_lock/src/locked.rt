//! What stands behind the lock: the control of the switch, the published list, and the journal.
ghost use Rattle.std.specs.Prelude.{◌≡◌, ◌<◌, ◌≤◌, ◌+◌, ◌^◌, [], length, replicate, drop, slice_index, set, IfOk, IfSome, IfNone, OnOk, OnErr, true, ℕ};
ghost use Rattle.ctl_core.specs.Core.{Handled, raised};
ghost use Rattle.ctl_lock.specs.Calls.{journal_of};
ghost use Rattle.snap_worker.specs.Sums.{figures_in};
ghost use Rattle.ctl_lock.specs.Locked.{IsRead, IsHandled, IsEntry, IsCalled, IsStanding, SeeAll, reads, seat_of};
ghost use Rattle.lane_work.specs.Work.{steps_told};
ghost use Rattle.plane_spec.specs.Planes.{opened, applied};
ghost use Rattle.pub_snap.specs.Snapshots.{all_of};
ghost use Rattle.switch_spec.specs.Answer.{called};
ghost use Rattle.switch_spec.specs.Carrying.{made_on, steps_through};
ghost use Rattle.switch_spec.specs.History.{is_unavailable};

use crate::line::Line;
use crate::naming::Naming;
use crate::signed::Signed;
use ctl_core::Control;
use lane_table::{JournalSeat, LaneSeat, LaneTable, Note};
use list_types::{ByteList, NoMemory};
use p4_types::calls::{Call, Reply};
use p4_types::journal::Entry;
use pub_snap::{Publisher, Told};
use snap_worker::Loaded;
use std::alloc::Global;
use std::marker::Model;
use std::sync::Wait;
use switch_spec::calls::LaneCall;

/// What stands behind the lock. The journal is a history, its events are those of the published list, and all lanes are claimed.
pub struct Locked<J: Naming, R: Wait + Drop> {
    alloc: Global,
    control: Control,
    line: Line<J, R>,
    journal: Vec<Signed>,
    seat: JournalSeat<Signed>,
}

// Written out, so that those who let one go need not look into it.
impl<J: Naming, R: Wait + Drop> Drop for Locked<J, R> {
    fn drop(self) {
        let Self {
            alloc: _,
            control: _control,
            line: _line,
            journal: _journal,
            seat: _seat,
        } = self;
    }
}

impl<J: Naming, R: Wait + Drop> Model for Locked<J, R> {
    ghost use Rattle.std.specs.Prelude.{◌≡◌, []};
    ghost use Rattle.ctl_lock.specs.Calls.{journal_of};
    ghost use Rattle.ctl_lock.specs.Locked.{Locking, IsStanding, SeeAll, seat_of};
    ghost use Rattle.plane_spec.specs.Planes.{opened};
    ghost use Rattle.pub_snap.specs.Snapshots.{all_of};
    ghost use Rattle.bm_expr.specs.TreeCode.{number_code, truth_code};
    ghost use Rattle.std.specs.Coded.{codes};

    ghost coded = { Prim.hlevel (codes, number_code, truth_code) };

    ghost Value = { Locking };

    ghost view = { λ l. record { core = l.control; events = all_of l.line; journal = l.journal.items } };

    ghost invariant = { λ l.
        (l.line.pending ≡ [])
        × (l.seat ≡ seat_of J.table l.journal.items)
        × IsStanding J.start (all_of l.line) l.control (journal_of l.journal.items)
        × SeeAll (opened J.start) l.journal.items };
}

/// What a call that was made comes to beside its entry: the packet that it makes enter, or want of memory for it, and what is
/// published behind the call.
#[derive(Drop)]
pub struct Outcome {
    pub packet: Result<Option<ByteList>, NoMemory>,
    pub told: Told,
}

// A copy of a packet.
fn copied(alloc: Global, packet: &Option<ByteList>) -> Result<Option<ByteList>, NoMemory>
    ensures { IfOk result (λ copy. copy ≡ packet.now) }
{
    let Some(packet) = packet else {
        return Ok(None);
    };
    let mut copy = ByteList::new(alloc);
    copy.extend_from_slice(packet.as_slice())?;
    Ok(Some(copy))
}

// The reply to a lane's next call.
fn reply<J: Naming, R: Wait + Drop>(
    alloc: Global,
    control: &mut Control,
    line: &mut Line<J, R>,
    lane: u16,
    read: &Option<Call>,
    figures: &Loaded,
) -> Reply
    requires lane { lane < 32 }
    requires state { applied (opened J.start) (all_of line.old) ≡ control.old.control }
    ensures refused { IfNone read.now (is_unavailable result.code ≡ true) }
    ensures handled { (call : LaneCall) → IsRead call read.now → IsHandled lane (figures_in figures.now) (called call) control.old (all_of line.old) result control.new (all_of line.new) }
{
    match read {
        Some(call) => control.handle(alloc, lane, call, line, figures),
        None => control.decline(alloc, lane),
    }
}

// The entry of a lane's latest call, with the steps of the events behind the first so many.
fn entry<J: Naming, R: Wait + Drop, W: Wait>(
    rt: &W,
    control: &Control,
    line: &Line<J, R>,
    lane: u16,
    before: usize,
    reply: Reply,
) -> Entry
    requires lane { lane < 32 }
    requires before { before ≤ length (all_of line.now) }
    ensures entry { IsEntry lane (slice_index control.now.calls lane) (drop before (all_of line.now)) reply result }
    ensures few { length (all_of line.now) < 2 ^ 64 }
{
    Entry {
        lane,
        call: control.calls_of(lane),
        steps: line.steps_after(rt, before),
        reply,
    }
}

impl<J: Naming, R: Wait + Drop> Locked<J, R> {
    /// Nothing was called yet.
    pub fn new(
        alloc: Global,
        control: Control,
        publisher: Publisher<R>,
        seat: JournalSeat<Signed>,
    ) -> Locked<J, R>
        requires seat { seat ≡ seat_of J.table [] }
        requires control { control.control ≡ opened J.start }
        requires steps { control.steps ≡ 0 }
        requires calls { control.calls ≡ replicate 32 0 }
        requires list { publisher.told.list ≡ J.list }
        requires begin { publisher.told.start ≡ J.start }
        requires nothing { all_of publisher ≡ [] }
        requires pending { publisher.pending ≡ [] }
        ensures { result ≡ record { core = control; events = []; journal = [] } }
    {
        Locked {
            alloc,
            control,
            line: Line::new(alloc, publisher),
            journal: Vec::new(alloc),
            seat,
        }
    }

    /// The control, the list, the journal and its seat.
    pub fn into_parts(self) -> (Control, Line<J, R>, Vec<Signed>, JournalSeat<Signed>)
        ensures seat { result.3 ≡ seat_of J.table result.2.items }
        ensures standing { IsStanding J.start (all_of result.1) result.0 (journal_of result.2.items) }
        ensures seen { SeeAll (opened J.start) result.2.items }
        ensures pending { result.1.pending ≡ [] }
        ensures control { result.0 ≡ self.core }
        ensures events { all_of result.1 ≡ self.events }
        ensures journal { result.2.items ≡ self.journal }
    {
        let Locked {
            alloc: _,
            control,
            line,
            journal,
            seat,
        } = self;
        (control, line, journal, seat)
    }

    /// Makes a lane's next call, which was read before, unless there was no memory for that, and publishes what it did. Without memory
    /// for its entry it is not made.
    #[allow(clippy::too_many_arguments)]
    pub fn make<W: Wait>(
        &mut self,
        rt: &W,
        table: &LaneTable<Signed>,
        seat: &mut LaneSeat<Signed>,
        lane: u16,
        call: LaneCall,
        read: &Option<Call>,
        figures: Loaded,
    ) -> Result<Outcome, NoMemory>
        requires table { table.now ≡ J.table }
        requires seat { seat.old.table ≡ J.table }
        requires number { seat.old.number ≡ lane }
        requires lane { lane < 32 }
        requires read { IsRead call read.now }
        requires drawn { IfSome read.now (λ call. reads call ≡ true → length figures ≡ self.old.core.control.next_slot) }
        ensures made { IfOk result (IsCalled J.start J.list call figures seat.old seat.new) }
        ensures journal { OnOk result (length self.new.journal ≡ length self.old.journal + 1) }
        ensures kept { OnErr result (seat.new ≡ seat.old) }
        ensures same { OnErr result (self.new ≡ self.old) }
    {
        self.journal.reserve(1)?;
        let before = self.line.len();
        let reply = reply(
            self.alloc,
            &mut self.control,
            &mut self.line,
            lane,
            read,
            &figures,
        );
        let packet = copied(self.alloc, &reply.packet);
        let entry = entry(rt, &self.control, &self.line, lane, before, reply);
        let signed = Signed {
            call,
            figures,
            entry,
        };
        table.sign(&mut self.seat, seat, &signed);
        self.journal.push_reserved(signed);
        // its length is a number of the machine, as the numbers of calls have to be
        let _made = self.journal.len();
        self.line.publish();
        Ok(Outcome {
            packet,
            told: self.line.tell(),
        })
    }

    /// How many calls a lane has made, what is published, and a note of the journal, which has those calls.
    pub(crate) fn noted(
        &mut self,
        table: &LaneTable<Signed>,
        lane: u16,
    ) -> (u64, Told, Note<Signed>)
        requires table { table.now ≡ J.table }
        requires lane { lane < 32 }
        ensures number { result.0 ≡ length (made_on lane (journal_of result.2.entries)) }
        ensures through { (call : ℕ) → call ≤ result.0 → steps_through lane call (journal_of result.2.entries) ≤ steps_told result.1 }
        ensures list { result.1.list ≡ J.list }
        ensures start { result.1.start ≡ J.start }
        ensures noted { result.2 ≡ record { table = J.table; entries = self.old.journal } }
        ensures same { self.new ≡ self.old }
    {
        let number = self.control.calls_of(lane);
        let note = table.note(&mut self.seat);
        (number, self.line.tell(), note)
    }

    /// The slot of the counters that is drawn next.
    pub fn next_slot(&self) -> u32
        ensures slot { result ≡ self.now.core.control.next_slot }
        ensures limit { result ≤ J.start.slots }
    {
        self.control.image().next_slot()
    }
}
