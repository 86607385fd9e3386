// Four threads make calls under a lock.
ghost use Rattle.std.specs.Prelude.{◌≡◌, ◌+◌, [], OnOk};
ghost use Rattle.lane_table.specs.Lanes.{new_journal};
ghost use Rattle.lane_tests.specs.Made.{steps_in, four_lanes, unused};

use lane_table::{JournalSeat, LaneSeat, LaneTable};
use list_types::{List, NoMemory};
use p4_types::calls::Reply;
use p4_types::code::Code;
use p4_types::journal::Entry;
use std::alloc::Global;
use std::marker::{Brand, Model, PhantomData};
use std::process::Abort;
use std::sync::{Mutex, Wait};
use std::test::Fail;
use std::thread::{Threads, for_each_mut};

const CALLS: u32 = 20_000;

// Which table it is.
trait Naming {
    ghost use Rattle.lane_table.specs.Lanes.{LaneTableId};

    ghost table: { LaneTableId };
}

impl Naming for Brand {
    ghost use Rattle.lane_table.specs.Lanes.{no_table};

    ghost table = { no_table };
}

// What lies under the lock.
struct Shared<J: Naming> {
    seat: JournalSeat<Entry>,
    journal: Vec<Entry>,
    of: PhantomData<J>,
}

// Written out, as that of a lane is, so that those who let one go need not look into it.
impl<J: Naming> Drop for Shared<J> {
    fn drop(self) {
        let Self {
            seat: _seat,
            journal: _journal,
            of: _,
        } = self;
    }
}

impl<J: Naming> Model for Shared<J> {
    ghost use Rattle.std.specs.Prelude.{◌≡◌, List};
    ghost use Rattle.p4_types.specs.declared.journal.Entry.{Entry};
    ghost use Rattle.lane_tests.specs.Made.{four_lanes};

    ghost Value = { List Entry };

    ghost view = { λ s. s.journal.items };

    ghost invariant = { λ s. s.seat ≡ four_lanes J.table s.journal.items };
}

// A lane, and the steps of the answers to its calls.
struct Pass<J: Naming> {
    seat: LaneSeat<Entry>,
    lane: u16,
    steps: Vec<u64>,
    of: PhantomData<J>,
}

impl<J: Naming> Drop for Pass<J> {
    fn drop(self) {
        let Self {
            seat: _seat,
            lane: _,
            steps: _steps,
            of: _,
        } = self;
    }
}

impl<J: Naming> Model for Pass<J> {
    ghost use Rattle.std.specs.Prelude.{◌≡◌};
    ghost use Rattle.lane_tests.specs.Made.{Answered, steps_of};

    ghost Value = { Answered };

    ghost view = { λ p. record { lane = p.lane; steps = p.steps.items } };

    ghost invariant = { λ p. (p.seat.table ≡ J.table) × (p.seat.number ≡ p.lane) × (steps_of p.seat.entries ≡ p.steps.items) };
}

impl<J: Naming> Pass<J> {
    fn new(alloc: Global, seat: LaneSeat<Entry>, lane: u16) -> Pass<J>
        requires { seat ≡ unused J.table lane }
        ensures { result.lane ≡ lane }
    {
        Pass {
            seat,
            lane,
            steps: Vec::new(alloc),
            of: PhantomData,
        }
    }
}

fn answer(alloc: Global, steps: u64) -> Reply
    ensures { result.steps ≡ steps }
{
    Reply {
        code: Code::Ok,
        messages: List::new(alloc),
        notices: List::new(alloc),
        steps,
        packet: None,
    }
}

fn entry_of(alloc: Global, lane: u16, steps: u64) -> Entry
    ensures { (result.lane ≡ lane) × (result.reply.steps ≡ steps) }
{
    Entry {
        lane,
        call: 1,
        steps: List::new(alloc),
        reply: answer(alloc, steps),
    }
}

impl<J: Naming> Shared<J> {
    fn new(alloc: Global, seat: JournalSeat<Entry>) -> Shared<J>
        requires { seat ≡ four_lanes J.table [] }
        ensures { result ≡ [] }
    {
        Shared {
            seat,
            journal: Vec::new(alloc),
            of: PhantomData,
        }
    }

    // The lane's next call, which is the journal's next entry.
    fn make(
        &mut self,
        alloc: Global,
        table: &LaneTable<Entry>,
        pass: &mut Pass<J>,
    ) -> Result<(), NoMemory>
        requires { table.now ≡ J.table }
        ensures { pass.new.lane ≡ pass.old.lane }
    {
        self.journal.reserve(1)?;
        pass.steps.reserve(1)?;
        let steps = self.journal.len() as u64;
        let entry = entry_of(alloc, pass.lane, steps);
        table.sign(&mut self.seat, &mut pass.seat, &entry);
        self.journal.push_reserved(entry);
        pass.steps.push_reserved(steps);
        Ok(())
    }

    // The answers that the pass had are those that the journal has of its lane.
    fn compare(&mut self, table: &LaneTable<Entry>, pass: &mut Pass<J>)
        requires { table.now ≡ J.table }
        ensures answers { pass.new.steps ≡ steps_in self.new pass.new.lane }
        ensures same { (self.new ≡ self.old) × (pass.new ≡ pass.old) }
    {
        table.compare(&mut self.seat, &mut pass.seat);
    }
}

// The calls of a lane. It makes fewer where memory is short, and then the pass is not whole.
fn make_all<J: Naming, R: Wait>(
    rt: &R,
    alloc: Global,
    table: &LaneTable<Entry>,
    shared: &Mutex<Shared<J>>,
    pass: &mut Pass<J>,
)
    requires { table.now ≡ J.table }
    ensures { pass.new.lane ≡ pass.old.lane }
{
    for _ in 0..CALLS {
        if shared.lock(rt).make(alloc, table, pass).is_err() {
            return;
        }
    }
}

// Makes the calls of each lane, each lane on a thread of its own.
fn make_in_threads<J: Naming + Send + Sync, R: Threads + Wait + Sync>(
    rt: &R,
    alloc: Global,
    table: &LaneTable<Entry>,
    shared: &Mutex<Shared<J>>,
    passes: &mut [Pass<J>],
)
    requires { table.now ≡ J.table }
{
    let make = move |_place: usize, pass: &mut Pass<J>|
        requires { table.now ≡ J.table }
    { make_all(rt, alloc, table, shared, pass) };
    for_each_mut(rt, passes, 4, &make);
}

// Whether the journal's entries of a lane are just the calls that its pass has made.
fn is_whole(journal: &[Entry], lane: u16, steps: &[u64]) -> bool {
    let mut found = 0;
    for entry in journal {
        if entry.lane == lane {
            if found >= steps.len() || entry.reply.steps != steps[found] {
                return false;
            }
            found += 1;
        }
    }
    found == steps.len() && found == CALLS as usize
}

fn check<J: Naming, R: Abort>(
    rt: &R,
    table: &LaneTable<Entry>,
    shared: &mut Shared<J>,
    passes: &mut [Pass<J>],
)
    requires { table.now ≡ J.table }
{
    for place in 0..passes.len() {
        let pass = &mut passes[place];
        shared.compare(table, pass);
        assert!(rt; is_whole(shared.journal.as_slice(), pass.lane, pass.steps.as_slice()));
    }
    table.confirm_lanes(&mut shared.seat);
    assert!(rt; passes.len() == 4 && shared.journal.len() == 4 * CALLS as usize);
}

// Claims four lanes.
fn claim_four<J: Naming>(
    alloc: Global,
    table: &LaneTable<Entry>,
    seat: &mut JournalSeat<Entry>,
) -> Result<Vec<Pass<J>>, NoMemory>
    requires table { table.now ≡ J.table }
    requires seat { seat.old ≡ new_journal J.table }
    ensures { OnOk result (seat.new ≡ four_lanes J.table []) }
{
    let mut passes = Vec::new(alloc);
    passes.push(Pass::<J>::new(alloc, table.claim(seat), 0))?;
    passes.push(Pass::<J>::new(alloc, table.claim(seat), 1))?;
    passes.push(Pass::<J>::new(alloc, table.claim(seat), 2))?;
    passes.push(Pass::<J>::new(alloc, table.claim(seat), 3))?;
    Ok(passes)
}

fn make_by_four<J: Naming + Send + Sync, R: Threads + Wait + Abort + Sync>(
    rt: &R,
    alloc: Global,
    table: &LaneTable<Entry>,
    seat: JournalSeat<Entry>,
) -> Result<(), NoMemory>
    requires table { table.now ≡ J.table }
    requires seat { seat ≡ new_journal J.table }
{
    let mut seat = seat;
    let mut passes = claim_four::<J>(alloc, table, &mut seat)?;
    let shared = Mutex::new(Shared::<J>::new(alloc, seat));
    make_in_threads(rt, alloc, table, &shared, passes.as_mut_slice());
    let mut shared = shared.into_inner();
    check(rt, table, &mut shared, passes.as_mut_slice());
    drop(shared);
    drop(passes);
    Ok(())
}

#[test]
fn four_threads_make_the_calls_of_one_journal(rt: HostRuntime) -> Result<(), Fail> {
    let (table, seat) = LaneTable::<Entry>::open(rt.alloc())?;
    make_by_four::<Brand, _>(&rt, rt.alloc(), &table, seat)?;
    Ok(())
}

#[test]
fn a_note_is_confirmed_later(rt: HostRuntime) -> Result<(), Fail> {
    let (table, mut seat) = LaneTable::<Entry>::open(rt.alloc())?;
    let mut lane = table.claim(&mut seat);
    let mut note = table.note(&mut seat);
    let entry = entry_of(rt.alloc(), 0, 1);
    table.sign(&mut seat, &mut lane, &entry);
    table.confirm(&mut seat, &mut note);
    table.compare(&mut seat, &mut lane);
    table.confirm_lanes(&mut seat);
    Ok(())
}
