//! The work of one lane.
ghost use Rattle.std.specs.Prelude.{◌≡◌, ◌⊎◌, ◌<◌, ◌≤◌, length, IfOk, IfErr, OnOk};
ghost use Rattle.counter_bank.specs.Account.{NotesAt};
ghost use Rattle.counter_bank.specs.Figures.{figures_of, AtMost};
ghost use Rattle.lane_work.specs.Running.{IsRefused};
ghost use Rattle.lane_work.specs.Work.{new_work, Ran};
ghost use Rattle.pub_snap.specs.Beginnings.{Begins};
ghost use Rattle.snap_worker.specs.Sums.{AreSums, NotesOwn, SeatLooks, noted_by};

use crate::recording::record_last;
use counter_bank::{Bank, Seat};
use list_types::{List, NoMemory, Refusal};
use p4_types::records::Record;
use p4_types::tape::Who;
use pkt_worker::Verdict;
use pub_snap::{Told, Viewer};
use snap_worker::{Loaded, NoEntry, Worker};
use std::alloc::Global;
use std::marker::Model;

/// What one lane has done in a run: the record of each packet that it ran on snapshots of the control state, and, by its seat
/// of the counters, what they hit. It takes the memory of a packet's record before it runs the next one, so that a packet
/// which is not run is not counted either. It goes from thread to thread.
pub struct LaneWork {
    who: Who,
    worker: Worker,
    records: List<Record>,
    verdict: Verdict,
    // whether the record of the last packet is still to be made, of its verdict
    is_due: bool,
}

impl Model for LaneWork {
    ghost use Rattle.bm_expr.specs.TreeCode.{number_code, truth_code};
    ghost use Rattle.lane_work.specs.Work.{Work, with_last};
    ghost use Rattle.std.specs.Coded.{codes};

    ghost coded = { Prim.hlevel (codes, number_code, truth_code) };

    ghost Value = { Work };

    ghost view = { λ w. record {
      who = w.who;
      told = w.worker.told;
      refusals = w.worker.refusals;
      steps = w.worker.steps;
      records = with_last w.who w.records w.is_due w.worker.steps w.worker.receiver w.verdict;
      seat = w.worker.seat;
    } };
}

/// What is left of a lane's work: its viewer, its seat, and its records.
#[derive(Drop)]
pub struct Finished {
    pub viewer: Viewer,
    pub seat: Seat,
    pub records: List<Record>,
}

// Written out, so that those who let one go need not look into it.
impl Drop for LaneWork {
    fn drop(self) {
        let Self {
            who: _,
            worker: _worker,
            records: _records,
            verdict: _verdict,
            is_due: _,
        } = self;
    }
}

impl LaneWork {
    /// A lane that sees by a viewer and counts by a seat. It takes the memory that a packet needs while it runs.
    pub fn open(alloc: Global, who: Who, viewer: Viewer, seat: Seat) -> Result<LaneWork, NoMemory>
        ensures { IfOk result (λ work. work ≡ new_work who viewer.told viewer.refusals seat) }
    {
        let verdict = Verdict::open(alloc)?;
        let worker = Worker::open(alloc, viewer, seat)?;
        Ok(LaneWork {
            who,
            worker,
            records: List::new(alloc),
            verdict,
            is_due: false,
        })
    }

    /// The lane.
    pub fn who(&self) -> Who
        ensures { result ≡ self.now.who }
    {
        self.who
    }

    /// What it has seen or learnt of the published list.
    pub fn told(&self) -> &Told
        ensures { result.now ≡ self.now.told }
    {
        self.worker.told()
    }

    /// How often it found no snapshot to enter; the count stands still at 2^64 - 1.
    pub fn refusals(&self) -> u64
        ensures { result ≡ self.now.refusals }
    {
        self.worker.refusals()
    }

    /// How many steps its last packet came after; 0 before the first.
    pub fn steps(&self) -> u64
        ensures { result ≡ self.now.steps }
    {
        self.worker.steps()
    }

    /// How many packets it has run.
    pub fn packets(&self) -> usize
        ensures { result ≡ length self.now.records }
    {
        if self.is_due {
            self.records.as_slice().len() + 1
        } else {
            self.records.len()
        }
    }

    /// Learns what was told of its list: later packets come after at least that.
    pub fn learn(&mut self, told: &Told)
        requires { told.now.list ≡ self.old.told.list }
        ensures one { (self.new.told ≡ self.old.told) ⊎ (self.new.told ≡ told.now) }
        ensures own { Begins self.old.told self.new.told }
        ensures learnt { Begins told.now self.new.told }
        ensures others { self.new ≡ record self.old { told = self.new.told } }
    {
        self.worker.learn(told);
    }

    /// Leaves the snapshot that the last packets were run on. Whoever publishes waits for a lane that keeps an older one, so a lane
    /// rests before it waits for another, and at its end.
    pub fn rest(&mut self)
        ensures { self.new ≡ self.old }
    {
        self.worker.rest();
    }

    /// Runs a packet, of at most 9,216 bytes, that enters at a port, on a snapshot whose list begins with all that was seen and
    /// learnt, and counts each of its hits that has a slot: one packet, and the bytes that came in. It waits for nobody.
    /// Its record is the lane's next. Without a snapshot to enter it is not run, which is counted. It keeps the snapshot for the
    /// packets that follow, 32 in all, until it learns or rests.
    pub fn run(
        &mut self,
        alloc: Global,
        bank: &Bank,
        port: u16,
        packet: &[u8],
    ) -> Result<(), Refusal<NoEntry>>
        requires bank { self.old.seat.bank ≡ bank.now.id }
        requires slots { self.old.told.start.slots ≤ bank.now.slots }
        requires packet { length packet.now ≤ 9216 }
        ensures ran { OnOk result (Ran port packet.now self.old self.new) }
        ensures refused { IfErr result (λ error. IsRefused error self.old self.new) }
        ensures bank { self.new.seat.bank ≡ self.old.seat.bank }
        ensures parts { self.new.seat.parts ≡ self.old.seat.parts }
    {
        let steps = self.worker.steps();
        let receiver = self.worker.receiver();
        record_last(
            alloc,
            self.who,
            self.is_due,
            steps,
            receiver,
            &self.verdict,
            &mut self.records,
        )?;
        self.is_due = false;
        self.worker.process(bank, port, packet, &mut self.verdict)?;
        self.is_due = true;
        let _events = self.worker.told().len();
        Ok(())
    }

    /// What the counter of a slot has counted: packets and bytes, each modulo 2^64. It is at least what this lane counted there,
    /// and at least what it read there before with what it counted since.
    pub fn count(&mut self, bank: &Bank, slot: u32) -> (u64, u64)
        requires bank { self.old.seat.bank ≡ bank.now.id }
        requires slot { slot < bank.now.slots }
        ensures figures { result ≡ figures_of self.new.seat.noted slot }
        ensures since { AtMost self.old.seat.noted self.new.seat.noted slot }
        ensures own { AtMost self.old.seat.added self.new.seat.noted slot }
        ensures same { NotesAt self.old.seat self.new.seat slot }
        ensures others { self.new ≡ record self.old { seat = self.new.seat } }
    {
        self.worker.count(bank, slot)
    }

    /// Loads the counters of so many slots, from slot 0 on: those of a slot are at least what this lane counted there, and at
    /// least what it read there before with what it counted since.
    pub fn load(&mut self, alloc: Global, bank: &Bank, slots: u32) -> Result<Loaded, NoMemory>
        requires bank { self.old.seat.bank ≡ bank.now.id }
        requires slots { slots ≤ bank.now.slots }
        ensures looks { SeatLooks self.old.seat self.new.seat }
        ensures sums { IfOk result (λ loaded. AreSums loaded (noted_by self.new.seat)) }
        ensures own { IfOk result (λ loaded. NotesOwn (length loaded) self.new.seat) }
        ensures all { IfOk result (λ loaded. length loaded ≡ slots) }
        ensures others { self.new ≡ record self.old { seat = self.new.seat } }
    {
        self.worker.load(alloc, bank, slots)
    }

    /// What is left of the work, with the record of each packet.
    pub fn finish(self, alloc: Global) -> Result<Finished, NoMemory>
        ensures viewer { IfOk result (λ left. left.viewer ≡ record { told = self.told; refusals = self.refusals }) }
        ensures seat { IfOk result (λ left. left.seat ≡ self.seat) }
        ensures records { IfOk result (λ left. left.records ≡ self.records) }
    {
        let LaneWork {
            who,
            worker,
            mut records,
            verdict,
            is_due,
        } = self;
        let steps = worker.steps();
        let receiver = worker.receiver();
        record_last(alloc, who, is_due, steps, receiver, &verdict, &mut records)?;
        let (viewer, seat) = worker.finish();
        Ok(Finished {
            viewer,
            seat,
            records,
        })
    }
}
