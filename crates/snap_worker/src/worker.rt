//! Workers.
ghost use Rattle.std.specs.Prelude.{◌≡◌, ◌⊎◌, ◌<◌, ◌≤◌, length, IfOk, OnOk, OnErr};
ghost use Rattle.counter_bank.specs.Account.{NotesAt};
ghost use Rattle.counter_bank.specs.Figures.{figures_of, AtMost};
ghost use Rattle.pub_snap.specs.Beginnings.{Begins};
ghost use Rattle.pub_snap.specs.Snapshots.{steps_in};
ghost use Rattle.snap_worker.specs.Counting.{after_packet};
ghost use Rattle.snap_worker.specs.Sums.{AreSums, NotesOwn, SeatLooks, noted_by};
ghost use Rattle.snap_worker.specs.Working.{new_worker, one_more, state_after, verdict_in};
ghost use Rattle.switch_spec.specs.Meaning.{receiver};

use crate::counting::count_hits;
use crate::loading::{Loaded, load};
use crate::watch::Watch;
use counter_bank::{Bank, Seat};
use list_types::{NoMemory, Refusal};
use pkt_worker::{Scratch, Verdict};
use pub_snap::{Told, Viewer};
use std::alloc::Global;
use std::marker::Model;

/// There was no snapshot to enter, which the viewer counted.
#[derive(Clone, Copy)]
pub struct NoEntry;

impl From<NoEntry> for Refusal<NoEntry> {
    ghost use Rattle.list_types.specs.declared.memory.Refusal.TheVariants as refusals;

    ghost from_gives = { λ cause e. e ≡ refusals.For cause };

    fn from(cause: NoEntry) -> Refusal<NoEntry> {
        Refusal::For(cause)
    }
}

/// One who runs packets on snapshots of the control state, and counts what they hit at a seat of the counters.
pub struct Worker {
    watch: Watch,
    seat: Seat,
    scratch: Scratch,
}

impl Model for Worker {
    ghost use Rattle.snap_worker.specs.Working.{Working};
    ghost use Rattle.bm_expr.specs.TreeCode.{number_code, truth_code};
    ghost use Rattle.std.specs.Coded.{codes};

    ghost coded = { Prim.hlevel (codes, number_code, truth_code) };

    ghost Value = { Working };

    ghost view = { λ w. record {
      told = w.watch.told;
      refusals = w.watch.refusals;
      steps = w.watch.steps;
      receiver = w.watch.receiver;
      seat = w.seat;
    } };
}

// Written out, so that those who let one go need not look into it.
impl Drop for Worker {
    fn drop(self) {
        let Self {
            watch: _watch,
            seat: _seat,
            scratch: _scratch,
        } = self;
    }
}

impl Worker {
    /// A worker that sees by a viewer and counts by a seat. It takes the memory that packets need.
    pub fn open(alloc: Global, viewer: Viewer, seat: Seat) -> Result<Worker, NoMemory>
        ensures { IfOk result (λ worker. worker ≡ new_worker viewer.told viewer.refusals seat) }
    {
        let scratch = Scratch::open(alloc)?;
        Ok(Worker {
            watch: Watch::open(viewer),
            seat,
            scratch,
        })
    }

    /// What it has seen or learnt of the published list.
    pub fn told(&self) -> &Told
        ensures { result.now ≡ self.now.told }
    {
        self.watch.told()
    }

    /// How often it found no snapshot to enter.
    pub fn refusals(&self) -> u64
        ensures { result ≡ self.now.refusals }
    {
        self.watch.refusals()
    }

    /// How many steps its last packet came after; 0 before the first.
    pub fn steps(&self) -> u64
        ensures { result ≡ self.now.steps }
    {
        self.watch.steps()
    }

    /// The lane to which its last packet went, if it went to a controller: that of the primary of role 0, if there was one.
    pub fn receiver(&self) -> Option<u16>
        ensures { result ≡ self.now.receiver }
    {
        self.watch.receiver()
    }

    /// Learns what was told of its list: later packets come after at least that.
    pub fn learn(&mut self, told: &Told)
        requires { told.now.list ≡ self.old.told.list }
        ensures one { (self.new.told ≡ self.old.told) ⊎ (self.new.told ≡ told.now) }
        ensures own { Begins self.old.told self.new.told }
        ensures learnt { Begins told.now self.new.told }
        ensures others { self.new ≡ record self.old { told = self.new.told } }
    {
        self.watch.learn(told);
    }

    /// Leaves the snapshot that the last packets were run on. Whoever publishes waits for a worker that keeps an older one, so a worker
    /// rests before it waits for somebody.
    pub fn rest(&mut self)
        ensures { self.new ≡ self.old }
    {
        self.watch.rest();
    }

    /// Runs a packet, of at most 9,216 bytes, on a snapshot whose list begins with all that was seen and learnt, and counts
    /// each of its hits that has a slot: one packet, and the bytes that came in. It waits for nobody and takes no memory. It keeps the
    /// snapshot for the packets that follow, 32 in all, until it learns or rests.
    pub fn process(
        &mut self,
        bank: &Bank,
        port: u16,
        packet: &[u8],
        out: &mut Verdict,
    ) -> Result<(), NoEntry>
        requires bank { self.old.seat.bank ≡ bank.now.id }
        requires slots { self.old.told.start.slots ≤ bank.now.slots }
        requires packet { length packet.now ≤ 9216 }
        ensures begins { OnOk result (Begins self.old.told self.new.told) }
        ensures verdict { OnOk result (out.new ≡ verdict_in (state_after self.new.told) port packet.now) }
        ensures steps { OnOk result (self.new.steps ≡ steps_in self.new.told.events) }
        ensures later { OnOk result (self.old.steps ≤ self.new.steps) }
        ensures receiver { OnOk result (self.new.receiver ≡ receiver (state_after self.new.told)) }
        ensures counted { OnOk result (self.new.seat ≡ after_packet (length packet.now) out.new.hits self.old.seat) }
        ensures bank { self.new.seat.bank ≡ self.old.seat.bank }
        ensures parts { self.new.seat.parts ≡ self.old.seat.parts }
        ensures refusals { OnOk result (self.new.refusals ≡ self.old.refusals) }
        ensures refused { OnErr result (self.new ≡ record self.old { refusals = one_more self.old.refusals }) }
        ensures kept { OnErr result (out.new ≡ out.old) }
    {
        self.watch.run(port, packet, &mut self.scratch, out)?;
        count_hits(bank, &mut self.seat, out.hits(), packet.len() as u32);
        Ok(())
    }

    /// What the counter of a slot has counted: packets and bytes, each modulo 2^64. It is at least what this worker counted there,
    /// and at least what it read there before with what it counted since.
    pub fn count(&mut self, bank: &Bank, slot: u32) -> (u64, u64)
        requires bank { self.old.seat.bank ≡ bank.now.id }
        requires slot { slot < bank.now.slots }
        ensures figures { result ≡ figures_of self.new.seat.noted slot }
        ensures since { AtMost self.old.seat.noted self.new.seat.noted slot }
        ensures own { AtMost self.old.seat.added self.new.seat.noted slot }
        ensures same { NotesAt self.old.seat self.new.seat slot }
        ensures others { self.new ≡ record self.old { seat = self.new.seat } }
    {
        bank.load(&mut self.seat, slot)
    }

    /// Loads the counters of so many slots, from slot 0 on: those of a slot are at least what this worker counted there, and at
    /// least what it read there before with what it counted since.
    pub fn load(&mut self, alloc: Global, bank: &Bank, slots: u32) -> Result<Loaded, NoMemory>
        requires bank { self.old.seat.bank ≡ bank.now.id }
        requires slots { slots ≤ bank.now.slots }
        ensures looks { SeatLooks self.old.seat self.new.seat }
        ensures sums { IfOk result (λ loaded. AreSums loaded (noted_by self.new.seat)) }
        ensures own { IfOk result (λ loaded. NotesOwn (length loaded) self.new.seat) }
        ensures all { IfOk result (λ loaded. length loaded ≡ slots) }
        ensures others { self.new ≡ record self.old { seat = self.new.seat } }
    {
        load(alloc, bank, &mut self.seat, slots)
    }

    /// The viewer, which has seen and learnt what the worker has, and the seat.
    pub fn finish(self) -> (Viewer, Seat)
        ensures viewer { result.0 ≡ record { told = self.told; refusals = self.refusals } }
        ensures seat { result.1 ≡ self.seat }
    {
        let Worker {
            watch,
            seat,
            scratch: _scratch,
        } = self;
        (watch.finish(), seat)
    }
}
