//! What runs packets that come in at ports.
ghost use Rattle.std.specs.Prelude.{◌≡◌, ◌⊎◌, ◌≤◌, length};
ghost use Rattle.live_desk.specs.Passing.{HasRun};
ghost use Rattle.pub_snap.specs.Beginnings.{Begins};

use crate::desk_told::DeskTold;
use crate::naming::Naming;
use crate::running::run_at_last;
use counter_bank::{Bank, Seat};
use pkt_worker::Verdict;
use pub_snap::Viewer;
use snap_worker::Worker;
use std::marker::{Model, PhantomData};
use std::sync::Wait;

/// Runs packets that come in at ports, on what its desk has published by then, and counts what they hit. It goes from thread to thread.
pub struct DeskWorker<J: Naming> {
    worker: Worker,
    of: PhantomData<J>,
}

// Written out, so that those who let one go need not look into it.
impl<J: Naming> Drop for DeskWorker<J> {
    fn drop(self) {
        let Self {
            worker: _worker,
            of: _,
        } = self;
    }
}

impl<J: Naming> Model for DeskWorker<J> {
    ghost use Rattle.std.specs.Prelude.{◌≡◌};
    ghost use Rattle.snap_worker.specs.Working.{Working};
    ghost use Rattle.bm_expr.specs.TreeCode.{number_code, truth_code};
    ghost use Rattle.std.specs.Coded.{codes};

    ghost coded = { Prim.hlevel (codes, number_code, truth_code) };

    ghost Value = { Working };

    ghost view = { λ d. d.worker };

    ghost invariant = { λ d.
        (d.worker.told.list ≡ J.list)
        × (d.worker.told.start ≡ J.start)
        × (d.worker.seat.bank ≡ J.bank) };
}

impl<J: Naming> DeskWorker<J> {
    /// One that knows what a worker of the desk's list and counters knows.
    pub(crate) fn new(worker: Worker) -> DeskWorker<J>
        requires list { worker.told.list ≡ J.list }
        requires start { worker.told.start ≡ J.start }
        requires bank { worker.seat.bank ≡ J.bank }
        ensures { result ≡ worker }
    {
        DeskWorker {
            worker,
            of: PhantomData,
        }
    }

    /// The worker itself.
    pub(crate) fn into_worker(self) -> Worker
        ensures { result ≡ self }
    {
        let Self { worker, of: _ } = self;
        worker
    }

    /// What it has seen or learnt of the published list, for passes and other workers of the desk.
    pub fn told(&self) -> DeskTold<J>
        ensures { result ≡ self.now.told }
    {
        DeskTold::new(self.worker.told().again())
    }

    /// Learns what was told at its desk: later packets come after at least that.
    pub fn learn(&mut self, told: &DeskTold<J>)
        ensures one { (self.new.told ≡ self.old.told) ⊎ (self.new.told ≡ told.now) }
        ensures own { Begins self.old.told self.new.told }
        ensures learnt { Begins told.now self.new.told }
        ensures others { self.new ≡ record self.old { told = self.new.told } }
    {
        self.worker.learn(told.as_told());
    }

    /// The lane to which its last packet went, if it went to a controller: that of the primary of role 0, if there was one.
    pub fn receiver(&self) -> Option<u16>
        ensures { result ≡ self.now.receiver }
    {
        self.worker.receiver()
    }

    /// How many steps its last packet came after; 0 before the first.
    pub fn steps(&self) -> u64
        ensures { result ≡ self.now.steps }
    {
        self.worker.steps()
    }

    /// Leaves the snapshot that the last packets of a burst were run on. Whoever publishes waits for a worker that keeps an older one, so
    /// a worker rests behind a burst, before it waits for anybody.
    pub fn rest(&mut self)
        ensures { self.new ≡ self.old }
    {
        self.worker.rest();
    }

    /// Runs a packet, of at most 9,216 bytes, that enters at a port. Where there is no snapshot to enter it asks again. It may keep the
    /// snapshot.
    pub(crate) fn run<R: Wait>(
        &mut self,
        rt: &R,
        bank: &Bank,
        port: u16,
        packet: &[u8],
        verdict: &mut Verdict,
    )
        requires bank { bank.now.id ≡ J.bank }
        requires slots { J.start.slots ≤ bank.now.slots }
        requires packet { length packet.now ≤ 9216 }
        ensures ran { HasRun port packet.now self.old self.new verdict.new }
    {
        run_at_last(rt, bank, &mut self.worker, port, packet, verdict);
    }

    /// The viewer, which has seen and learnt what the worker has, and the seat of the desk's counters.
    pub fn finish(self) -> (Viewer, Seat)
        ensures viewer { result.0 ≡ record { told = self.told; refusals = self.refusals } }
        ensures seat { result.1 ≡ self.seat }
        ensures bank { result.1.bank ≡ J.bank }
    {
        self.into_worker().finish()
    }
}
