//! What makes the calls of a caller.
ghost use Rattle.std.specs.Prelude.{◌≡◌, ◌⊎◌, ◌<◌, ◌≤◌, [], drop, length, slice_get, IfSome};
ghost use Rattle.live_desk.specs.Passing.{HasFollowed};
ghost use Rattle.pub_snap.specs.Beginnings.{Begins};

use crate::call_steps::CallSteps;
use crate::desk_told::DeskTold;
use crate::desk_worker::DeskWorker;
use crate::naming::Naming;
use crate::running::{keep_outputs, run_alone};
use counter_bank::Bank;
use lane_table::LaneSeat;
use list_types::ByteList;
use p4_types::records::Output;
use pkt_worker::Verdict;
use pub_snap::Told;
use snap_worker::Worker;
use std::alloc::Global;
use std::collections::VecDeque;
use std::marker::{Model, PhantomData};
use std::sync::Wait;

/// Makes the calls of one caller, one after another, with a worker of its own. It keeps none of them. It goes from thread to thread.
pub struct Pass<J: Naming> {
    pub(crate) lane: u16,
    // the port at which packets of controllers enter
    cpu: u16,
    pub(crate) seat: LaneSeat<CallSteps>,
    pub(crate) last: Told,
    pub(crate) worker: Worker,
    waiting: VecDeque<Output>,
    of: PhantomData<J>,
}

impl<J: Naming> Model for Pass<J> {
    ghost use Rattle.std.specs.Prelude.{◌≡◌, ◌<◌, length};
    ghost use Rattle.live_desk.specs.Callers.{IsCounted};
    ghost use Rattle.live_desk.specs.Passing.{Passing};
    ghost use Rattle.pub_snap.specs.Beginnings.{Begins};
    ghost use Rattle.bm_expr.specs.TreeCode.{number_code, truth_code};
    ghost use Rattle.std.specs.Coded.{codes};

    ghost coded = { Prim.hlevel (codes, number_code, truth_code) };

    ghost Value = { Passing };

    ghost view = { λ p. record { lane = p.lane; calls = length p.seat.entries; last = p.last; worker = p.worker; waiting = p.waiting.items } };

    ghost invariant = { λ p.
        (p.seat.table ≡ J.table)
        × (p.seat.number ≡ p.lane)
        × (p.lane < 32)
        × (p.cpu ≡ J.start.cpu)
        × (p.last.list ≡ J.list)
        × (p.last.start ≡ J.start)
        × Begins p.last p.worker.told
        × (p.worker.seat.bank ≡ J.bank)
        × IsCounted p.lane p.last.events p.seat.entries };
}

// Written out, so that those who let one go need not look into it.
impl<J: Naming> Drop for Pass<J> {
    fn drop(self) {
        let Self {
            lane: _,
            cpu: _,
            seat: _seat,
            last: _last,
            worker: _worker,
            waiting: _waiting,
            of: _,
        } = self;
    }
}

impl<J: Naming> Pass<J> {
    /// The pass of a lane that has made no call, whose worker has seen the start of the list alone. It takes no memory.
    pub fn open(
        alloc: Global,
        lane: u16,
        cpu: u16,
        seat: LaneSeat<CallSteps>,
        worker: DeskWorker<J>,
    ) -> Pass<J>
        requires table { seat.table ≡ J.table }
        requires number { seat.number ≡ lane }
        requires lane { lane < 32 }
        requires cpu { cpu ≡ J.start.cpu }
        requires nothing { seat.entries ≡ [] }
        requires events { worker.told.events ≡ [] }
        ensures { result ≡ record { lane = lane; calls = 0; last = worker.told; worker = worker; waiting = [] } }
    {
        let worker = worker.into_worker();
        let last = worker.told().again();
        Pass {
            lane,
            cpu,
            seat,
            last,
            worker,
            waiting: VecDeque::new(alloc),
            of: PhantomData,
        }
    }

    /// The caller's lane, 0 to 31.
    pub fn lane(&self) -> u16
        ensures lane { result ≡ self.now.lane }
        ensures range { result < 32 }
    {
        self.lane
    }

    /// The published list through its last call, with that call's events.
    pub(crate) fn last_told(&self) -> DeskTold<J>
        ensures { result ≡ self.now.last }
    {
        DeskTold::new(self.last.again())
    }

    /// What it has seen or learnt of the published list.
    pub fn told(&self) -> &Told
        ensures told { result.now ≡ self.now.worker.told }
        ensures list { result.now.list ≡ J.list }
        ensures start { result.now.start ≡ J.start }
    {
        self.worker.told()
    }

    /// Learns what was told of the list.
    pub(crate) fn learn(&mut self, told: &DeskTold<J>)
        ensures one { (self.new.worker.told ≡ self.old.worker.told) ⊎ (self.new.worker.told ≡ told.now) }
        ensures own { Begins self.old.worker.told self.new.worker.told }
        ensures learnt { Begins told.now self.new.worker.told }
        ensures others { self.new ≡ record self.old { worker = record self.old.worker { told = self.new.worker.told } } }
    {
        self.worker.learn(told.as_told());
    }

    /// Runs the packet that the last call made enter, if it made one, of at most 9,216 bytes, into the verdict that it is lent. What
    /// leaves waits in the pass. It asks again where there is no snapshot to enter, or no memory for what leaves.
    pub(crate) fn follow<R: Wait>(
        &mut self,
        rt: &R,
        alloc: Global,
        bank: &Bank,
        packet: &Option<ByteList>,
        verdict: &mut Verdict,
    )
        requires bank { bank.now.id ≡ J.bank }
        requires slots { J.start.slots ≤ bank.now.slots }
        requires packet { IfSome packet.now (λ packet. length packet ≤ 9216) }
        ensures followed { HasFollowed packet.now J.start.cpu self.old self.new }
    {
        let Some(packet) = packet else {
            return;
        };
        run_alone(
            rt,
            bank,
            &mut self.worker,
            self.cpu,
            packet.as_slice(),
            verdict,
        );
        keep_outputs(rt, alloc, verdict, &mut self.waiting);
    }

    /// Takes what waits longest of what the pass's packets made leave.
    pub fn next_output(&mut self) -> Option<Output>
        ensures oldest { result ≡ slice_get self.old.waiting 0 }
        ensures rest { self.new ≡ record self.old { waiting = drop 1 self.old.waiting } }
    {
        self.waiting.pop_front()
    }

    /// The worker, with what it has seen, learnt and counted.
    pub fn into_worker(self) -> Worker
        ensures { result ≡ self.worker }
    {
        let Self {
            lane: _,
            cpu: _,
            seat: _seat,
            last: _last,
            worker,
            waiting: _waiting,
            of: _,
        } = self;
        worker
    }
}
