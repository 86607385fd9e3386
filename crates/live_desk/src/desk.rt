//! The desk at which callers make their calls.
ghost use Rattle.std.specs.Prelude.{◌≡◌, ◌⊎◌, ◌≤◌, length, IfSome, IfNone};
ghost use Rattle.live_desk.specs.Mailing.{HasCalled, IsAsked};
ghost use Rattle.live_desk.specs.Passing.{HasLearnt, HasRun, IsGiven};
ghost use Rattle.mail_room.specs.Boxes.{IsMail};
ghost use Rattle.pub_snap.specs.Beginnings.{Begins};

use crate::call_steps::CallSteps;
use crate::desk_told::DeskTold;
use crate::desk_worker::DeskWorker;
use crate::handed::Handed;
use crate::live::Live;
use crate::naming::Naming;
use crate::pass::Pass;
use crate::wakers::LinkWakers;
use counter_bank::Bank;
use lane_table::LaneTable;
use mail_room::Next;
use p4_types::calls::{Call, Reply};
use p4_types::messages::StreamMessageRequest;
use pkt_worker::Verdict;
use std::alloc::Global;
use std::marker::Model;
use std::sync::{Mutex, Wait};
use std::thread::yield_now;
use sw_edge::LinkWaker;

/// What callers share: the control of the switch and what waits for controllers behind one lock, the table of lanes, and the bank of
/// counters. It owns what waiting needs.
pub struct LiveDesk<J: Naming, R: Wait + Drop> {
    pub(crate) alloc: Global,
    pub(crate) rt: R,
    pub(crate) table: LaneTable<CallSteps>,
    pub(crate) bank: Bank,
    pub(crate) live: Mutex<Live<J, R>>,
    pub(crate) wakers: LinkWakers,
}

// Whether a call may change what other controllers are told of their standing.
fn tells_others(call: &Call) -> bool {
    matches!(
        call,
        Call::Leave | Call::Stream(Some(StreamMessageRequest::Arbitration(_)))
    )
}

// Written out, so that those who let one go need not look into it.
impl<J: Naming, R: Wait + Drop> Drop for LiveDesk<J, R> {
    fn drop(self) {
        let Self {
            alloc: _,
            rt: _rt,
            table: _table,
            bank: _bank,
            live: _live,
            wakers: _wakers,
        } = self;
    }
}

impl<J: Naming, R: Wait + Drop> Model for LiveDesk<J, R> {
    ghost use Rattle.std.specs.Prelude.{◌≡◌, ◌≤◌};
    ghost use Rattle.counter_bank.specs.Account.{Opened};

    ghost Value = { Opened };

    ghost view = { λ d. d.bank };

    ghost invariant = { λ d. (d.table ≡ J.table) × (d.bank.id ≡ J.bank) × (J.start.slots ≤ d.bank.slots) };
}

impl<J: Naming, R: Wait + Drop> LiveDesk<J, R> {
    /// A desk at which no call was made.
    pub(crate) fn new(
        alloc: Global,
        rt: R,
        table: LaneTable<CallSteps>,
        bank: Bank,
        live: Live<J, R>,
        wakers: LinkWakers,
    ) -> LiveDesk<J, R>
        requires table { table ≡ J.table }
        requires bank { bank.id ≡ J.bank }
        requires slots { J.start.slots ≤ bank.slots }
        ensures { result ≡ bank }
    {
        LiveDesk {
            alloc,
            rt,
            table,
            bank,
            live: Mutex::new(live),
            wakers,
        }
    }

    /// The table of lanes, the counters, and what stands behind the lock.
    pub(crate) fn into_parts(self) -> (LaneTable<CallSteps>, Bank, Live<J, R>)
        ensures table { result.0 ≡ J.table }
        ensures bank { result.1 ≡ self }
        ensures name { result.1.id ≡ J.bank }
    {
        let Self {
            alloc: _,
            rt: _rt,
            table,
            bank,
            live,
            wakers: _wakers,
        } = self;
        (table, bank, live.into_inner())
    }

    /// The counters.
    pub fn bank(&self) -> &Bank
        ensures bank { result.now ≡ self.now }
        ensures name { result.now.id ≡ J.bank }
        ensures slots { J.start.slots ≤ result.now.slots }
    {
        &self.bank
    }

    // Makes the pass's next call, unless the published list does not begin with all that the pass has seen or learnt.
    fn try_call(&self, pass: &mut Pass<J>, call: &Call) -> Option<Reply>
        ensures called { IfSome result (λ shown. HasCalled call.now shown pass.old pass.new) }
        ensures size { IfSome result (λ shown. IfSome shown.packet (λ packet. length packet ≤ 9216)) }
        ensures kept { IfNone result (pass.new ≡ pass.old) }
    {
        self.live
            .lock(&self.rt)
            .call(&self.table, &self.bank, pass, call)
    }

    // Makes the pass's next call. It waits until the published list begins with all that the pass has seen or learnt.
    fn call(&self, pass: &mut Pass<J>, call: &Call) -> Reply
        ensures called { HasCalled call.now result pass.old pass.new }
        ensures size { IfSome result.packet (λ packet. length packet ≤ 9216) }
    {
        for _ in self.rt.forever() {
            if let Some(reply) = self.try_call(pass, call) {
                return reply;
            }
            yield_now();
        }
        unreachable!()
    }

    /// Makes the pass's next call, and answers its reply, of whose notices it has those for the caller; the others wait for their lanes.
    /// What the call did is published then, and the packet that it makes enter is run without the lock, by the pass's own worker, which
    /// has learnt the call, into the verdict that it is lent. It waits until the published list begins with all that the pass has seen or learnt, which is so at once.
    pub fn ask(&self, pass: &mut Pass<J>, call: &Call, verdict: &mut Verdict) -> Reply
        ensures asked { IsAsked J.start.cpu call.now result pass.old pass.new }
    {
        let reply = self.call(pass, call);
        if tells_others(call) {
            self.wakers.wake_others(&self.rt, pass.lane());
        }
        pass.follow(&self.rt, self.alloc, &self.bank, &reply.packet, verdict);
        if reply.packet.is_some() {
            self.deliver(pass.worker.receiver(), verdict, 0);
        }
        reply
    }

    /// What the pass has seen or learnt, for other passes and for the workers of this desk.
    pub fn tell(&self, pass: &Pass<J>) -> DeskTold<J>
        ensures { result ≡ pass.now.worker.told }
    {
        DeskTold::new(pass.told().again())
    }

    /// The pass learns what was told at this desk: the lists of its later calls begin with it.
    pub fn learn(&self, pass: &mut Pass<J>, told: &DeskTold<J>)
        ensures one { (pass.new.worker.told ≡ pass.old.worker.told) ⊎ (pass.new.worker.told ≡ told.now) }
        ensures own { Begins pass.old.worker.told pass.new.worker.told }
        ensures learnt { Begins told.now pass.new.worker.told }
        ensures others { pass.new ≡ record pass.old { worker = record pass.old.worker { told = pass.new.worker.told } } }
    {
        pass.learn(told);
    }

    /// Runs a packet, of at most 9,216 bytes, that enters at a port, by a worker of this desk. It waits until there is a snapshot to run
    /// it on, and takes no lock and no memory.
    pub fn run(&self, worker: &mut DeskWorker<J>, port: u16, packet: &[u8], verdict: &mut Verdict)
        requires { length packet.now ≤ 9216 }
        ensures { HasRun port packet.now worker.old worker.new verdict.new }
    {
        worker.run(&self.rt, &self.bank, port, packet, verdict);
        worker.rest();
    }

    /// The same within a burst, of packets that had all come in before the first of them is run: the worker keeps its snapshot for those
    /// that follow, 32 in all. It is to rest behind the last.
    pub fn run_in_burst(
        &self,
        worker: &mut DeskWorker<J>,
        port: u16,
        packet: &[u8],
        verdict: &mut Verdict,
    )
        requires { length packet.now ≤ 9216 }
        ensures { HasRun port packet.now worker.old worker.new verdict.new }
    {
        worker.run(&self.rt, &self.bank, port, packet, verdict);
    }

    /// Hands on what a worker's packet gives to controllers, at a moment in nanoseconds: packets to the lane, where that has a session,
    /// and a sample to the lists of its digest. What finds no memory or no room is dropped. Where there is nothing to hand on, it takes
    /// no lock. The lane's link is woken.
    pub fn deliver(&self, receiver: Option<u16>, verdict: &Verdict, now: u64) {
        let handed = Handed::of(self.alloc, verdict);
        if handed.is_nothing() {
            return;
        }
        self.live.lock(&self.rt).deliver(receiver, handed, now);
        if let Some(lane) = receiver {
            self.wakers.wake(&self.rt, lane);
        }
    }

    /// The link that serves the lane's controller is woken by this from now on as soon as something waits for the controller, or by
    /// nothing. A link that is not woken finds what waits when it looks.
    pub fn set_waker(&self, lane: u16, waker: Option<LinkWaker>) {
        self.wakers.set(&self.rt, lane, waker);
    }

    // Gives what waits for the pass's lane at the desk, from which the pass learns.
    fn next_mail(&self, pass: &mut Pass<J>, now: u64) -> Option<Next>
        ensures mail { IfSome result IsMail }
        ensures learnt { HasLearnt pass.old pass.new }
    {
        let lane = pass.lane();
        self.wakers.look(lane);
        let (next, told) = self.live.lock(&self.rt).next(lane, now)?;
        if let Some(told) = told {
            pass.learn(&told);
        }
        Some(next)
    }

    /// Gives the oldest of what the pass's own packets made leave. Where nothing of that waits, it gives what waits longest for the
    /// pass's lane at a moment in nanoseconds: a notice makes the pass learn the call that made it.
    pub fn next(&self, pass: &mut Pass<J>, now: u64) -> Option<Next>
        ensures { IsGiven pass.old.waiting result pass.old pass.new }
    {
        if let Some(output) = pass.next_output() {
            return Some(Next::Output(output));
        }
        self.next_mail(pass, now)
    }
}
