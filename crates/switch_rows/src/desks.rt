//! Desks as the steps of a row use them. A function is checked with all that can be reached from the types that it names, so what
//! a live desk consists of is named here, and where one is opened, and nowhere else.
ghost use Rattle.std.specs.Prelude.{◌≤◌, length};

use crate::telling::LastRun;
use link_loop::{EnoughRoom, LinkEnd, serve_link};
use live_desk::{ClosedDesk, DeskWorker, LiveDesk, Naming};
use mail_room::Next;
use p4_types::calls::{Call, Reply};
use p4rt_service::Desk;
use pkt_worker::Verdict;
use serve_run::{LinkPass, PortsEnd, ServedDesk, serve_ports};
use std::alloc::Global;
use std::sync::Wait;
use sw_edge::{Clock, Link, Ports, Stop};

/// What makes the calls of a lane.
pub trait RowPass: Drop {
    /// How many steps it knows.
    fn known(&self) -> u64;
}

/// What runs packets.
pub trait RowWorker: Drop {
    /// After what its last packet was run.
    fn last_run(&self) -> LastRun;
}

/// A desk at which nothing is asked any more.
pub trait RowEnd<P>: Drop {
    /// Compares a pass with it.
    fn compare<W: Wait>(&mut self, rt: &W, pass: &mut P);

    /// How many steps there were.
    fn steps(&self) -> u64;
}

/// A desk at which the steps of a row are done. It is closed in the end, and never let go.
pub trait RowDesk {
    type Pass: RowPass;

    type Worker: RowWorker;

    type Closed: RowEnd<Self::Pass>;

    /// Makes a call of a pass, as a connection does.
    fn call(&self, alloc: Global, pass: &mut Self::Pass, call: &Call) -> Reply;

    /// What a pass's lane is given at a moment, as a connection is.
    fn give(&self, alloc: Global, pass: &mut Self::Pass, now: u64) -> Option<Next>;

    /// The second of two of these passes learns what the first tells, if there are such passes.
    fn teach(&self, passes: &mut [Self::Pass], from: usize, to: usize) -> Option<()>;

    /// Runs a packet that comes at no ports.
    fn run_packet(&self, worker: &mut Self::Worker, port: u16, packet: &[u8], verdict: &mut Verdict)
        requires { length packet.now ≤ 9216 };

    /// Hands on what a packet gives to controllers, packets to this lane.
    fn hand_on(&self, receiver: Option<u16>, verdict: &Verdict, now: u64);

    /// Carries packets from ports to their end.
    fn carry<P: Ports, S: Stop, K: Clock, W: Wait>(
        &self,
        rt: &W,
        alloc: Global,
        ports: &mut P,
        stop: &mut S,
        worker: &mut Self::Worker,
        clock: &mut K,
    ) -> PortsEnd;

    /// Serves a pass's link to its end.
    fn serve<L: Link, P: Ports, K: Clock, W: Wait>(
        &self,
        rt: &W,
        alloc: Global,
        link: &mut L,
        ports: &mut P,
        pass: &mut Self::Pass,
        clock: &mut K,
    ) -> LinkEnd;

    /// Closes the desk.
    fn close(self) -> Self::Closed;
}

impl<J: Naming> RowPass for LinkPass<J> {
    fn known(&self) -> u64 {
        self.pass.told().len()
    }
}

impl<J: Naming> RowWorker for DeskWorker<J> {
    fn last_run(&self) -> LastRun {
        LastRun {
            steps: self.steps(),
            primary: self.receiver(),
        }
    }
}

impl<J: Naming> RowEnd<LinkPass<J>> for ClosedDesk<J> {
    fn compare<W: Wait>(&mut self, rt: &W, pass: &mut LinkPass<J>) {
        self.agree(rt, &mut pass.pass);
    }

    fn steps(&self) -> u64 {
        self.told().len()
    }
}

impl<J: Naming, R: Wait + Drop> RowDesk for LiveDesk<J, R> {
    type Pass = LinkPass<J>;

    type Worker = DeskWorker<J>;

    type Closed = ClosedDesk<J>;

    fn call(&self, alloc: Global, pass: &mut LinkPass<J>, call: &Call) -> Reply {
        ServedDesk::new(self).ask(alloc, pass, call)
    }

    fn give(&self, alloc: Global, pass: &mut LinkPass<J>, now: u64) -> Option<Next> {
        ServedDesk::new(self).next(alloc, pass, now)
    }

    fn teach(&self, passes: &mut [LinkPass<J>], from: usize, to: usize) -> Option<()> {
        let news = self.tell(&passes.get(from)?.pass);
        let Some(pass) = passes.get_mut(to) else {
            drop(news);
            return None;
        };
        self.learn(&mut pass.pass, &news);
        drop(news);
        Some(())
    }

    fn run_packet(
        &self,
        worker: &mut DeskWorker<J>,
        port: u16,
        packet: &[u8],
        verdict: &mut Verdict,
    ) {
        self.run(worker, port, packet, verdict);
    }

    fn hand_on(&self, receiver: Option<u16>, verdict: &Verdict, now: u64) {
        self.deliver(receiver, verdict, now);
    }

    // It promises nothing, so that the rows do not carry what `serve_ports` does.
    #[tactic(none)]
    fn carry<P: Ports, S: Stop, K: Clock, W: Wait>(
        &self,
        rt: &W,
        alloc: Global,
        ports: &mut P,
        stop: &mut S,
        worker: &mut DeskWorker<J>,
        clock: &mut K,
    ) -> PortsEnd {
        serve_ports(rt, alloc, ports, stop, self, worker, clock)
    }

    // It promises nothing, so that the rows do not carry what `serve_link` does.
    #[tactic(none)]
    fn serve<L: Link, P: Ports, K: Clock, W: Wait>(
        &self,
        rt: &W,
        alloc: Global,
        link: &mut L,
        ports: &mut P,
        pass: &mut LinkPass<J>,
        clock: &mut K,
    ) -> LinkEnd {
        serve_link(
            rt,
            alloc,
            link,
            ports,
            &ServedDesk::new(self),
            pass,
            clock,
            &mut EnoughRoom,
        )
    }

    fn close(self) -> ClosedDesk<J> {
        self.finish()
    }
}
