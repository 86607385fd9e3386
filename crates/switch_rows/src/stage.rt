//! A desk with those who use it, by their numbers.
use crate::desks::{RowDesk, RowEnd, RowPass, RowWorker};
use crate::telling::LastRun;
use link_loop::LinkEnd;
use mail_room::Next;
use p4_types::calls::{Call, Reply};
use pkt_worker::Verdict;
use real_net::ListStop;
use row_lines::NoAnswer;
use serve_run::PortsEnd;
use std::alloc::Global;
use std::sync::Wait;
use sw_edge::{Link, ListClock, MAX_PACKET, MemoryPorts};

/// What the steps of a row ask for, with lanes and workers by their numbers. There is no answer where there is no such lane or worker.
pub trait Stage {
    /// Makes a lane's call, as a connection does.
    fn call(&mut self, alloc: Global, lane: usize, call: &Call) -> Option<Reply>;

    /// Gives what waits for a lane at a moment, as a connection asks for it.
    fn next(&mut self, alloc: Global, lane: usize, now: u64) -> Option<Option<Next>>;

    /// How many steps a lane's pass knows.
    fn known(&self, lane: usize) -> Option<u64>;

    /// The second of two lanes learns what the first tells.
    fn teach(&mut self, from: usize, to: usize) -> Option<()>;

    /// Carries packets from a worker's ports, whose clock is at a moment, to their end.
    fn carry(
        &mut self,
        alloc: Global,
        worker: usize,
        ports: &mut MemoryPorts,
        now: u64,
    ) -> Option<LastRun>;

    /// Runs a packet that comes at no ports.
    fn run(&mut self, worker: usize, port: u16, packet: &[u8]) -> Option<LastRun>;

    /// What became of the last packet that a worker ran so.
    fn verdict(&self, worker: usize) -> Option<&Verdict>;

    /// Hands on what that packet gives to controllers, at a moment.
    fn deliver(&self, worker: usize, now: u64) -> Option<()>;

    /// Serves a lane's link to its end. Its packets leave at no ports.
    fn serve<L: Link>(&mut self, alloc: Global, lane: usize, link: &mut L) -> Option<LinkEnd>;
}

/// A desk, its passes by rising lane, its workers, what became of the last packet of each of them that came at no ports, and what
/// waiting needs. It is closed in the end, and never let go whole.
pub struct DeskStage<'a, W, D: RowDesk> {
    rt: &'a W,
    desk: D,
    passes: Vec<D::Pass>,
    workers: Vec<D::Worker>,
    verdicts: Vec<Verdict>,
}

/// So many verdicts.
pub fn verdicts_of(alloc: Global, number: usize) -> Result<Vec<Verdict>, NoAnswer> {
    let mut verdicts = Vec::new(alloc);
    for _ in 0..number {
        verdicts.push(Verdict::open(alloc)?)?;
    }
    Ok(verdicts)
}

// A clock that tells one moment.
fn clock_at(alloc: Global, now: u64) -> Result<ListClock, NoAnswer> {
    let mut moments = Vec::new(alloc);
    moments.push(now)?;
    Ok(ListClock::new(moments))
}

// Carries packets from a worker's ports, whose clock is at a moment, to their end.
fn carry_to_end<W: Wait, D: RowDesk>(
    rt: &W,
    alloc: Global,
    desk: &D,
    worker: &mut D::Worker,
    ports: &mut MemoryPorts,
    now: u64,
) -> Result<LastRun, NoAnswer> {
    let mut clock = clock_at(alloc, now)?;
    let mut stop = ListStop::new(Vec::new(alloc));
    let PortsEnd::Closed = desk.carry(rt, alloc, ports, &mut stop, worker, &mut clock) else {
        return Err(NoAnswer);
    };
    Ok(worker.last_run())
}

// Serves a link of a pass to its end, beside ports at which no packet comes.
fn serve_to_end<W: Wait, D: RowDesk, L: Link>(
    rt: &W,
    alloc: Global,
    desk: &D,
    pass: &mut D::Pass,
    link: &mut L,
) -> Result<LinkEnd, NoAnswer> {
    let mut clock = ListClock::new(Vec::new(alloc));
    let mut ports = MemoryPorts::new(alloc, Vec::new(alloc), 0, Vec::new(alloc), Vec::new(alloc))?;
    Ok(desk.serve(rt, alloc, link, &mut ports, pass, &mut clock))
}

// Compares each pass with a desk that was closed, and gives how many steps there were.
fn steps_of<W: Wait, P: Drop, E: RowEnd<P>>(rt: &W, closed: E, passes: Vec<P>) -> u64 {
    let mut closed = closed;
    for mut pass in passes {
        closed.compare(rt, &mut pass);
        drop(pass);
    }
    let steps = closed.steps();
    drop(closed);
    steps
}

impl<'a, W: Wait, D: RowDesk> DeskStage<'a, W, D> {
    /// A desk with its passes, the highest lane first, its workers, and a verdict for each of these.
    pub fn new(
        rt: &'a W,
        desk: D,
        passes: Vec<D::Pass>,
        workers: Vec<D::Worker>,
        verdicts: Vec<Verdict>,
    ) -> DeskStage<'a, W, D> {
        let mut passes = passes;
        passes.reverse();
        DeskStage {
            rt,
            desk,
            passes,
            workers,
            verdicts,
        }
    }

    /// Closes the desk, compares each pass with it, and gives how many steps there were.
    pub fn close(self) -> u64 {
        let Self {
            rt,
            desk,
            passes,
            workers,
            verdicts,
        } = self;
        drop(workers);
        drop(verdicts);
        steps_of(rt, desk.close(), passes)
    }
}

impl<'a, W: Wait, D: RowDesk> Stage for DeskStage<'a, W, D> {
    fn call(&mut self, alloc: Global, lane: usize, call: &Call) -> Option<Reply> {
        let pass = self.passes.get_mut(lane)?;
        Some(self.desk.call(alloc, pass, call))
    }

    fn next(&mut self, alloc: Global, lane: usize, now: u64) -> Option<Option<Next>> {
        let pass = self.passes.get_mut(lane)?;
        Some(self.desk.give(alloc, pass, now))
    }

    fn known(&self, lane: usize) -> Option<u64> {
        Some(self.passes.get(lane)?.known())
    }

    fn teach(&mut self, from: usize, to: usize) -> Option<()> {
        self.desk.teach(self.passes.as_mut_slice(), from, to)
    }

    fn carry(
        &mut self,
        alloc: Global,
        worker: usize,
        ports: &mut MemoryPorts,
        now: u64,
    ) -> Option<LastRun> {
        let worker = self.workers.get_mut(worker)?;
        carry_to_end(self.rt, alloc, &self.desk, worker, ports, now).ok()
    }

    fn run(&mut self, worker: usize, port: u16, packet: &[u8]) -> Option<LastRun> {
        if packet.len() > MAX_PACKET {
            return None;
        }
        let verdict = self.verdicts.get_mut(worker)?;
        let worker = self.workers.get_mut(worker)?;
        self.desk.run_packet(worker, port, packet, verdict);
        Some(worker.last_run())
    }

    fn verdict(&self, worker: usize) -> Option<&Verdict> {
        self.verdicts.get(worker)
    }

    fn deliver(&self, worker: usize, now: u64) -> Option<()> {
        let verdict = self.verdicts.get(worker)?;
        let worker = self.workers.get(worker)?;
        self.desk.hand_on(worker.last_run().primary, verdict, now);
        Some(())
    }

    fn serve<L: Link>(&mut self, alloc: Global, lane: usize, link: &mut L) -> Option<LinkEnd> {
        let pass = self.passes.get_mut(lane)?;
        serve_to_end(self.rt, alloc, &self.desk, pass, link).ok()
    }
}
