//! What the threads of a switch that serves share, and what each of them does.
use crate::callers::Callers;
use crate::clock::ThreadClock;
use crate::hall::Hall;
use crate::rooms::{LaneRoom, Rooms};
use crate::shared_desk::SharedDesk;
use real_net::{FlagStop, StopFlag};
use std::alloc::Global;
use std::sync::{Mutex, Wait};
use sw_edge::{Clock, Link, Ports};

/// What all threads share.
#[derive(Drop)]
pub(crate) struct Shared<D, A, R, C, L, P> {
    pub(crate) rt: R,
    pub(crate) alloc: Global,
    pub(crate) desk: D,
    pub(crate) hall: Hall<A>,
    pub(crate) callers: Callers<A, L, P>,
    pub(crate) rooms: Rooms,
    pub(crate) clock: Mutex<C>,
    pub(crate) stop: StopFlag,
}

/// A controller's link, with the pass that makes its calls and the ports at which packets of it leave.
#[derive(Drop)]
pub(crate) struct Caller<A, L, P> {
    pub(crate) pass: A,
    pub(crate) link: L,
    pub(crate) ports: P,
}

/// A worker with the ports at which its packets come in and leave.
#[derive(Drop)]
pub(crate) struct Carrier<W, P> {
    pub(crate) worker: W,
    pub(crate) ports: P,
}

/// Serves the controller's link that waits at a place to its end, and gives the pass back once its controller has left.
pub(crate) fn serve_caller<
    D: SharedDesk,
    R: Wait + Drop,
    C: Clock + Drop,
    L: Link + Drop,
    P: Ports + Drop,
>(shared: &Shared<D, D::Pass, R, C, L, P>, place: usize) {
    let rt = &shared.rt;
    let Some(caller) = shared.callers.take(rt, place) else {
        return;
    };
    let Caller {
        mut pass,
        mut link,
        mut ports,
    } = caller;
    let mut clock = ThreadClock::new(rt, &shared.clock);
    let mut room = LaneRoom::new(&shared.rooms, place);
    shared.desk.serve(
        rt,
        shared.alloc,
        &mut link,
        &mut ports,
        &mut pass,
        &mut clock,
        &mut room,
    );
    room.end();
    shared.hall.give(rt, pass);
}

/// Closes the link that waits at a place, and gives its pass back.
pub(crate) fn give_up_caller<
    D: SharedDesk,
    R: Wait + Drop,
    C: Clock + Drop,
    L: Link + Drop,
    P: Ports + Drop,
>(shared: &Shared<D, D::Pass, R, C, L, P>, place: usize) {
    let rt = &shared.rt;
    if let Some(Caller { pass, link, ports }) = shared.callers.take(rt, place) {
        drop(link);
        drop(ports);
        shared.hall.give(rt, pass);
    }
}

/// Carries the packets of a worker's ports until these end or the switch stops.
pub(crate) fn carry_packets<
    D: SharedDesk,
    R: Wait + Drop,
    C: Clock + Drop,
    L: Link + Drop,
    P: Ports + Drop,
>(shared: &Shared<D, D::Pass, R, C, L, P>, carrier: Carrier<D::Worker, P>) {
    let Carrier {
        mut worker,
        mut ports,
    } = carrier;
    let rt = &shared.rt;
    let mut clock = ThreadClock::new(rt, &shared.clock);
    let mut stop = FlagStop::new(&shared.stop);
    shared.desk.carry(
        rt,
        shared.alloc,
        &mut ports,
        &mut stop,
        &mut worker,
        &mut clock,
    );
}
