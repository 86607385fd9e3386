//! The desk of a switch that serves, as its threads use it.
use crate::link_pass::LinkPass;
use crate::ports::serve_ports;
use crate::served::ServedDesk;
use crate::shared_desk::{LanePass, SharedDesk};
use link_loop::{Room, serve_link};
use live_desk::{DeskWorker, LiveDesk, Naming};
use p4_types::calls::Call;
use p4_types::code::Code;
use std::alloc::Global;
use std::sync::Wait;
use std::thread::yield_now;
use sw_edge::{Clock, Link, Ports, Stop};

impl<J: Naming + Send> LanePass for LinkPass<J> {
    fn place(&self) -> usize {
        usize::from(self.pass.lane())
    }
}

// Ends what is left of a controller's session, for which it asks as often as there is no memory for it.
fn leave<J: Naming, R: Wait + Drop, W: Wait>(
    rt: &W,
    desk: &LiveDesk<J, R>,
    link: &mut LinkPass<J>,
) {
    for _ in rt.forever() {
        let reply = desk.ask(&mut link.pass, &Call::Leave, &mut link.verdict);
        if !matches!(reply.code, Code::Unavailable) {
            return;
        }
        yield_now();
    }
    unreachable!()
}

impl<J: Naming + Send, R: Wait + Drop> SharedDesk for LiveDesk<J, R> {
    type Pass = LinkPass<J>;

    type Worker = DeskWorker<J>;

    // It promises nothing, so that a thread does not carry what `serve_link` does.
    #[tactic(none)]
    fn serve<W: Wait, L: Link, P: Ports, K: Clock, O: Room>(
        &self,
        rt: &W,
        alloc: Global,
        link: &mut L,
        ports: &mut P,
        pass: &mut LinkPass<J>,
        clock: &mut K,
        room: &mut O,
    ) {
        let lane = pass.pass.lane();
        self.set_waker(lane, link.waker());
        let desk = ServedDesk::new(self);
        let _end = serve_link(rt, alloc, link, ports, &desk, pass, clock, room);
        self.set_waker(lane, None);
        leave(rt, self, pass);
    }

    #[tactic(none)]
    fn carry<W: Wait, P: Ports, S: Stop, K: Clock>(
        &self,
        rt: &W,
        alloc: Global,
        ports: &mut P,
        stop: &mut S,
        worker: &mut DeskWorker<J>,
        clock: &mut K,
    ) {
        let _end = serve_ports(rt, alloc, ports, stop, self, worker, clock);
    }

    // The published list has of each caller just what its calls made.
    fn close<W: Wait>(self, rt: &W, passes: Vec<Option<LinkPass<J>>>) {
        let mut closed = self.finish();
        for place in passes {
            if let Some(mut link) = place {
                closed.agree(rt, &mut link.pass);
            }
        }
    }
}
