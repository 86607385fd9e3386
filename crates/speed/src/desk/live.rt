// The desk of a switch that serves, as it is measured.
use crate::desk::asking::Made;
use crate::desk::dealing::Load;
use crate::desk::measured::{Desk, Worker};
use live_desk::{DeskWorker, LiveDesk, Naming, Pass};
use p4_types::calls::Call;
use p4_types::code::Code;
use p4_types::records::Fate;
use pkt_worker::{Scratch, Verdict, run};
use pub_snap::{View, Viewer};
use std::sync::Wait;

/// The longest packet.
const MOST_BYTES: usize = 9_216;

impl<J: Naming + Send, R: Wait + Drop> Desk for LiveDesk<J, R> {
    type Pass = Pass<J>;

    type Worker = DeskWorker<J>;

    fn make(&self, pass: &mut Pass<J>, call: &Call, verdict: &mut Verdict) -> Made {
        let reply = self.ask(pass, call, verdict);
        let ok = match reply.code {
            Code::Ok => 1,
            _ => 0,
        };
        let steps = reply.steps;
        drop(reply);
        Made { ok, steps }
    }

    fn carry(&self, worker: &mut DeskWorker<J>, load: &Load, verdict: &mut Verdict) -> bool {
        let packet = load.packet.as_slice();
        let packet = &packet[..packet.len().min(MOST_BYTES)];
        self.run_in_burst(worker, load.port, packet, verdict);
        matches!(verdict.fate(), Fate::Sent)
    }
}

impl<J: Naming> Worker for DeskWorker<J> {
    type Viewer = Viewer;

    type View = View;

    fn end_burst(&mut self) {
        self.rest();
    }

    fn into_viewer(self) -> Viewer {
        let (viewer, seat) = self.finish();
        drop(seat);
        viewer
    }

    fn enter(viewer: Viewer) -> Result<View, Viewer> {
        viewer.enter()
    }

    fn leave(view: View) -> Viewer {
        view.leave()
    }

    fn close(viewer: Viewer) {
        drop(viewer);
    }

    fn steps(view: &View) -> u64 {
        view.image().steps()
    }

    fn port(view: &View, load: &Load, scratch: &mut Scratch, verdict: &mut Verdict) -> Option<u16> {
        let image = view.image();
        let packet = load.packet.as_slice();
        run(
            image.active(),
            image.cpu(),
            load.port,
            packet,
            scratch,
            verdict,
        );
        let (port, _) = verdict.output(0)?;
        Some(port)
    }
}
