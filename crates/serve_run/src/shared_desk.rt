//! What the threads of a switch that serves use. A function is checked with all that can be reached from the types that it names, so
//! these are known to the threads by what is asked of them alone.
ghost use Rattle.std.specs.Prelude.{◌<◌};

use link_loop::Room;
use std::alloc::Global;
use std::sync::Wait;
use sw_edge::{Clock, Link, Ports, Stop};

/// What makes the calls of a lane.
pub(crate) trait LanePass: Send + Drop {
    /// The place of its lane, 0 to 31.
    fn place(&self) -> usize
        ensures { result < 32 };
}

/// What threads share: where the calls of controllers are made, and where the packets of ports are run.
pub(crate) trait SharedDesk {
    /// What makes a controller's calls.
    type Pass: LanePass;

    /// What runs the packets of ports.
    type Worker: Send + Drop;

    /// Serves a controller's link to its end, with ports at which its packets leave, and ends what is left of its session then.
    fn serve<W: Wait, L: Link, P: Ports, K: Clock, O: Room>(
        &self,
        rt: &W,
        alloc: Global,
        link: &mut L,
        ports: &mut P,
        pass: &mut Self::Pass,
        clock: &mut K,
        room: &mut O,
    );

    /// Carries the packets of a worker's ports until these end or it is asked to stop.
    fn carry<W: Wait, P: Ports, S: Stop, K: Clock>(
        &self,
        rt: &W,
        alloc: Global,
        ports: &mut P,
        stop: &mut S,
        worker: &mut Self::Worker,
        clock: &mut K,
    );

    /// Closes it, once no thread uses it any more.
    fn close<W: Wait>(self, rt: &W, passes: Vec<Option<Self::Pass>>);
}
