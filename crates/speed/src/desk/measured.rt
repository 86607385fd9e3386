// What is measured of a desk. Whoever makes calls, runs packets or looks at snapshots need not know what a desk is made of.
use crate::desk::asking::Made;
use crate::desk::dealing::Load;
use p4_types::calls::Call;
use pkt_worker::{Scratch, Verdict};

/// A desk, at which calls are made, each with a pass, and packets are run, each by a worker.
pub trait Desk {
    /// What calls are made with.
    type Pass: Send + Drop;

    /// What runs packets.
    type Worker: Worker + Send + Drop;

    /// Makes a call, whose packet is run into a verdict, and says what came of it.
    fn make(&self, pass: &mut Self::Pass, call: &Call, verdict: &mut Verdict) -> Made;

    /// Runs a packet within a burst. Whether it was sent.
    fn carry(&self, worker: &mut Self::Worker, load: &Load, verdict: &mut Verdict) -> bool;
}

/// A worker of a desk, which runs packets in bursts, or else looks at snapshots.
pub trait Worker {
    /// What enters snapshots, one after another.
    type Viewer;

    /// A snapshot that was entered.
    type View;

    /// Leaves the snapshot of its last burst.
    fn end_burst(&mut self);

    /// What looks at snapshots in its place.
    fn into_viewer(self) -> Self::Viewer;

    /// Enters a snapshot, if there is one to enter.
    fn enter(viewer: Self::Viewer) -> Result<Self::View, Self::Viewer>;

    /// Leaves a snapshot.
    fn leave(view: Self::View) -> Self::Viewer;

    /// Lets go what looks at snapshots.
    fn close(viewer: Self::Viewer);

    /// How many steps a snapshot is after.
    fn steps(view: &Self::View) -> u64;

    /// The port at which a packet that is run on a snapshot leaves, if it leaves at one.
    fn port(
        view: &Self::View,
        load: &Load,
        scratch: &mut Scratch,
        verdict: &mut Verdict,
    ) -> Option<u16>;
}
