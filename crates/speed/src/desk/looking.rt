// Snapshots, entered and left.
use crate::desk::asking::Done;
use crate::desk::dealing::Load;
use crate::desk::measured::Worker;
use crate::router::memory_of_run;
use list_types::NoMemory;
use pkt_worker::{Scratch, Verdict};
use std::alloc::Global;

/// What a worker looks with: its packets, and the memory that they need while they run.
#[derive(Drop)]
pub struct Sight {
    pub loads: Vec<Load>,
    pub verdict: Verdict,
    scratch: Scratch,
}

impl Sight {
    /// What looks at packets of these loads, with the memory of a run; refused for memory alone.
    pub fn open(alloc: Global, loads: Vec<Load>) -> Result<Sight, NoMemory> {
        match memory_of_run(alloc) {
            Ok((scratch, verdict)) => Ok(Sight {
                loads,
                verdict,
                scratch,
            }),
            Err(NoMemory) => {
                drop(loads);
                Err(NoMemory)
            }
        }
    }
}

// Whether all packets leave, and at one port.
fn is_whole<W: Worker>(view: &W::View, sight: &mut Sight) -> bool {
    let Sight {
        loads,
        verdict,
        scratch,
    } = sight;
    let mut all = None;
    for load in loads.as_slice() {
        let port = W::port(view, load, scratch, verdict);
        if port.is_none() || (all.is_some() && all != port) {
            return false;
        }
        all = port;
    }
    true
}

// Adds a snapshot to what was done.
fn note<W: Worker>(view: &W::View, sight: &mut Sight, done: &mut Done) {
    let steps = W::steps(view);
    done.count = done.count.saturating_add(1);
    if !is_whole::<W>(view, sight) {
        done.torn = done.torn.saturating_add(1);
    }
    if steps < done.steps {
        done.back = done.back.saturating_add(1);
    }
    done.steps = steps;
}

/// Looks at a snapshot, and says whether there was one.
pub fn look<W: Worker>(viewer: W::Viewer, sight: &mut Sight, done: &mut Done) -> (W::Viewer, bool) {
    let view = match W::enter(viewer) {
        Ok(view) => view,
        Err(viewer) => return (viewer, false),
    };
    note::<W>(&view, sight, done);
    (W::leave(view), true)
}

/// Enters a snapshot and leaves it, so many times.
pub fn enter_often<W: Worker>(worker: W, times: u64) -> Done {
    let mut viewer = worker.into_viewer();
    let mut done = Done::nothing(0);
    for _ in 0..times {
        viewer = match W::enter(viewer) {
            Ok(view) => {
                done.count = done.count.saturating_add(1);
                W::leave(view)
            }
            Err(viewer) => viewer,
        };
    }
    W::close(viewer);
    done
}
