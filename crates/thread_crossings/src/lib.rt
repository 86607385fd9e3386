//! What goes from thread to thread. Each part has its proof by itself, since a search that goes down through all of a switch runs
//! out of steps; who joins threads names the proofs of what they move and share.
#![tactic(auto)]

use counter_bank::{Bank, Seat};
use ctl_lock::{CallPass, Met, Naming, TapeDesk};
use lane_work::LaneWork;
use plane_image::Image;
use pub_snap::{Publisher, Told, View, Viewer};
use snap_worker::Worker;
use std::sync::Wait;

fn goes<T: Send>(_value: &T) {}

fn is_shared<T: Sync>(_value: &T) {}

/// The control state, what was told of the published list, and counters go from thread to thread, and threads share them.
pub fn states_cross(image: &Image, told: &Told, bank: &Bank) {
    goes(image);
    is_shared(image);
    goes(told);
    is_shared(told);
    goes(bank);
    is_shared(bank);
}

/// Who lets the published list grow, and who sees it, go from thread to thread.
pub fn viewers_cross<R: Wait + Drop + Send>(
    publisher: &Publisher<R>,
    viewer: &Viewer,
    view: &View,
) {
    goes(publisher);
    goes(viewer);
    goes(view);
}

/// Who runs packets and counts goes from thread to thread.
pub fn workers_cross(seat: &Seat, worker: &Worker, work: &LaneWork) {
    goes(seat);
    goes(worker);
    goes(work);
}

/// Who makes a lane's calls, and a call that was waited for, go from thread to thread.
pub fn passes_cross<J: Naming + Send>(pass: &CallPass<J>, met: &Met<J>) {
    goes(pass);
    goes(met);
}

/// A desk goes from thread to thread, and threads share it.
pub fn desks_cross<J: Naming + Send, R: Wait + Drop + Send>(desk: &TapeDesk<J, R>) {
    goes(desk);
    is_shared(desk);
}
