//! What goes from thread to thread of a desk that serves, part by part: who joins threads names the proofs of what they move and share.
#![tactic(auto)]

use live_desk::{DeskWorker, LiveDesk, Naming, Pass};
use std::sync::Wait;

fn goes<T: Send>(_value: &T) {}

fn is_shared<T: Sync>(_value: &T) {}

/// Who makes a caller's calls, and who runs packets that come in at ports, go from thread to thread.
pub fn passes_cross<J: Naming + Send>(pass: &Pass<J>, worker: &DeskWorker<J>) {
    goes(pass);
    goes(worker);
}

/// A desk goes from thread to thread, and threads share it.
pub fn desks_cross<J: Naming + Send, R: Wait + Drop + Send + Sync>(desk: &LiveDesk<J, R>) {
    goes(desk);
    is_shared(desk);
}
