//! The desk of a run on threads: controllers' calls are made one after another behind a lock, each as its lane's next, and what
//! a call did is published with it; the packet that it makes enter is run without the lock.
#![tactic(auto)]

mod call;
mod desk;
mod finish;
mod line;
mod loading;
mod locked;
mod met;
mod naming;
mod pass;
mod running;
mod signed;

pub use call::read;
pub use desk::{Asked, TapeDesk};
pub use finish::ClosedDesk;
pub use line::Line;
pub use locked::{Locked, Outcome};
pub use met::Met;
pub use naming::Naming;
pub use pass::CallPass;
pub use running::run_at_last;
pub use signed::Signed;
