//! The desk of a switch that serves: callers that meet make their calls behind one lock, each as its pass's next, and what a call
//! did is published with it, and what it has for others waits for them. It keeps nothing of a call that was made.
#![tactic(auto)]

mod call_steps;
mod desk;
mod desk_told;
mod desk_worker;
mod finish;
mod handed;
pub mod laws;
mod line;
mod live;
mod loading;
mod locked;
mod naming;
mod opening;
mod parts;
mod pass;
mod passes;
mod running;
mod wakers;

pub use call_steps::CallSteps;
pub use desk::LiveDesk;
pub use desk_told::DeskTold;
pub use desk_worker::DeskWorker;
pub use finish::ClosedDesk;
pub use handed::Handed;
pub use naming::Naming;
pub use opening::{Callers, open_desk};
pub use parts::{Parts, open_parts};
pub use pass::Pass;
