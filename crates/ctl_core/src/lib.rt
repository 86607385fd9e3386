//! The control of the switch: the answer to each call, and what it makes of the control state.
#![tactic(auto)]

mod calls;
mod control;
mod packets;
mod pipelines;
mod press;
mod stream;

pub use control::Control;
pub use plane_read::Counts;
pub use press::Press;
