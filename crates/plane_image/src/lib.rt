//! The control state of the switch as the program keeps it: changed in place, by updates that can be undone until they
//! are kept, and by events.
#![tactic(auto)]

mod applying;
mod image;
mod opening;
mod pipelines;
mod planes;
mod replaced;
mod scope;
mod updating;

pub use applying::may_is_taken;
pub use image::Image;
pub use scope::Scope;
