//! Snapshots of the control state: threads see the image after a beginning of one published list, without lock or wait, while
//! one publisher lets the list grow.
#![tactic(auto)]

mod listed;
mod opening;
mod publisher;
mod room;
mod ruling;
mod shown;
mod told;
mod viewer;

pub use opening::open;
pub use publisher::Publisher;
pub use room::NoRoom;
pub use told::Told;
pub use viewer::{View, Viewer};
