//! Whether a service goes on.
use crate::link::Link;

/// Whether a service goes on.
#[derive(Drop)]
pub enum Standing {
    /// On this link.
    Serving(Link),
    /// Memory was missing for a call.
    Lost {
        /// The controller is still to leave.
        is_to_leave: bool,
    },
}
