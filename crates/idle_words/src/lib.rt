//! Idle timeouts: for each stamp the last moment at which its table entry was hit, which threads share, and the ticks that name the
//! entries whose timeout has passed (P4Runtime 1.3.0, `IdleTimeoutNotification`). All moments and timeouts are nanoseconds.
#![tactic(auto)]

mod idle;
mod knowledge;
mod last_stamps;
pub mod laws;
mod stamps;

pub use idle::{Idle, Watched};
pub use last_stamps::LastStamps;
pub use stamps::{StampSeat, Stamps, open};
