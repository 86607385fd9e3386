//! Counters that threads share: for each slot a count of packets and one of bytes (P4Runtime 1.3.0, `CounterData`).
//! Each thread counts and reads by a seat of its own. Once all seats are joined, the totals are the sums of what they added.
#![tactic(auto)]

mod bank;
pub mod laws;
mod seat;
mod tally;
mod totals;

pub use bank::{Bank, close_with, open};
pub use seat::Seat;
pub use totals::Totals;
