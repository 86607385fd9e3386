//! A tape that is made from a number: a load of routes and of packets; and the summary of a report.
#![tactic(auto)]

pub mod laws;
mod load;
mod messages;
mod router;
mod summary;

pub use load::generate;
pub use summary::summary_text;
