//! What the counters of all slots have counted, and the lines of a report that are made of it.
#![tactic(auto)]

mod cells;
mod counting;
mod entries;
mod figure;
mod slots;
mod totals;

pub use cells::cell_lines;
pub use entries::count_lines;
pub use slots::SlotCounts;
pub use totals::Totals;
