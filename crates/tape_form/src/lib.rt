//! Tapes: their reading from a source; and the text of reports.
#![tactic(auto)]

mod fault;
mod lanes;
mod limits;
mod parse;
mod read;
mod report;

pub use fault::{Ended, TapeFault};
pub use limits::{MAX_RECORDS, MAX_TAPE};
pub use p4_types::journal::{CellLine, CountLine, Entry, Report, Step, StepKind};
pub use p4_types::records::{HitMark, Record};
pub use p4_types::tape::{TapeRecord, Who};
pub use read::{Tape, take_bytes};
pub use report::report_text;
pub use tape_spec::TapeItem;
