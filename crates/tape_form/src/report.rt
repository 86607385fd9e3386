// The text of a report.
ghost use Rattle.std.specs.Prelude.{◌≡◌, ◌++◌, IfOk, OnOk, string_bytes};
ghost use Rattle.run_spec.specs.ReportText.{report_text};

mod journal;
mod lines;
mod marks;
mod packets;
mod words;

use crate::report::journal::push_journal;
use crate::report::lines::{push_end, push_lines};
use crate::report::packets::push_packets;
use list_types::{ByteList, NoMemory};
use p4_types::journal::Report;
use std::alloc::{AllocError, Global};

/// The text of a report, in ASCII; each line ends with LF.
pub fn report_text(alloc: Global, report: &Report) -> Result<ByteList, NoMemory>
    ensures { IfOk result (λ text. text ≡ report_text report.now) }
{
    let mut out = String::new(alloc);
    push_report(alloc, &mut out, report)?;
    Ok(ByteList::from_vec(out.into_bytes()))
}

/// The lines of a report.
fn push_report(alloc: Global, out: &mut String, report: &Report) -> Result<(), AllocError>
    ensures { OnOk result (string_bytes out.new ≡ string_bytes out.old ++ report_text report.now) }
{
    let steps = push_journal(alloc, out, report.journal.as_slice())?;
    push_lines(alloc, out, report.sent.as_slice())?;
    push_packets(alloc, out, report.records.as_slice())?;
    push_lines(alloc, out, report.counts.as_slice())?;
    push_lines(alloc, out, report.cells.as_slice())?;
    push_end(out, steps, report.records.len())?;
    Ok(())
}
