//! A made tape is run, and the report of it summed up.
ghost use Rattle.std.specs.Prelude.{◌≡◌, ◌≤◌, IfOk};
ghost use Rattle.run_spec.specs.Rows.{bare_start};
ghost use Rattle.p4switch_run.specs.Load.{IsSummary, Sums};

use crate::status::Status;
use gen_tape::{generate, summary_text};
use list_types::{ByteList, NoMemory};
use lockstep_run::play;
use p4_types::events::Start;
use std::alloc::Global;
use sw_edge::{Sent, Sink};

// With what a replay starts where no option is given.
const START: Start = Start {
    device: 1,
    cpu: 255,
    rows: 16_384,
    slots: 1_048_576,
    bridge: false,
};

// The summary of the run of a number's tape, one record after the other.
#[tactic(auto, using(crate::proofs::LoadLemmas::each_item))]
fn summary_of(alloc: Global, number: u32) -> Result<ByteList, NoMemory>
    requires low { 1 ≤ number }
    requires high { number ≤ 64 }
    ensures { IfOk result (IsSummary number) }
{
    let items = generate(alloc, number)?;
    let report = play(alloc, START, items.as_slice())?;
    summary_text(alloc, &report)
}

/// Makes the tape of a number, runs it, and writes the summary of its report when all of it is made.
pub fn run_load<O: Sink>(alloc: Global, number: u64, out: &mut O) -> Status
    requires low { 1 ≤ number }
    requires high { number ≤ 64 }
    ensures sums { Sums number result (O.sent out.old) (O.sent out.new) (O.faults out.old) (O.faults out.new) }
    ensures writes { O.faults out.old ≤ O.faults out.new }
{
    let Ok(text) = summary_of(alloc, number as u32) else {
        return Status::NoMemory;
    };
    match out.write(text.as_slice()) {
        Sent::All => Status::Done,
        Sent::Failed => Status::WriteFault,
    }
}
