//! A tape is read, run and reported.
ghost use Rattle.std.specs.Prelude.{◌≡◌, ◌≤◌, IfOk, All};
ghost use Rattle.tape_spec.specs.Items.{IsItem, AreItems, no_item_lanes};
ghost use Rattle.byte_lanes.specs.Filling.{IsItemLockstepReport, IsItemFreeReport};
ghost use Rattle.p4switch_run.specs.Replay.{Answers, IsReportIn, streams};

use crate::status::Status;
use command_words::words::Mode;
use list_types::{ByteList, NoMemory};
use lockstep_run::play;
use p4_types::events::Start;
use replay_run::{Freely, replay_free};
use std::alloc::Global;
use std::sync::Wait;
use std::thread::Threads;
use sw_edge::{Sent, Sink, Source};
use tape_form::{Tape, report_text};
use tape_spec::TapeItem;

// The report's text of the run of these items, one after the other.
fn text_in_order(alloc: Global, start: Start, items: &[TapeItem]) -> Result<ByteList, NoMemory>
    requires each { All IsItem items.now }
    requires stand { AreItems no_item_lanes items.now }
    ensures { IfOk result (IsItemLockstepReport start items.now) }
{
    let report = play(alloc, start, items)?;
    report_text(alloc, &report)
}

// The report's text of a run of a tape in some interleaving of its lanes: each lane has a thread, unless one brings bytes; such a tape is
// run in its order.
fn text_freely<T: Threads + Wait + Sync>(
    rt: &T,
    alloc: Global,
    start: Start,
    tape: Tape,
) -> Result<ByteList, NoMemory>
    requires slots { start.slots ≡ 1048576 }
    ensures { IfOk result (IsItemFreeReport start tape) }
{
    if tape.brings_bytes() {
        return text_in_order(alloc, start, tape.items());
    }
    let records = tape.into_records(alloc)?;
    let report = replay_free(rt, alloc, &Freely, start, records)?;
    report_text(alloc, &report)
}

// The report's text of a run of a tape.
fn text_of<T: Threads + Wait + Sync>(
    rt: &T,
    alloc: Global,
    mode: Mode,
    start: Start,
    tape: Tape,
) -> Result<ByteList, NoMemory>
    requires slots { start.slots ≡ 1048576 }
    ensures { IfOk result (IsReportIn mode start tape) }
{
    match mode {
        Mode::Lockstep => text_in_order(alloc, start, tape.items()),
        Mode::Free => text_freely(rt, alloc, start, tape),
    }
}

/// Runs the tape that the source gives, and writes its report when all of it is made.
pub fn replay<T: Threads + Wait + Sync, S: Source, O: Sink>(
    rt: &T,
    alloc: Global,
    mode: Mode,
    start: Start,
    tape: &mut S,
    out: &mut O,
) -> Status
    requires slots { start.slots ≡ 1048576 }
    ensures answers { Answers mode start result
        (streams (S.left tape.old) (O.sent out.old) (S.faults tape.old) (O.faults out.old) (S.ends tape.old))
        (streams (S.left tape.new) (O.sent out.new) (S.faults tape.new) (O.faults out.new) (S.ends tape.new)) }
    ensures reads { S.faults tape.old ≤ S.faults tape.new }
    ensures writes { O.faults out.old ≤ O.faults out.new }
{
    let tape = match Tape::read(alloc, tape) {
        Ok(tape) => tape,
        Err(fault) => return Status::of_fault(fault),
    };
    let Ok(text) = text_of(rt, alloc, mode, start, tape) else {
        return Status::NoMemory;
    };
    match out.write(text.as_slice()) {
        Sent::All => Status::Done,
        Sent::Failed => Status::WriteFault,
    }
}
