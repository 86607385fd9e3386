//! A run in lockstep over the items of a tape.
ghost use Rattle.std.specs.Prelude.{◌≡◌, [], false, length, All, OnOk, IfOk};
ghost use Rattle.tape_spec.specs.Items.{IsItem};
ghost use Rattle.lockstep_run.specs.Playing.{HasPlayed, IsPlayedReport, PlaysItem};
ghost use Rattle.lockstep_run.specs.Speaking.{GoesOn};

use crate::lanes::{open_lanes, sent_lines};
use crate::speaker::Speaker;
use byte_lanes::ByteLane;
use list_types::NoMemory;
use p4_types::events::Start;
use p4_types::journal::Report;
use std::alloc::Global;
use tape_spec::TapeItem;

// Plays one item more.
fn play_item(
    alloc: Global,
    item: &TapeItem,
    lanes: &mut [ByteLane],
    speaker: &mut Speaker,
) -> Result<(), NoMemory>
    requires item { IsItem item.now }
    requires wide { length lanes.old ≡ 32 }
    requires goes_on { GoesOn speaker.old }
    requires quiet { speaker.old.is_short ≡ false }
    ensures { OnOk result (PlaysItem item.now lanes.old lanes.new speaker.old speaker.new) }
{
    match item {
        TapeItem::Record(record) => speaker.take(alloc, record),
        TapeItem::Bytes { lane, bytes } => {
            let link = &mut lanes[usize::from(*lane)];
            speaker.feed(alloc, link, *lane, bytes.as_slice())
        }
    }
}

// Plays each of these items, in their order.
fn play_each(
    alloc: Global,
    start: Start,
    items: &[TapeItem],
    lanes: &mut [ByteLane],
    speaker: &mut Speaker,
) -> Result<(), NoMemory>
    requires each { All IsItem items.now }
    requires begun { HasPlayed start [] lanes.old speaker.old }
    ensures { OnOk result (HasPlayed start items.now lanes.new speaker.new) }
{
    for item in items {
        play_item(alloc, item, lanes, speaker)?;
    }
    Ok(())
}

// The report of a run that has begun.
fn report_by(
    alloc: Global,
    start: Start,
    items: &[TapeItem],
    lanes: &mut [ByteLane],
    speaker: &mut Speaker,
) -> Result<Report, NoMemory>
    requires each { All IsItem items.now }
    requires begun { HasPlayed start [] lanes.old speaker.old }
    ensures { IfOk result (IsPlayedReport start items.now) }
{
    play_each(alloc, start, items, lanes, speaker)?;
    let sent = sent_lines(alloc, items, lanes, speaker.journal())?;
    speaker.finish(alloc, sent)
}

/// The report of a run of a tape's items, one after the other: records are played as they are, and the bytes of a lane make calls where
/// they stand. It takes no `Wait`.
pub fn play(alloc: Global, start: Start, items: &[TapeItem]) -> Result<Report, NoMemory>
    requires { All IsItem items.now }
    ensures { IfOk result (IsPlayedReport start items.now) }
{
    let mut speaker = Speaker::open(alloc, start)?;
    let report = match open_lanes(alloc, &mut speaker) {
        Ok(mut lanes) => report_by(alloc, start, items, &mut lanes, &mut speaker),
        Err(NoMemory) => Err(NoMemory),
    };
    // where it went out of scope by itself, all that it owns would be part of this proof
    drop(speaker);
    report
}
