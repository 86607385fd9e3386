//! The lanes that bring bytes.
ghost use Rattle.std.specs.Prelude.{◌≡◌, ℕ, length, OnOk, IfOk};
ghost use Rattle.std.specs.List.{list_any};
ghost use Rattle.p4rt_service.specs.Turns.{Served};
ghost use Rattle.byte_lanes.specs.Filling.{greeted, brings, sent_lines};
ghost use Rattle.byte_lanes.specs.Lane.{IsLane};
ghost use Rattle.lockstep_run.specs.Playing.{AreLanes};
ghost use Rattle.lockstep_run.specs.Speaking.{MayGoOn};
ghost use Rattle.lockstep_run.specs.Telling.{TellsAll, TellsEntry, line_of};

use crate::speaker::{Speaker, TurnDesk};
use byte_lanes::ByteLane;
use list_types::{ByteList, List, NoMemory};
use p4_types::calls::Notice;
use p4_types::journal::Entry;
use std::alloc::Global;
use tape_spec::TapeItem;

/// How many controllers' lanes there are.
const LANES: u16 = 32;

/// All controllers' lanes, of which nothing has come.
pub fn open_lanes(alloc: Global, speaker: &mut Speaker) -> Result<Vec<ByteLane>, NoMemory>
    requires { MayGoOn speaker.old }
    ensures lanes { IfOk result (λ lanes. AreLanes lanes.items greeted) }
    ensures session { OnOk result (speaker.new.session ≡ speaker.old.session) }
    ensures short { OnOk result (speaker.new.is_short ≡ speaker.old.is_short) }
    ensures goes_on { OnOk result (MayGoOn speaker.new) }
{
    let mut lanes = Vec::new(alloc);
    for lane in 0..LANES {
        speaker.set_lane(lane);
        lanes.push(ByteLane::open(alloc, &TurnDesk, speaker)?)?;
    }
    Ok(lanes)
}

// Whether an item brings bytes of a lane.
fn brings(items: &[TapeItem], lane: u16) -> bool
    ensures { result ≡ list_any (brings lane) items.now }
{
    items.iter().any(|item| matches!(item, TapeItem::Bytes { lane: other, .. } if *other == lane))
}

// Tells a lane the notices of a call that are to it.
fn tell_notices(
    alloc: Global,
    link: &mut ByteLane,
    lane: u16,
    notices: &[Notice],
) -> Result<(), NoMemory>
    ensures { OnOk result (TellsEntry lane notices.now link.old link.new) }
{
    for notice in notices {
        if notice.lane == lane {
            link.tell(alloc, &notice.message)?;
        }
    }
    Ok(())
}

// Tells a lane the notices of other lanes' calls, in the order of the journal.
fn tell_all(
    alloc: Global,
    link: &mut ByteLane,
    lane: u16,
    journal: &[Entry],
) -> Result<(), NoMemory>
    ensures { OnOk result (TellsAll lane journal.now link.old link.new) }
{
    for entry in journal {
        if entry.lane != lane {
            tell_notices(alloc, link, lane, entry.reply.notices.as_slice())?;
        }
    }
    Ok(())
}

// The line of a lane, if it brings bytes: what it was sent, once the notices of other lanes' calls have come to it.
fn lane_line(
    alloc: Global,
    items: &[TapeItem],
    link: &mut ByteLane,
    lane: u16,
    journal: &[Entry],
) -> Result<Option<(u16, ByteList)>, NoMemory>
    ensures { IfOk result (λ line. (served : ℕ → Served) → IsLane link.old (served lane) → line ≡ line_of items.now journal.now served lane) }
{
    if !brings(items, lane) {
        return Ok(None);
    }
    tell_all(alloc, link, lane, journal)?;
    Ok(Some((lane, link.take_sent(alloc))))
}

/// What each lane that brings bytes was sent, by rising lane, once the notices of other lanes' calls have come to it.
pub fn sent_lines(
    alloc: Global,
    items: &[TapeItem],
    lanes: &mut [ByteLane],
    journal: &[Entry],
) -> Result<List<(u16, ByteList)>, NoMemory>
    requires { length lanes.old ≡ 32 }
    ensures { IfOk result (λ sent. (served : ℕ → Served) → AreLanes lanes.old served → sent ≡ sent_lines items.now journal.now served) }
{
    let mut sent = List::new(alloc);
    for lane in 0..LANES {
        let link = &mut lanes[usize::from(lane)];
        if let Some(line) = lane_line(alloc, items, link, lane, journal)? {
            sent.push(line)?;
        }
    }
    Ok(sent)
}
