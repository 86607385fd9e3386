//! Laws of a journal's lanes, each the contract of a function that does nothing, and what may cross threads.
ghost use Rattle.lane_table.specs.Laws.{KeepsItsLane, KeepsOtherLanes, NeedsNoOther, ShowsItsCall};

use crate::entry::OfLane;
use crate::seats::{JournalSeat, LaneSeat, Note};
use crate::table::LaneTable;

/// A lane that agreed with the journal agrees once its entry stands in both.
pub fn keeps_its_lane<E: OfLane>()
    ensures { KeepsItsLane E.lane }
{}

/// An entry of one lane changes no other.
pub fn keeps_other_lanes<E: OfLane>()
    ensures { KeepsOtherLanes E.lane }
{}

/// Where no later lane has an entry, each entry is of one of the lanes that were claimed.
pub fn needs_no_other<E: OfLane>()
    ensures { NeedsNoOther E.lane }
{}

/// A call that a note shows is the same call of its lane in each journal that begins with the note.
pub fn shows_its_call<E: OfLane>()
    ensures { ShowsItsCall E.lane }
{}

fn crosses<T: Send>(_value: &T) {}

fn is_shared<T: Send + Sync>(_value: &T) {}

/// Threads share a table by reference, and its tokens go from thread to thread.
pub fn cross_threads<E: OfLane + Drop + Send>(
    table: &LaneTable<E>,
    journal: &JournalSeat<E>,
    lane: &LaneSeat<E>,
    note: &Note<E>,
) {
    is_shared(table);
    crosses(journal);
    crosses(lane);
    crosses(note);
}
