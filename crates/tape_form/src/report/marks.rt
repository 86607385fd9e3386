// Marks of the lanes that have packets, so that those of the others are not looked for.
ghost use Rattle.std.specs.Prelude.{◌≡◌, ◌<◌, ℕ, slice_index_or, false, true};
ghost use Rattle.tape_form.specs.LaneLines.{AreMarked, mark_place};

use p4_types::records::Record;
use p4_types::tape::Who;

/// How many lanes there are: 32 of controllers and 16 of workers.
pub(crate) const LANES: usize = 48;

/// Where the mark of a lane stands: the controllers' lanes come first.
pub(crate) fn mark_place(lane: Who) -> usize
    ensures { result ≡ mark_place lane }
{
    match lane {
        Who::Controller(lane) => usize::from(lane),
        Who::Worker(lane) => 32 + usize::from(lane),
    }
}

/// Marks a lane, if it has a place.
fn mark(marks: &mut [bool; LANES], lane: Who)
    ensures marked { mark_place lane < 48 → slice_index_or marks.new (mark_place lane) false ≡ true }
    ensures kept { (k : ℕ) → slice_index_or marks.old k false ≡ true → slice_index_or marks.new k false ≡ true }
{
    let place = mark_place(lane);
    if place < LANES {
        marks[place] = true;
    }
}

/// The marks of the packets' lanes.
pub(crate) fn lanes_of(records: &[Record]) -> [bool; LANES]
    ensures { AreMarked result records.now }
{
    let mut marks = [false; LANES];
    for packet in records {
        mark(&mut marks, packet.who);
    }
    marks
}
