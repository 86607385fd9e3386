//! The lines of a plane's cells.
ghost use Rattle.std.specs.Prelude.{◌≡◌, ◌++◌, ◌+◌, ◌<◌, ◌≤◌, ◌^◌, IfOk, IfSome, OnOk, option_map};
ghost use Rattle.switch_spec.specs.Counts.{cell_line, cell_lines_from, cell_lines_of, cell_lines};
ghost use Rattle.slot_totals.specs.State.{AreBlank};

use crate::slots::SlotCounts;
use list_types::{List, NoMemory};
use p4_types::info::Counter;
use p4_types::journal::CellLine;
use plane_read::Counts;
use plane_state::Plane;
use std::alloc::Global;

fn push_line<C: Counts>(
    counts: &C,
    slot: u32,
    counter: u32,
    index: u64,
    lines: &mut List<CellLine>,
) -> Result<(), NoMemory>
    ensures { OnOk result (lines.new ≡ lines.old ++ cell_line (C.figures counts.now) slot counter index) }
{
    let (packets, bytes) = counts.count(slot);
    if packets != 0 {
        lines.push(CellLine {
            slot,
            counter,
            index,
            packets,
            bytes,
        })?;
    }
    Ok(())
}

// The lines of a counter whose cells have the slots from this one on. Cells behind the first so many slots have none.
fn push_lines<C: Counts>(
    counts: &C,
    slots: u64,
    first: u64,
    counter: &Counter,
    lines: &mut List<CellLine>,
) -> Result<(), NoMemory>
    requires few { slots ≤ 2 ^ 32 }
    requires blank { AreBlank (C.figures counts.now) slots }
    ensures { OnOk result (lines.new ≡ lines.old ++ cell_lines_from counter.now.size (C.figures counts.now) first counter.now.preamble.id 0) }
{
    let kept = counter.size.min(slots.saturating_sub(first));
    for index in 0..kept {
        let slot = (first + index) as u32;
        push_line(counts, slot, counter.preamble.id, index, lines)?;
    }
    Ok(())
}

// The lines of counters whose cells have the slots from this one on.
fn push_all<C: Counts>(
    counts: &C,
    slots: u64,
    first: u64,
    counters: &[Counter],
    lines: &mut List<CellLine>,
) -> Result<(), NoMemory>
    requires few { slots ≤ 2 ^ 32 }
    requires blank { AreBlank (C.figures counts.now) slots }
    ensures { OnOk result (lines.new ≡ lines.old ++ cell_lines_of (C.figures counts.now) first counters.now) }
{
    let mut slot = first;
    for counter in counters {
        push_lines(counts, slots, slot, counter, lines)?;
        slot = slot.saturating_add(counter.size).min(slots);
    }
    Ok(())
}

/// The lines of the cells of a plane's indirect counters that have counted something, by rising slot.
pub fn cell_lines<C: SlotCounts>(
    alloc: Global,
    plane: Option<&Plane>,
    counts: &C,
) -> Result<List<CellLine>, NoMemory>
    ensures { IfOk result (λ lines. lines ≡ cell_lines (C.figures counts.now) (option_map (λ plane. plane.now.now) plane.entry)) }
{
    let mut lines = List::new(alloc);
    if let Some(plane) = plane {
        let counters = plane.config().info().info().counters.as_slice();
        push_all(
            counts,
            counts.slots(),
            u64::from(plane.cells()),
            counters,
            &mut lines,
        )?;
    }
    Ok(lines)
}
