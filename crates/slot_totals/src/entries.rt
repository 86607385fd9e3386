//! The count lines of a plane's entries.
ghost use Rattle.std.specs.Prelude.{◌≡◌, ◌++◌, IfOk, OnOk, option_map, fold, []};
ghost use Rattle.std.specs.List.{filter_map};
ghost use Rattle.switch_spec.specs.Counts.{line_of, count_placed, count_lines};

use list_types::{List, NoMemory};
use p4_types::journal::CountLine;
use p4_types::table::Entry;
use plane_read::Counts;
use plane_state::Plane;
use std::alloc::Global;

// The line of an entry whose table has a direct counter.
fn line_of<C: Counts>(counts: &C, entry: &Entry) -> Option<CountLine>
    ensures { result ≡ line_of (C.figures counts.now) entry.now }
{
    let slot = entry.slot?;
    let (packets, bytes) = counts.count(slot);
    Some(CountLine {
        seq: entry.seq,
        table: entry.name.table,
        packets,
        bytes,
    })
}

fn push_lines<C: Counts>(
    counts: &C,
    entries: &[Entry],
    lines: &mut Vec<CountLine>,
) -> Result<(), NoMemory>
    ensures { OnOk result (lines.new.items ≡ lines.old.items ++ filter_map (line_of (C.figures counts.now)) entries.now) }
{
    for entry in entries {
        if let Some(line) = line_of(counts, entry) {
            lines.push(line)?;
        }
    }
    Ok(())
}

fn push_all<C: Counts>(
    counts: &C,
    plane: &Plane,
    lines: &mut Vec<CountLine>,
) -> Result<(), NoMemory>
    ensures { OnOk result (lines.new.items ≡ lines.old.items ++ filter_map (line_of (C.figures counts.now)) plane.now.now.entries) }
{
    let mut tables = plane.store().tables();
    while let Some(entries) = tables.next() {
        push_lines(counts, entries, lines)?;
    }
    Ok(())
}

// Sorts lines by rising sequence number.
fn sort(lines: &mut Vec<CountLine>) -> Result<(), NoMemory>
    ensures { OnOk result (lines.new.items ≡ fold (λ lines line. count_placed line lines) [] lines.old.items) }
{
    lines.sort_by_key(|line| line.seq)?;
    Ok(())
}

/// The lines of a plane's entries whose tables have a direct counter, by rising sequence number.
pub fn count_lines<C: Counts>(
    alloc: Global,
    plane: Option<&Plane>,
    counts: &C,
) -> Result<List<CountLine>, NoMemory>
    ensures { IfOk result (λ lines. lines ≡ count_lines (C.figures counts.now) (option_map (λ plane. plane.now.now) plane.entry)) }
{
    let mut lines = Vec::new(alloc);
    if let Some(plane) = plane {
        push_all(counts, plane, &mut lines)?;
        sort(&mut lines)?;
    }
    Ok(List::from_vec(lines))
}
