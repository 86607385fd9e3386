//! The cells of indirect counters that a Read selects.
ghost use Rattle.std.specs.Prelude.{◌≡◌, ◌≤◌, ◌<◌, ◌+◌, ◌++◌, All, filter, map, pos, IfOk, OnOk};
ghost use Rattle.std.specs.List.{flat_map, sum_by};
ghost use Rattle.p4_types.specs.declared.messages.Entity.TheVariants as entities;
ghost use Rattle.plane_spec.specs.Config.{cells_in};
ghost use Rattle.plane_spec.specs.Entries.{slot_numbers};
ghost use Rattle.plane_read.specs.Answered.{answered_cells, HasSlots};
ghost use Rattle.plane_spec.specs.Shown.{by_rising};
ghost use Rattle.switch_spec.specs.Reading.{cells_at, is_asked_id, shown_cell, shown_cells, cell_of_index, selected_cells, selected_counters};

use crate::counts::{Counts, count_number, shown_data};
use crate::members::is_asked_id;
use entity_messages::order::{Numbered, place};
use list_types::{List, NoMemory};
use p4_types::info::Counter;
use p4_types::messages::{CounterEntry, Entity, Index};
use plane_state::Plane;
use std::alloc::Global;
use std::marker::Model;
use switch_spec::cells::Cells;

/// The cells of a counter, which rise by its id.
#[derive(Drop)]
struct CounterCells {
    cells: Cells,
}

impl Model for CounterCells {
    ghost use Rattle.switch_spec.specs.declared.cells.Cells.{Cells};

    ghost Value = { Cells };

    ghost view = { λ c. c.cells };
}

impl Numbered for CounterCells {
    ghost key = { λ cells. cells.counter };

    fn number(&self) -> u32 {
        self.cells.counter
    }
}

// Where the cells of counters stand, by rising id of the counter, of which the first has this slot.
fn sorted_cells(
    alloc: Global,
    first: u32,
    counters: &[Counter],
) -> Result<Vec<CounterCells>, NoMemory>
    requires few { first + sum_by (λ counter. counter.size) counters.now ≤ slot_numbers }
    ensures sorted { IfOk result (λ list. list.items ≡ by_rising (λ cells. cells.counter) (cells_at first counters.now)) }
    ensures slots { IfOk result (λ list. All HasSlots list.items) }
{
    let mut sorted = Vec::new(alloc);
    let mut slot = u64::from(first);
    for counter in counters {
        let cells = Cells {
            counter: counter.preamble.id,
            first: slot,
            size: counter.size,
        };
        place(&mut sorted, CounterCells { cells })?;
        slot += counter.size;
    }
    Ok(sorted)
}

fn shown_cell<C: Counts>(counts: &C, counter: u32, slot: u32, index: u64) -> CounterEntry
    ensures { result ≡ shown_cell (C.figures counts.now) counter slot index }
{
    let (packets, bytes) = counts.count(slot);
    CounterEntry {
        counter_id: counter,
        index: Some(Index {
            index: count_number(index),
        }),
        content: Some(shown_data(packets, bytes)),
    }
}

fn push_all<C: Counts>(counts: &C, cells: Cells, answer: &mut List<Entity>) -> Result<(), NoMemory>
    requires { HasSlots cells }
    ensures { OnOk result (answer.new ≡ answer.old ++ answered_cells (shown_cells cells.size (C.figures counts.now) cells.counter cells.first 0)) }
{
    for index in 0..cells.size {
        let slot = (cells.first + index) as u32;
        let cell = shown_cell(counts, cells.counter, slot, index);
        answer.push(Entity::CounterEntry(cell))?;
    }
    Ok(())
}

fn push_at<C: Counts>(
    counts: &C,
    cells: Cells,
    index: i64,
    answer: &mut List<Entity>,
) -> Result<(), NoMemory>
    requires { HasSlots cells }
    ensures { OnOk result (answer.new ≡ answer.old ++ answered_cells (cell_of_index (C.figures counts.now) cells index)) }
{
    if index < 0 {
        return Ok(());
    }
    let index = index as u64;
    if index < cells.size {
        let slot = (cells.first + index) as u32;
        let cell = shown_cell(counts, cells.counter, slot, index);
        answer.push(Entity::CounterEntry(cell))?;
    }
    Ok(())
}

fn push_cells<C: Counts>(
    counts: &C,
    cells: Cells,
    index: Option<Index>,
    answer: &mut List<Entity>,
) -> Result<(), NoMemory>
    requires { HasSlots cells }
    ensures { OnOk result (answer.new ≡ answer.old ++ answered_cells (selected_cells (C.figures counts.now) index cells)) }
{
    match index {
        Some(asked) => push_at(counts, cells, asked.index, answer),
        None => push_all(counts, cells, answer),
    }
}

fn push_each<C: Counts>(
    counts: &C,
    asked: &CounterEntry,
    list: &[CounterCells],
    answer: &mut List<Entity>,
) -> Result<(), NoMemory>
    requires { All HasSlots list.now }
    ensures { OnOk result (answer.new ≡ answer.old ++ answered_cells (flat_map (selected_cells (C.figures counts.now) asked.now.index) (filter (λ cells. is_asked_id asked.now.counter_id cells.counter) list.now))) }
{
    for counter in list {
        if is_asked_id(asked.counter_id, counter.cells.counter) {
            push_cells(counts, counter.cells, asked.index, answer)?;
        }
    }
    Ok(())
}

/// Adds the cells that are asked for, by rising id of the counter and by rising index.
pub(crate) fn push_counters<C: Counts>(
    alloc: Global,
    plane: &Plane,
    counts: &C,
    asked: &CounterEntry,
    answer: &mut List<Entity>,
) -> Result<(), NoMemory>
    requires { plane.now.now.cells + cells_in plane.now.now.config ≤ slot_numbers }
    ensures { OnOk result (answer.new ≡ answer.old ++ map entities.CounterEntry (selected_counters (C.figures counts.now) plane.now.now asked.now)) }
{
    let counters = plane.config().info().info().counters.as_slice();
    let sorted = sorted_cells(alloc, plane.cells(), counters)?;
    push_each(counts, asked, sorted.as_slice(), answer)
}
