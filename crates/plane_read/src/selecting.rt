//! The entries that a Read selects.
ghost use Rattle.std.specs.Prelude.{◌≡◌, ◌≤◌, ◌∷◌, [], ◌++◌, ◌&&◌, length, Some, None, filter, map, IfOk, OnOk};
ghost use Rattle.std.specs.List.{AllPairs};
ghost use Rattle.plane_spec.specs.Entries.{same_name};
ghost use Rattle.plane_spec.specs.Objects.{table_of};
ghost use Rattle.plane_spec.specs.Order.{StandsBefore};
ghost use Rattle.p4_types.specs.declared.messages.Entity.TheVariants as entities;
ghost use Rattle.plane_spec.specs.Shown.{shown_entry};
ghost use Rattle.switch_spec.specs.Reading.{selects, selected_direct};
ghost use Rattle.plane_read.specs.Answered.{answered, shown_as, has_priority};
ghost use Rattle.write_rules.specs.Widths.{HasWidths};

use crate::counts::{Counts, shown_data};
use entity_messages::{shown_entry, shown_name};
use list_types::{List, NoMemory};
use p4_types::info::Table;
use p4_types::messages::{DirectCounterEntry, Entity, TableEntry};
use p4_types::table::{Entry, EntryName};
use p4info_model::P4Info;
use plane_state::Plane;
use std::alloc::Global;
use table_store::TableStore;
use write_rules::name_of;

/// What is answered of entries: they themselves, or their direct counters.
#[derive(Clone, Copy)]
pub(crate) enum View {
    Entries,
    Counters,
}

fn has_priority(priority: i32, entry: &Entry) -> bool
    ensures { result ≡ has_priority priority entry.now }
{
    priority == 0 || entry.name.priority == priority
}

fn push_shown(
    alloc: Global,
    info: &P4Info,
    entry: &Entry,
    answer: &mut List<Entity>,
) -> Result<(), NoMemory>
    ensures { OnOk result (answer.new ≡ answer.old ++ entities.TableEntry (shown_entry info.now entry.now) ∷ []) }
{
    let shown = shown_entry(alloc, info, entry)?;
    answer.push(Entity::TableEntry(shown))?;
    Ok(())
}

fn push_counter<C: Counts>(
    alloc: Global,
    info: &P4Info,
    counts: &C,
    entry: &Entry,
    answer: &mut List<Entity>,
) -> Result<(), NoMemory>
    ensures { OnOk result (answer.new ≡ answer.old ++ shown_as View.Counters (C.figures counts.now) info.now entry.now) }
{
    if let Some(slot) = entry.slot {
        let name = shown_name(alloc, info, entry)?;
        let (packets, bytes) = counts.count(slot);
        let shown = DirectCounterEntry {
            table_entry: Some(name),
            content: Some(shown_data(packets, bytes)),
        };
        answer.push(Entity::DirectCounterEntry(shown))?;
    }
    Ok(())
}

// The entry, or its direct counter, if it has one.
fn push_entry<C: Counts>(
    alloc: Global,
    info: &P4Info,
    counts: &C,
    view: View,
    entry: &Entry,
    answer: &mut List<Entity>,
) -> Result<(), NoMemory>
    ensures { OnOk result (answer.new ≡ answer.old ++ shown_as view (C.figures counts.now) info.now entry.now) }
{
    match view {
        View::Entries => push_shown(alloc, info, entry, answer),
        View::Counters => push_counter(alloc, info, counts, entry, answer),
    }
}

fn push_entries<C: Counts>(
    alloc: Global,
    info: &P4Info,
    counts: &C,
    view: View,
    priority: &i32,
    entries: &[Entry],
    answer: &mut List<Entity>,
) -> Result<(), NoMemory>
    ensures { OnOk result (answer.new ≡ answer.old ++ answered view (C.figures counts.now) info.now (filter (has_priority priority.now) entries.now)) }
{
    for entry in entries {
        if has_priority(*priority, entry) {
            push_entry(alloc, info, counts, view, entry, answer)?;
        }
    }
    Ok(())
}

fn push_all<C: Counts>(
    alloc: Global,
    plane: &Plane,
    counts: &C,
    view: View,
    priority: &i32,
    answer: &mut List<Entity>,
) -> Result<(), NoMemory>
    ensures { OnOk result (answer.new ≡ answer.old ++ answered view (C.figures counts.now) plane.now.now.config.info (filter (has_priority priority.now) plane.now.now.entries)) }
{
    let mut tables = plane.store().tables();
    while let Some(entries) = tables.next() {
        push_entries(
            alloc,
            plane.config().info(),
            counts,
            view,
            priority,
            entries,
            answer,
        )?;
    }
    Ok(())
}

fn push_by_priority<C: Counts>(
    alloc: Global,
    plane: &Plane,
    counts: &C,
    view: View,
    asked: &TableEntry,
    answer: &mut List<Entity>,
) -> Result<(), NoMemory>
    ensures { OnOk result (answer.new ≡ answer.old ++ answered view (C.figures counts.now) plane.now.now.config.info (filter (selects None asked.now) plane.now.now.entries)) }
{
    if asked.table_id == 0 {
        return push_all(alloc, plane, counts, view, &asked.priority, answer);
    }
    let entries = plane.store().entries_of(asked.table_id);
    push_entries(
        alloc,
        plane.config().info(),
        counts,
        view,
        &asked.priority,
        entries,
        answer,
    )
}

// No two entries of a store have one name.
fn names_differ(store: &TableStore)
    ensures { AllPairs StandsBefore store.now.entries }
{
    store.tables();
}

fn push_named<C: Counts>(
    alloc: Global,
    plane: &Plane,
    counts: &C,
    view: View,
    name: &EntryName,
    answer: &mut List<Entity>,
) -> Result<(), NoMemory>
    ensures { OnOk result (answer.new ≡ answer.old ++ answered view (C.figures counts.now) plane.now.now.config.info (filter (λ entry. same_name name.now entry.name) plane.now.now.entries)) }
{
    let store = plane.store();
    names_differ(store);
    match store.find(name) {
        Some(entry) => push_entry(alloc, plane.config().info(), counts, view, entry, answer),
        None => Ok(()),
    }
}

fn push_of_table<C: Counts>(
    alloc: Global,
    plane: &Plane,
    counts: &C,
    view: View,
    table: &Table,
    asked: &TableEntry,
    answer: &mut List<Entity>,
) -> Result<(), NoMemory>
    requires widths { HasWidths table.now }
    requires few { length table.now.match_fields ≤ 16 }
    ensures { OnOk result (answer.new ≡ answer.old ++ answered view (C.figures counts.now) plane.now.now.config.info (filter (selects (Some table.now) asked.now) plane.now.now.entries)) }
{
    if asked.matches.is_empty() {
        return push_by_priority(alloc, plane, counts, view, asked, answer);
    }
    let name = name_of(table, asked);
    push_named(alloc, plane, counts, view, &name, answer)
}

// The entries that are asked for, or their direct counters.
fn push_selected<C: Counts>(
    alloc: Global,
    plane: &Plane,
    counts: &C,
    view: View,
    asked: &TableEntry,
    answer: &mut List<Entity>,
) -> Result<(), NoMemory>
    ensures { OnOk result (answer.new ≡ answer.old ++ answered view (C.figures counts.now) plane.now.now.config.info (filter (selects (table_of asked.now.table_id plane.now.now.config.info) asked.now) plane.now.now.entries)) }
{
    match plane.config().info().table(asked.table_id) {
        Some(table) => push_of_table(alloc, plane, counts, view, table, asked, answer),
        None => push_by_priority(alloc, plane, counts, view, asked, answer),
    }
}

/// Adds the entries that are asked for.
pub(crate) fn push_asked<C: Counts>(
    alloc: Global,
    plane: &Plane,
    counts: &C,
    asked: &TableEntry,
    answer: &mut List<Entity>,
) -> Result<(), NoMemory>
    ensures { OnOk result (answer.new ≡ answer.old ++ map entities.TableEntry (map (shown_entry plane.now.now.config.info) (filter (selects (table_of asked.now.table_id plane.now.now.config.info) asked.now) plane.now.now.entries))) }
{
    push_selected(alloc, plane, counts, View::Entries, asked, answer)
}

/// Adds the direct counters that are asked for, in the order of their entries.
pub(crate) fn push_counters<C: Counts>(
    alloc: Global,
    plane: &Plane,
    counts: &C,
    asked: &DirectCounterEntry,
    answer: &mut List<Entity>,
) -> Result<(), NoMemory>
    ensures { OnOk result (answer.new ≡ answer.old ++ map entities.DirectCounterEntry (selected_direct (C.figures counts.now) plane.now.now asked.now)) }
{
    match &asked.table_entry {
        None => push_all(alloc, plane, counts, View::Counters, &0, answer),
        Some(asked) => {
            if asked.is_default_action {
                return Ok(());
            }
            push_selected(alloc, plane, counts, View::Counters, asked, answer)
        }
    }
}
