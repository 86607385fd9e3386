//! Updates that are made one after another, and the entries that stand behind them.
use crate::images::{image_of, info_of, write_of};
use crate::shown::{tell_entry, tell_outcome};
use list_types::List;
use p4_types::code::Cause;
use p4_types::messages::Update;
use p4_types::table::{Change, Entry, EntryName};
use plane_image::{Image, Scope};
use row_lines::{NoAnswer, numbers, say, tell};
use std::alloc::Global;
use std::rt::Files;
use table_store::TableStore;

/// Makes updates of a primary that may write all, and adds what becomes of each.
pub fn make(
    alloc: Global,
    image: &mut Image,
    updates: &[Update],
    told: &mut String,
) -> Result<List<Result<Change, Cause>>, NoAnswer> {
    let scope = Scope::of(0, image.roles().primary_session(0));
    let outcomes = image.updates(alloc, &scope, updates)?;
    for outcome in outcomes.as_slice() {
        tell_outcome(told, outcome);
    }
    Ok(outcomes)
}

// The same of a Write.
fn make_of(
    alloc: Global,
    image: &mut Image,
    write: &str,
    told: &mut String,
) -> Result<List<Result<Change, Cause>>, NoAnswer> {
    let request = write_of(alloc, write)?;
    let outcomes = make(alloc, image, request.updates.as_slice(), told);
    drop(request);
    outcomes
}

fn key_of(alloc: Global, part: &str) -> Result<Vec<u128>, NoAnswer> {
    let mut key = Vec::new(alloc);
    for number in numbers(alloc, part)? {
        key.push(u128::from(number))?;
    }
    Ok(key)
}

fn tell_keys(
    alloc: Global,
    told: &mut String,
    image: &Image,
    table: u32,
    keys: &str,
) -> Result<(), NoAnswer> {
    let Some(plane) = image.target() else {
        return Err(NoAnswer);
    };
    for part in keys.split(',') {
        let key = key_of(alloc, part)?;
        if !key.is_empty() {
            tell_entry(told, plane.store().best(table, &key));
        }
    }
    Ok(())
}

fn tell_updates(
    alloc: Global,
    told: &mut String,
    image: &mut Image,
    asked: [&str; 3],
) -> Result<(), NoAnswer> {
    let [table, keys, write] = asked;
    let table = table.parse::<u32>()?;
    drop(make_of(alloc, image, write, told)?);
    tell_keys(alloc, told, image, table, keys)
}

/// Of a P4Info, how many rows the switch has, a table, keys between commas, and a Write: what becomes of each update, and
/// the entry that each key takes behind them.
pub fn updates<R: Files + AllocGlobal>(
    rt: &R,
    asked: [&str; 5],
    told: &mut String,
) -> Result<(), NoAnswer> {
    let [info, rows, table, keys, write] = asked;
    let rows = rows.parse::<u32>()?;
    let mut image = image_of(rt.alloc(), info_of(rt, info)?, rows)?;
    let answered = tell_updates(rt.alloc(), told, &mut image, [table, keys, write]);
    drop(image);
    answered
}

// Adds the first four tables that have entries, each with how many it has and their numbers.
fn tell_tables(told: &mut String, store: &TableStore) {
    let mut tables = store.tables();
    for _ in 0..4u32 {
        let Some([first, others @ ..]) = tables.next() else {
            return;
        };
        say(told, "table");
        tell(told, first.name.table);
        tell(told, others.len().saturating_add(1));
        for entry in store.entries_of(first.name.table) {
            tell(told, entry.seq);
        }
    }
}

fn named(outcome: &Result<Change, Cause>) -> Option<&EntryName> {
    match outcome {
        Ok(Change::InsertEntry(change) | Change::ModifyEntry(change)) => Some(&change.name),
        Ok(Change::DeleteEntry(name)) => Some(name),
        _ => None,
    }
}

fn tell_found(told: &mut String, entry: Option<&Entry>) {
    match entry {
        Some(entry) => tell(told, entry.seq),
        None => say(told, "none"),
    }
}

fn tell_entries(
    told: &mut String,
    image: &Image,
    outcomes: &[Result<Change, Cause>],
) -> Result<(), NoAnswer> {
    let Some(plane) = image.target() else {
        return Err(NoAnswer);
    };
    tell_tables(told, plane.store());
    say(told, "in all");
    tell(told, plane.store().len());
    say(told, "named");
    for outcome in outcomes {
        if let Some(name) = named(outcome) {
            tell_found(told, plane.store().find(name));
        }
    }
    Ok(())
}

fn make_and_tell(
    alloc: Global,
    told: &mut String,
    image: &mut Image,
    write: &str,
) -> Result<(), NoAnswer> {
    let outcomes = make_of(alloc, image, write, told)?;
    let answered = tell_entries(told, image, outcomes.as_slice());
    drop(outcomes);
    answered
}

/// Of a P4Info and a Write: what becomes of each update; behind them the entries of each table, how many there are, and for
/// each entry that an update named the one of that name.
pub fn entries<R: Files + AllocGlobal>(
    rt: &R,
    asked: [&str; 2],
    told: &mut String,
) -> Result<(), NoAnswer> {
    let [info, write] = asked;
    let mut image = image_of(rt.alloc(), info_of(rt, info)?, 1_024)?;
    let answered = make_and_tell(rt.alloc(), told, &mut image, write);
    drop(image);
    answered
}
