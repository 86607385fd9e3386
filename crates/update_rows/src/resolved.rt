//! Updates by the rules that ask for the program alone, and room for an entry.
use crate::images::{info_of, write_of};
use crate::shown::{tell_cause, tell_outcome};
use p4_types::messages::Update;
use p4_types::table::{Change, EntryChange, Room};
use p4info_model::P4Info;
use row_lines::{NoAnswer, numbers, say};
use std::alloc::Global;
use std::rt::Files;
use table_store::TableStore;
use write_rules::resolve;

fn ids_of(alloc: Global, part: &str) -> Result<Vec<u32>, NoAnswer> {
    let mut ids = Vec::new(alloc);
    for id in numbers(alloc, part)? {
        ids.push(u32::try_from(id).unwrap_or(0))?;
    }
    Ok(ids)
}

fn tell_resolved(
    alloc: Global,
    told: &mut String,
    info: &P4Info,
    ids: &[u32],
    updates: &[Update],
) -> Result<(), NoAnswer> {
    let scope = if ids.is_empty() { None } else { Some(ids) };
    for update in updates {
        let outcome = resolve(alloc, info, scope, update)?;
        tell_outcome(told, &outcome);
    }
    Ok(())
}

/// Of a P4Info, the ids that a role may write (none: all), and a Write: whether each update is resolved, or the rule that it
/// breaks.
pub fn resolved<R: Files + AllocGlobal>(
    rt: &R,
    asked: [&str; 3],
    told: &mut String,
) -> Result<(), NoAnswer> {
    let [info, ids, write] = asked;
    let alloc = rt.alloc();
    let ids = ids_of(alloc, ids)?;
    let request = write_of(alloc, write)?;
    let answered = match info_of(rt, info) {
        Ok(info) => tell_resolved(alloc, told, &info, &ids, request.updates.as_slice()),
        Err(NoAnswer) => Err(NoAnswer),
    };
    drop(request);
    answered
}

// Adds why an INSERT is refused in a store without entries, with so much to be drawn.
fn tell_room(alloc: Global, told: &mut String, info: &P4Info, change: &EntryChange, room: Room) {
    let Some(table) = info.table(change.name.table) else {
        say(told, "no table");
        return;
    };
    match TableStore::open(alloc).insert_cause(table, &change.name, 1, room) {
        Some(cause) => tell_cause(told, cause),
        None => say(told, "room"),
    }
}

fn room_of(rows: u32, slots: u32, numbers: u64) -> Room {
    Room {
        rows,
        slots,
        next_slot: 0,
        next_stamp: 0,
        numbers,
    }
}

fn tell_rooms(
    alloc: Global,
    told: &mut String,
    info: &P4Info,
    updates: &[Update],
) -> Result<(), NoAnswer> {
    for update in updates {
        let Ok(Change::InsertEntry(change)) = resolve(alloc, info, None, update)? else {
            return Err(NoAnswer);
        };
        tell_room(alloc, told, info, &change, room_of(1, 1, 1));
        tell_room(alloc, told, info, &change, room_of(0, 1, 1));
        tell_room(alloc, told, info, &change, room_of(1, 0, 1));
        tell_room(alloc, told, info, &change, room_of(1, 1, 0));
    }
    Ok(())
}

/// Of a P4Info and a Write: why each INSERT of an entry is refused where one row, one slot and one number are left, and
/// where the row, the slot or the number is not.
pub fn room<R: Files + AllocGlobal>(
    rt: &R,
    asked: [&str; 2],
    told: &mut String,
) -> Result<(), NoAnswer> {
    let [info, write] = asked;
    let alloc = rt.alloc();
    let request = write_of(alloc, write)?;
    let answered = match info_of(rt, info) {
        Ok(info) => tell_rooms(alloc, told, &info, request.updates.as_slice()),
        Err(NoAnswer) => Err(NoAnswer),
    };
    drop(request);
    answered
}
