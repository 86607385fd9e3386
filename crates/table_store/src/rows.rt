//! The entries of one table.
ghost use Rattle.std.specs.Prelude.{◌≡◌, ◌==◌, ◌++◌, [], ◌∷◌, Some, None, if◌then◌else◌, false, IfOk, OnOk, OnErr};
ghost use Rattle.std.specs.Prelude as spec;
ghost use Rattle.std.specs.List.{position};
ghost use Rattle.p4_types.specs.declared.keys.FieldTest.{FieldTest};
ghost use Rattle.plane_spec.specs.Entries.{same_name, with_change, modified, deleted, is_counted, next_number, new_entry};
ghost use Rattle.match_index.specs.Index.{row_of, has_row, Covers};
ghost use Rattle.match_index.specs.Order.{AreInOrder};
ghost use Rattle.table_store.specs.Groups.{IsGroup, IsFresh};
ghost use Rattle.table_store.specs.Undo.{WasGroup, IsRowStep};

use crate::causes::is_counted;
use crate::groups::Group;
use list_types::NoMemory;
use match_index::{MatchIndex, Row};
use p4_types::info::Table;
use p4_types::table::{Entry, EntryChange, EntryName, Room};
use std::alloc::Global;

fn place_of_number(entries: &[Entry], seq: u64) -> Option<usize>
    requires { AreInOrder entries.now }
    ensures { result ≡ position (λ entry. entry.seq == seq) entries.now }
{
    match entries.binary_search_by_key(&seq, |entry| entry.seq) {
        Ok(place) => Some(place),
        Err(_) => None,
    }
}

fn place_of(index: &MatchIndex, entries: &[Entry], name: &EntryName) -> Option<usize>
    requires order { AreInOrder entries.now }
    requires covered { Covers index.now entries.now }
    ensures { result ≡ position (λ entry. same_name name.now entry.name) entries.now }
{
    match index.find(entries, name) {
        Some(entry) => place_of_number(entries, entry.seq),
        None => None,
    }
}

fn next_number(room: Room) -> u64
    ensures { result ≡ next_number room }
{
    u64::MAX - room.numbers
}

// The slot of the entry that an INSERT makes.
fn new_slot(table: &Table, room: Room) -> Option<u32>
    ensures { result ≡ (if is_counted table.now then Some room.next_slot else None) }
{
    if is_counted(table) {
        Some(room.next_slot)
    } else {
        None
    }
}

/// Adds the entry that an INSERT makes behind the others. It is made where it will stand, since an entry is large.
pub(crate) fn add(
    group: &mut Group,
    alloc: Global,
    table: &Table,
    room: Room,
    change: &EntryChange,
) -> Result<(), NoMemory>
    requires group { IsGroup group.old }
    requires table { change.now.name.table ≡ group.old.table }
    requires fresh { IsFresh (new_entry table.now room change.now) group.old.entries.items }
    ensures ok { OnOk result (group.new.entries.items ≡ group.old.entries.items ++ new_entry table.now room change.now ∷ []) }
    ensures err { OnErr result (group.new.entries.items ≡ group.old.entries.items) }
    ensures group { IsGroup group.new }
    ensures step { IsRowStep group.old group.new }
{
    let seq = next_number(room);
    let row = MatchIndex::row(&change.name, seq);
    group.noted.push(row)?;
    group.index.insert(alloc, &change.name, row)?;
    let action = change.action.share()?;
    group.entries.push(Entry {
        name: change.name.copy(),
        seq,
        controller_metadata: change.controller_metadata,
        action,
        slot: new_slot(table, room),
    })?;
    Ok(())
}

/// An entry with what a change brings, of the same name, sequence number and slot.
fn with_change(entry: &Entry, change: &EntryChange) -> Result<Entry, NoMemory>
    ensures { IfOk result (λ changed. changed ≡ with_change change.now entry.now) }
{
    Ok(Entry {
        name: entry.name.copy(),
        seq: entry.seq,
        controller_metadata: change.controller_metadata,
        action: change.action.share()?,
        slot: entry.slot,
    })
}

/// Gives the entry of that name, of which there is one at most, what the change brings.
pub(crate) fn change(group: &mut Group, change: &EntryChange) -> Result<(), NoMemory>
    requires { IsGroup group.old }
    ensures ok { OnOk result (group.new.entries.items ≡ modified change.now group.old.entries.items) }
    ensures err { OnErr result (group.new.entries.items ≡ group.old.entries.items) }
    ensures group { IsGroup group.new }
    ensures step { IsRowStep group.old group.new }
{
    let place = place_of(&group.index, group.entries.as_slice(), &change.name);
    if let Some(place) = place {
        let rows = group.entries.as_slice();
        let changed = with_change(&rows[place], change)?;
        group.entries.replace(place, changed)?;
    }
    Ok(())
}

/// Removes the entry of that name, of which there is one at most.
pub(crate) fn remove(group: &mut Group, name: &EntryName) -> Result<(), NoMemory>
    requires { IsGroup group.old }
    ensures ok { OnOk result (group.new.entries.items ≡ deleted name.now group.old.entries.items) }
    ensures err { OnErr result (group.new.entries.items ≡ group.old.entries.items) }
    ensures group { IsGroup group.new }
    ensures step { IsRowStep group.old group.new }
{
    let place = place_of(&group.index, group.entries.as_slice(), name);
    if let Some(place) = place {
        let rows = group.entries.as_slice();
        let row = MatchIndex::row(name, rows[place].seq);
        group.noted.push(row)?;
        group.entries.remove(place)?;
    }
    Ok(())
}

// Takes the row out of the index if its entry is gone.
fn forget(index: &mut MatchIndex, entries: &[Entry], row: Row)
    requires order { AreInOrder entries.now }
    requires covered { Covers index.old entries.now }
    ensures covered { Covers index.new entries.now }
    ensures gone { (tests : spec.List FieldTest) → row_of tests row.seq ≡ row → position (λ entry. entry.seq == row.seq) entries.now ≡ None → has_row index.new tests row.seq ≡ false }
{
    match place_of_number(entries, row.seq) {
        Some(_) => {}
        None => index.remove(row),
    }
}

fn forget_each(index: &mut MatchIndex, entries: &[Entry], rows: &[Row])
    requires order { AreInOrder entries.now }
    requires covered { Covers index.old entries.now }
    ensures { Covers index.new entries.now }
{
    for row in rows {
        forget(index, entries, *row);
    }
}

// Takes the noted rows whose entries are gone out of the index.
fn forget_gone(group: &mut Group)
    requires { IsGroup group.old }
    ensures entries { group.new.entries ≡ group.old.entries }
    ensures table { group.old.table ≡ group.new.table }
    ensures group { IsGroup group.new }
{
    forget_each(
        &mut group.index,
        group.entries.as_slice(),
        group.noted.as_slice(),
    );
    group.noted.clear();
}

/// Keeps the changes. It takes no memory.
pub(crate) fn settle(group: &mut Group)
    requires { IsGroup group.old }
    ensures items { group.new.entries.items ≡ group.old.entries.items }
    ensures before { group.new.entries.before ≡ group.old.entries.items }
    ensures table { group.old.table ≡ group.new.table }
    ensures group { IsGroup group.new }
{
    group.entries.settle();
    forget_gone(group);
}

/// Undoes the changes. It takes no memory.
pub(crate) fn restore(group: &mut Group)
    requires { WasGroup group.old }
    ensures items { group.new.entries.items ≡ group.old.entries.before }
    ensures before { group.new.entries.before ≡ group.old.entries.before }
    ensures table { group.old.table ≡ group.new.table }
    ensures group { IsGroup group.new }
    ensures was { WasGroup group.new }
{
    group.entries.undo();
    forget_gone(group);
}
