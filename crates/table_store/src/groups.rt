//! The entries by their tables.
ghost use Rattle.std.specs.Prelude.{◌≡◌, ◌==◌, ◌<◌, ◌+◌, [], ◌∷◌, ◌++◌, ℕ, filter, length, IfOk, IfErr, OnOk, OnErr, IfSome, MatchOption, is_some, true};
ghost use Rattle.std.specs.Prelude as spec;
ghost use Rattle.std.specs.List.{AllByRecursion};
ghost use Rattle.std.specs.Option.{option_map};
ghost use Rattle.plane_spec.specs.Entries.{new_entry, inserted, modified, deleted, entry_named, best};
ghost use Rattle.table_store.specs.Order.{AreOfOneTable, AreOfLowerTables};
ghost use Rattle.table_store.specs.Groups.{flat, IsGroup, AreGroups, IsAt, IsGap, IsFresh};
ghost use Rattle.table_store.specs.Undo.{was, WasGroup, IsTouched, IsStep};

use crate::rows;
use list_types::NoMemory;
use match_index::{MatchIndex, Row};
use p4_types::info::Table;
use p4_types::table::{Entry, EntryChange, EntryName, Room};
use std::alloc::Global;
use undo_vec::UndoVec;

/// The entries of a table, in the order in which they were inserted, and an index of them.
#[derive(Drop)]
pub(crate) struct Group {
    pub(crate) table: u32,
    pub(crate) entries: UndoVec<Entry>,
    pub(crate) index: MatchIndex,
    /// The rows of entries that the next settling or undoing may leave without their entry.
    pub(crate) noted: Vec<Row>,
}

/// Where the table's group stands, or where it would stand.
fn place_of(groups: &[Group], table: u32) -> Result<usize, usize>
    requires { AreGroups groups.now }
    ensures found { IfOk result (IsAt groups.now table) }
    ensures absent { IfErr result (IsGap groups.now table) }
{
    groups.binary_search_by_key(&table, |group| group.table)
}

/// The entries of a table.
pub(crate) fn entries_of(groups: &[Group], table: u32) -> &[Entry]
    requires { AreGroups groups.now }
    ensures { result.now ≡ filter (λ entry. entry.name.table == table) (flat groups.now) }
{
    match place_of(groups, table) {
        Ok(place) => groups[place].entries.as_slice(),
        Err(_) => &[],
    }
}

/// The entry of that name.
pub(crate) fn find<'a>(groups: &'a [Group], name: &EntryName) -> Option<&'a Entry>
    requires { AreGroups groups.now }
    ensures { option_map (λ entry. entry.now) result ≡ entry_named name.now (flat groups.now) }
{
    match place_of(groups, name.table) {
        Ok(place) => {
            let group = &groups[place];
            group.index.find(group.entries.as_slice(), name)
        }
        Err(_) => None,
    }
}

/// The entry of a table that a key takes.
pub(crate) fn best<'a>(groups: &'a [Group], table: u32, key: &[u128]) -> Option<&'a Entry>
    requires { AreGroups groups.now }
    ensures { option_map (λ entry. entry.now) result ≡ best table key.now (flat groups.now) }
{
    match place_of(groups, table) {
        Ok(place) => {
            let group = &groups[place];
            group.index.best(table, key, group.entries.as_slice())
        }
        Err(_) => None,
    }
}

/// Adds the entry that an INSERT makes behind those of its table.
pub(crate) fn insert(
    groups: &mut Vec<Group>,
    alloc: Global,
    table: &Table,
    room: Room,
    change: &EntryChange,
) -> Result<(), NoMemory>
    requires groups { AreGroups groups.old.items }
    requires fresh { IsFresh (new_entry table.now room change.now) (flat groups.old.items) }
    ensures ok { OnOk result (flat groups.new.items ≡ inserted (new_entry table.now room change.now) (flat groups.old.items)) }
    ensures err { OnErr result (flat groups.new.items ≡ flat groups.old.items) }
    ensures groups { AreGroups groups.new.items }
    ensures step { IsStep change.now.name.table groups.old.items groups.new.items }
{
    match place_of(groups, change.name.table) {
        Ok(place) => {
            let group = &mut groups[place];
            rows::add(group, alloc, table, room, change)?;
        }
        Err(place) => {
            groups.insert(place, opened(alloc, table, room, change)?)?;
        }
    }
    Ok(())
}

// A group of one entry, which was opened for it.
fn opened(alloc: Global, table: &Table, room: Room, change: &EntryChange) -> Result<Group, NoMemory>
    ensures table { IfOk result (λ group. group.table ≡ change.now.name.table) }
    ensures entries { IfOk result (λ group. group.entries.items ≡ new_entry table.now room change.now ∷ []) }
    ensures before { IfOk result (λ group. group.entries.before ≡ []) }
    ensures group { IfOk result IsGroup }
{
    let mut group = Group {
        table: change.name.table,
        entries: UndoVec::new(alloc),
        index: MatchIndex::new(alloc),
        noted: Vec::new(alloc),
    };
    rows::add(&mut group, alloc, table, room, change)?;
    Ok(group)
}

/// Gives the entry of that name what the change brings.
pub(crate) fn change(groups: &mut Vec<Group>, change: &EntryChange) -> Result<(), NoMemory>
    requires { AreGroups groups.old.items }
    ensures changed { OnOk result (flat groups.new.items ≡ modified change.now (flat groups.old.items)) }
    ensures err { OnErr result (flat groups.new.items ≡ flat groups.old.items) }
    ensures groups { AreGroups groups.new.items }
    ensures step { IsStep change.now.name.table groups.old.items groups.new.items }
{
    if let Ok(place) = place_of(groups, change.name.table) {
        let group = &mut groups[place];
        rows::change(group, change)?;
    }
    Ok(())
}

/// Removes the entry of that name.
pub(crate) fn remove(groups: &mut Vec<Group>, name: &EntryName) -> Result<(), NoMemory>
    requires { AreGroups groups.old.items }
    ensures removed { OnOk result (flat groups.new.items ≡ deleted name.now (flat groups.old.items)) }
    ensures one { OnOk result (is_some (entry_named name.now (flat groups.old.items)) ≡ true → length (flat groups.new.items) + 1 ≡ length (flat groups.old.items)) }
    ensures err { OnErr result (flat groups.new.items ≡ flat groups.old.items) }
    ensures groups { AreGroups groups.new.items }
    ensures step { IsStep name.now.table groups.old.items groups.new.items }
{
    if let Ok(place) = place_of(groups, name.table) {
        let group = &mut groups[place];
        rows::remove(group, name)?;
    }
    Ok(())
}

/// Keeps the changes of a table. It takes no memory.
pub(crate) fn settle(groups: &mut Vec<Group>, table: u32)
    requires { AreGroups groups.old.items }
    ensures entries { flat groups.new.items ≡ flat groups.old.items }
    ensures groups { AreGroups groups.new.items }
    ensures touched { (tables : spec.List ℕ) → AllByRecursion (IsTouched (table ∷ tables)) groups.old.items → AllByRecursion (IsTouched tables) groups.new.items }
{
    if let Ok(place) = place_of(groups, table) {
        let group = &mut groups[place];
        rows::settle(group);
    }
}

/// Undoes the changes of a table. It takes no memory.
pub(crate) fn restore(groups: &mut Vec<Group>, table: u32)
    requires groups { AreGroups groups.old.items }
    requires kept { AllByRecursion WasGroup groups.old.items }
    ensures before { was groups.new.items ≡ was groups.old.items }
    ensures groups { AreGroups groups.new.items }
    ensures kept { AllByRecursion WasGroup groups.new.items }
    ensures touched { (tables : spec.List ℕ) → AllByRecursion (IsTouched (table ∷ tables)) groups.old.items → AllByRecursion (IsTouched tables) groups.new.items }
{
    if let Ok(place) = place_of(groups, table) {
        let group = &mut groups[place];
        rows::restore(group);
    }
}

/// Keeps the changes of the tables, which are all that were changed.
pub(crate) fn settle_all(groups: &mut Vec<Group>, tables: &[u32])
    requires groups { AreGroups groups.old.items }
    requires touched { AllByRecursion (IsTouched tables.now) groups.old.items }
    ensures entries { flat groups.new.items ≡ flat groups.old.items }
    ensures groups { AreGroups groups.new.items }
    ensures settled { AllByRecursion (IsTouched []) groups.new.items }
{
    for table in tables {
        settle(groups, *table);
    }
}

/// Undoes the changes of the tables, which are all that were changed.
pub(crate) fn restore_all(groups: &mut Vec<Group>, tables: &[u32])
    requires groups { AreGroups groups.old.items }
    requires kept { AllByRecursion WasGroup groups.old.items }
    requires touched { AllByRecursion (IsTouched tables.now) groups.old.items }
    ensures entries { flat groups.new.items ≡ was groups.old.items }
    ensures groups { AreGroups groups.new.items }
    ensures settled { AllByRecursion (IsTouched []) groups.new.items }
{
    for table in tables {
        restore(groups, *table);
    }
}

/// The entries of the first group that has any, with the groups behind it.
pub(crate) fn next(groups: &[Group]) -> Option<(&[Entry], &[Group])>
    requires { AreGroups groups.now }
    ensures next { MatchOption result (flat groups.now ≡ []) (λ found. flat groups.now ≡ found.0.now ++ flat found.1.now) }
    ensures some { IfSome result (λ found. 0 < length found.0.now) }
    ensures one_table { IfSome result (λ found. AreOfOneTable found.0.now) }
    ensures lower { IfSome result (λ found. AreOfLowerTables found.0.now (flat found.1.now)) }
    ensures groups { IfSome result (λ found. AreGroups found.1.now) }
{
    match groups {
        [] => None,
        [group, others @ ..] => {
            let entries = group.entries.as_slice();
            if entries.is_empty() {
                next(others)
            } else {
                Some((entries, others))
            }
        }
    }
}
