//! The entries of a program's tables.
ghost use Rattle.std.specs.Prelude.{◌≡◌, [], ◌∷◌, ◌++◌, ◌==◌, ◌<◌, All, filter, length, OnOk, OnErr, IfSome, MatchOption};
ghost use Rattle.std.specs.List.{AllPairs};
ghost use Rattle.std.specs.Option.{option_map};
ghost use Rattle.plane_spec.specs.Entries.{entry_named, best, insert_cause, absence_cause, new_entry, next_number, inserted, modified, deleted};
ghost use Rattle.plane_spec.specs.Order.{StandsBefore};
ghost use Rattle.plane_spec.specs.Profiles.{entry_rows};
ghost use Rattle.table_store.specs.Answers.{Refuses};
ghost use Rattle.table_store.specs.Order.{AreOfOneTable, AreOfLowerTables};

use crate::groups::{self, Group};
use crate::{causes, changes};
use list_types::{NoMemory, Refusal};
use p4_types::code::Cause;
use p4_types::info::Table;
use p4_types::table::{Entry, EntryChange, EntryName, Room};
use std::alloc::Global;
use std::marker::Model;

/// The entries of a program's tables, whose changes can be undone until they are kept. Contracts see one list of
/// them, by rising table id, those of a table by rising sequence number; and beside it the list before the changes
/// that can be undone. What a change, the keeping or the undoing takes does not grow with the entries of other tables.
#[derive(Drop)]
pub struct TableStore {
    pub(crate) groups: Vec<Group>,
    pub(crate) entries: usize,
    /// How many entries there were before.
    pub(crate) former: usize,
    /// The tables that were changed.
    pub(crate) touched: Vec<u32>,
}

impl Model for TableStore {
    ghost use Rattle.table_store.specs.Groups.{flat};
    ghost use Rattle.table_store.specs.Undo.{StoreVersions, was, IsStore};

    ghost Value = { StoreVersions };

    ghost view = { λ store. record { entries = flat store.groups.items; before = was store.groups.items } };

    ghost invariant = { λ store. IsStore store.groups.items store.entries store.former store.touched.items };
}

// Notes a table that will be changed.
fn touch(touched: &mut Vec<u32>, table: u32) -> Result<(), NoMemory>
    ensures ok { OnOk result (touched.new.items ≡ touched.old.items ++ table ∷ []) }
    ensures err { OnErr result (touched.new.items ≡ touched.old.items) }
{
    touched.push(table)?;
    Ok(())
}

impl TableStore {
    /// A store with no entries, which takes no memory.
    pub fn open(alloc: Global) -> TableStore
        ensures { result ≡ record { entries = []; before = [] } }
    {
        TableStore {
            groups: Vec::new(alloc),
            entries: 0,
            former: 0,
            touched: Vec::new(alloc),
        }
    }

    /// How many entries there are.
    pub fn len(&self) -> usize
        ensures { result ≡ length self.now.entries }
    {
        self.entries
    }

    /// The entries of a table, in the order in which they were inserted.
    pub fn entries_of(&self, table: u32) -> &[Entry]
        ensures { result.now ≡ filter (λ entry. entry.name.table == table) self.now.entries }
    {
        groups::entries_of(&self.groups, table)
    }

    /// The entry of that name.
    pub fn find(&self, name: &EntryName) -> Option<&Entry>
        ensures { option_map (λ entry. entry.now) result ≡ entry_named name.now self.now.entries }
    {
        groups::find(&self.groups, name)
    }

    /// The entry of a table that a key takes, whose numbers stand in the order of the table's match fields.
    pub fn best(&self, table: u32, key: &[u128]) -> Option<&Entry>
        ensures { option_map (λ entry. entry.now) result ≡ best table key.now self.now.entries }
    {
        groups::best(&self.groups, table, key)
    }

    /// Why an INSERT of an entry is refused that takes so many rows: it is there (U10), or there is no room (U12).
    pub fn insert_cause(
        &self,
        table: &Table,
        name: &EntryName,
        rows: u64,
        room: Room,
    ) -> Option<Cause>
        ensures { result ≡ insert_cause table.now rows room name.now self.now.entries }
    {
        causes::insert_cause(&self.groups, table, name, rows, room)
    }

    /// Why a MODIFY or a DELETE is refused: the entry is absent (U10).
    pub fn absence_cause(&self, name: &EntryName) -> Option<Cause>
        ensures { result ≡ absence_cause name.now self.now.entries }
    {
        causes::absence_cause(&self.groups, name)
    }

    /// Makes the entry of an INSERT, which has the next sequence number, and the next slot if the table counts;
    /// refused for its `insert_cause`, or for want of memory.
    pub fn insert(
        &mut self,
        alloc: Global,
        table: &Table,
        change: &EntryChange,
        room: Room,
    ) -> Result<(), Refusal<Cause>>
        requires table { change.now.name.table ≡ table.now.preamble.id }
        requires above { All (λ entry. entry.seq < next_number room) self.old.entries }
        ensures refused { Refuses result (insert_cause table.now (entry_rows change.now.action) room change.now.name self.old.entries) }
        ensures ok { OnOk result (self.new.entries ≡ inserted (new_entry table.now room change.now) self.old.entries) }
        ensures err { OnErr result (self.new.entries ≡ self.old.entries) }
        ensures before { self.new.before ≡ self.old.before }
    {
        // No memory holds more entries than a `usize` counts.
        let Some(entries) = self.entries.checked_add(1) else {
            return Err(Refusal::NoMemory);
        };
        touch(&mut self.touched, change.name.table)?;
        changes::insert(&mut self.groups, alloc, table, change, room)?;
        self.entries = entries;
        Ok(())
    }

    /// Replaces action and metadata of an entry, which keeps its place, sequence number and slot; refused for
    /// its `absence_cause`, or for want of memory.
    pub fn modify(&mut self, change: &EntryChange) -> Result<(), Refusal<Cause>>
        ensures refused { Refuses result (absence_cause change.now.name self.old.entries) }
        ensures ok { OnOk result (self.new.entries ≡ modified change.now self.old.entries) }
        ensures err { OnErr result (self.new.entries ≡ self.old.entries) }
        ensures before { self.new.before ≡ self.old.before }
    {
        touch(&mut self.touched, change.name.table)?;
        changes::modify(&mut self.groups, change)
    }

    /// Removes an entry; refused for its `absence_cause`, or for want of memory.
    pub fn delete(&mut self, name: &EntryName) -> Result<(), Refusal<Cause>>
        ensures refused { Refuses result (absence_cause name.now self.old.entries) }
        ensures ok { OnOk result (self.new.entries ≡ deleted name.now self.old.entries) }
        ensures err { OnErr result (self.new.entries ≡ self.old.entries) }
        ensures before { self.new.before ≡ self.old.before }
    {
        touch(&mut self.touched, name.table)?;
        changes::delete(&mut self.groups, name)?;
        self.entries -= 1;
        Ok(())
    }

    /// Keeps all changes: they can no longer be undone. It takes no memory.
    pub fn keep(&mut self)
        ensures entries { self.new.entries ≡ self.old.entries }
        ensures before { self.new.before ≡ self.old.entries }
    {
        groups::settle_all(&mut self.groups, &self.touched);
        self.touched.clear();
        self.former = self.entries;
    }

    /// Undoes all changes. It takes no memory.
    pub fn undo(&mut self)
        ensures entries { self.new.entries ≡ self.old.before }
        ensures before { self.new.before ≡ self.old.before }
    {
        groups::restore_all(&mut self.groups, &self.touched);
        self.touched.clear();
        self.entries = self.former;
    }

    /// The entries from the first on, a table at a time.
    pub fn tables(&self) -> Tables<'_>
        ensures all { result ≡ self.now.entries }
        ensures order { AllPairs StandsBefore self.now.entries }
    {
        Tables { left: &self.groups }
    }
}

/// Entries to be read a table at a time, which contracts see as the list of those that are left.
#[derive(Drop)]
pub struct Tables<'a> {
    left: &'a [Group],
}

impl<'a> Model for Tables<'a> {
    ghost use Rattle.std.specs.Prelude.{List};
    ghost use Rattle.p4_types.specs.declared.table.Entry.{Entry};
    ghost use Rattle.table_store.specs.Groups.{flat, AreGroups};

    ghost Value = { List Entry };

    ghost view = { λ tables. flat tables.left.now };

    ghost invariant = { λ tables. AreGroups tables.left.now };
}

impl<'a> Tables<'a> {
    /// The entries of the next table that has any.
    pub fn next(&mut self) -> Option<&'a [Entry]>
        ensures next { MatchOption result (self.old ≡ []) (λ entries. self.old ≡ entries.now ++ self.new) }
        ensures some { IfSome result (λ entries. 0 < length entries.now) }
        ensures one_table { IfSome result (λ entries. AreOfOneTable entries.now) }
        ensures lower { IfSome result (λ entries. AreOfLowerTables entries.now self.new) }
    {
        let (entries, others) = groups::next(self.left)?;
        self.left = others;
        Some(entries)
    }
}
