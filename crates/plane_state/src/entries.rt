//! Changes of entries.
ghost use Rattle.std.specs.Prelude.{◌≡◌, ◌<◌, All, IfOk, OnOk};
ghost use Rattle.plane_spec.specs.Entries.{next_number, entry_named, absence_cause, modified, deleted};
ghost use Rattle.plane_spec.specs.Objects.{table_of};
ghost use Rattle.plane_spec.specs.Planes.{insert_cause_in, modify_cause_in};
ghost use Rattle.plane_state.specs.Answers.{WithMemory, WhereRefused};
ghost use Rattle.plane_state.specs.Versions.{IsCounted, insert_after, drawn_by_insert};
ghost use Rattle.table_store.specs.Answers.{Refuses};

use crate::causes::{ABSENT, FULL, UNKNOWN};
use crate::parts::{Drawn, NOTHING, Parts, more};
use list_types::Refusal;
use p4_types::code::Cause;
use p4_types::table::{EntryChange, EntryName, Room};
use std::alloc::Global;
use table_store::{entry_rows, slots_drawn};

impl Parts {
    /// Makes an entry, whose action names from now on what it names.
    pub(crate) fn insert_entry(
        &mut self,
        alloc: Global,
        room: Room,
        change: &EntryChange,
    ) -> Result<Drawn, Refusal<Cause>>
        requires counted { IsCounted self.old.now }
        requires above { All (λ entry. entry.seq < next_number room) self.old.now.plane.entries }
        ensures refused { Refuses result (insert_cause_in (table_of change.now.name.table self.old.now.plane.config.info) room self.old.now.plane change.now) }
        ensures ok { OnOk result (self.new.now.plane ≡ insert_after (table_of change.now.name.table self.old.now.plane.config.info) room self.old.now.plane change.now) }
        ensures drawn { IfOk result (λ drawn. drawn ≡ drawn_by_insert (table_of change.now.name.table self.old.now.plane.config.info)) }
        ensures stays { WhereRefused result (self.new.now ≡ self.old.now) }
        ensures counted { WithMemory result (IsCounted self.new.now) }
        ensures before { self.new.before ≡ self.old.before }
    {
        if let Some(cause) = self.insert_use_cause(change) {
            return Err(Refusal::For(cause));
        }
        let Some(table) = self.config.get().info().table(change.name.table) else {
            return Err(Refusal::For(UNKNOWN));
        };
        if let Err(refusal) = self.store.insert(alloc, table, change, room) {
            return Err(refusal);
        }
        self.profiles.take(&change.action)?;
        let rows = more(self.rows, entry_rows(&change.action))?;
        self.rows = rows;
        Ok(Drawn {
            numbers: 1,
            slots: slots_drawn(table),
        })
    }

    /// Gives an entry another action and other metadata. What its former action named is no longer named by it.
    pub(crate) fn modify_entry(
        &mut self,
        room: Room,
        change: &EntryChange,
    ) -> Result<Drawn, Refusal<Cause>>
        requires counted { IsCounted self.old.now }
        ensures refused { Refuses result (modify_cause_in (entry_named change.now.name self.old.now.plane.entries) room self.old.now.plane change.now) }
        ensures ok { OnOk result (self.new.now.plane ≡ record self.old.now.plane { entries = modified change.now self.old.now.plane.entries }) }
        ensures drawn { IfOk result (λ drawn. drawn ≡ record { numbers = 0; slots = 0 }) }
        ensures stays { WhereRefused result (self.new.now ≡ self.old.now) }
        ensures counted { WithMemory result (IsCounted self.new.now) }
        ensures before { self.new.before ≡ self.old.before }
    {
        // The entries stand in order, so that one at most has the name.
        let _ = self.store.tables();
        let Some(former) = self.store.find(&change.name) else {
            return Err(Refusal::For(ABSENT));
        };
        if let Some(cause) = self.use_cause(Some(former), &change.action) {
            return Err(Refusal::For(cause));
        }
        let freed = entry_rows(&former.action);
        let taken = entry_rows(&change.action);
        if u128::from(room.rows) + u128::from(freed) < u128::from(taken) {
            return Err(Refusal::For(FULL));
        }
        let action = former.action.share()?;
        if let Err(refusal) = self.store.modify(change) {
            return Err(refusal);
        }
        self.profiles.take(&change.action)?;
        self.profiles.give_back(&action)?;
        let rows = more(self.rows - freed, taken)?;
        self.rows = rows;
        Ok(NOTHING)
    }

    /// Removes an entry. What its action named is no longer named by it.
    pub(crate) fn delete_entry(&mut self, name: &EntryName) -> Result<Drawn, Refusal<Cause>>
        requires counted { IsCounted self.old.now }
        ensures refused { Refuses result (absence_cause name.now self.old.now.plane.entries) }
        ensures ok { OnOk result (self.new.now.plane ≡ record self.old.now.plane { entries = deleted name.now self.old.now.plane.entries }) }
        ensures drawn { IfOk result (λ drawn. drawn ≡ record { numbers = 0; slots = 0 }) }
        ensures stays { WhereRefused result (self.new.now ≡ self.old.now) }
        ensures counted { WithMemory result (IsCounted self.new.now) }
        ensures before { self.new.before ≡ self.old.before }
    {
        // The entries stand in order, so that one at most has the name.
        let _ = self.store.tables();
        let Some(former) = self.store.find(name) else {
            return Err(Refusal::For(ABSENT));
        };
        let action = former.action.share()?;
        self.store.delete(name)?;
        self.profiles.give_back(&action)?;
        self.rows -= entry_rows(&action);
        Ok(NOTHING)
    }
}
