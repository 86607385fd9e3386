//! Changes of the entries by their tables, which can be undone.
ghost use Rattle.std.specs.Prelude.{◌≡◌, ◌+◌, ◌<◌, All, length, OnOk, OnErr};
ghost use Rattle.plane_spec.specs.Entries.{insert_cause, absence_cause, new_entry, next_number, inserted, modified, deleted};
ghost use Rattle.plane_spec.specs.Profiles.{entry_rows};
ghost use Rattle.table_store.specs.Answers.{Refuses};
ghost use Rattle.table_store.specs.Undo.{IsStep};
ghost use Rattle.table_store.specs.Groups.{flat, AreGroups};

use crate::causes::{absence_cause, entry_rows, insert_cause};
use crate::groups::{self, Group};
use list_types::Refusal;
use p4_types::code::Cause;
use p4_types::info::Table;
use p4_types::table::{EntryChange, EntryName, Room};
use std::alloc::Global;

/// Makes the entry of an INSERT.
pub(crate) fn insert(
    groups: &mut Vec<Group>,
    alloc: Global,
    table: &Table,
    change: &EntryChange,
    room: Room,
) -> Result<(), Refusal<Cause>>
    requires groups { AreGroups groups.old.items }
    requires table { change.now.name.table ≡ table.now.preamble.id }
    requires above { All (λ entry. entry.seq < next_number room) (flat groups.old.items) }
    ensures refused { Refuses result (insert_cause table.now (entry_rows change.now.action) room change.now.name (flat groups.old.items)) }
    ensures ok { OnOk result (flat groups.new.items ≡ inserted (new_entry table.now room change.now) (flat groups.old.items)) }
    ensures err { OnErr result (flat groups.new.items ≡ flat groups.old.items) }
    ensures groups { AreGroups groups.new.items }
    ensures step { IsStep change.now.name.table groups.old.items groups.new.items }
{
    let rows = entry_rows(&change.action);
    if let Some(cause) = insert_cause(groups, table, &change.name, rows, room) {
        return Err(Refusal::For(cause));
    }
    groups::insert(groups, alloc, table, room, change)?;
    Ok(())
}

/// Replaces action and metadata of the entry of a MODIFY.
pub(crate) fn modify(groups: &mut Vec<Group>, change: &EntryChange) -> Result<(), Refusal<Cause>>
    requires { AreGroups groups.old.items }
    ensures refused { Refuses result (absence_cause change.now.name (flat groups.old.items)) }
    ensures ok { OnOk result (flat groups.new.items ≡ modified change.now (flat groups.old.items)) }
    ensures err { OnErr result (flat groups.new.items ≡ flat groups.old.items) }
    ensures groups { AreGroups groups.new.items }
    ensures step { IsStep change.now.name.table groups.old.items groups.new.items }
{
    if let Some(cause) = absence_cause(groups, &change.name) {
        return Err(Refusal::For(cause));
    }
    groups::change(groups, change)?;
    Ok(())
}

/// Removes the entry of a DELETE.
pub(crate) fn delete(groups: &mut Vec<Group>, name: &EntryName) -> Result<(), Refusal<Cause>>
    requires { AreGroups groups.old.items }
    ensures refused { Refuses result (absence_cause name.now (flat groups.old.items)) }
    ensures ok { OnOk result (flat groups.new.items ≡ deleted name.now (flat groups.old.items)) }
    ensures one { OnOk result (length (flat groups.new.items) + 1 ≡ length (flat groups.old.items)) }
    ensures err { OnErr result (flat groups.new.items ≡ flat groups.old.items) }
    ensures groups { AreGroups groups.new.items }
    ensures step { IsStep name.now.table groups.old.items groups.new.items }
{
    if let Some(cause) = absence_cause(groups, name) {
        return Err(Refusal::For(cause));
    }
    groups::remove(groups, name)?;
    Ok(())
}
