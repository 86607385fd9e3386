//! Why a change of the tables is refused.
ghost use Rattle.std.specs.Prelude.{◌≡◌, ◌||◌, nat_lt, is_some};
ghost use Rattle.plane_spec.specs.Entries.{entry_named, insert_cause, absence_cause, is_full, table_size, is_counted, slots_drawn};
ghost use Rattle.plane_spec.specs.Profiles.{entry_rows};
ghost use Rattle.table_store.specs.Groups.{flat, AreGroups};

use crate::groups::{self, Group, entries_of};
use p4_types::code::{Cause, Code, Rule};
use p4_types::info::Table;
use p4_types::table::{EntryAction, EntryName, Room};

fn has(groups: &[Group], name: &EntryName) -> bool
    requires { AreGroups groups.now }
    ensures { result ≡ is_some (entry_named name.now (flat groups.now)) }
{
    groups::find(groups, name).is_some()
}

/// How many entries a table may have; where the P4Info leaves the number to the switch, it is 1,024.
fn table_size(table: &Table) -> u64
    ensures { result ≡ table_size table.now }
{
    if table.size == 0 { 1024 } else { table.size }
}

/// Whether the entries of a table count their packets: it has a direct counter.
pub(crate) fn is_counted(table: &Table) -> bool
    ensures { result ≡ is_counted table.now }
{
    !table.direct_counters.is_empty()
}

/// How many slots an INSERT into the table draws.
pub fn slots_drawn(table: &Table) -> u32
    ensures { result ≡ slots_drawn table.now }
{
    if is_counted(table) { 1 } else { 0 }
}

fn lacks_room(table: &Table, rows: u64, room: Room) -> bool
    ensures { result ≡ (nat_lt room.rows rows || nat_lt room.slots (slots_drawn table.now) || nat_lt room.numbers 1) }
{
    u64::from(room.rows) < rows || room.slots < slots_drawn(table) || room.numbers < 1
}

/// Whether one entry more, which takes so many rows, would exceed the table's size, the rows, the slots or the sequence
/// numbers.
fn is_full(groups: &[Group], table: &Table, rows: u64, room: Room) -> bool
    requires { AreGroups groups.now }
    ensures { result ≡ is_full table.now rows room (flat groups.now) }
{
    let entries = entries_of(groups, table.preamble.id).len() as u64;
    table_size(table) <= entries || lacks_room(table, rows, room)
}

/// How many rows an entry takes that does this: one, and one for each action of its one-shot set.
pub fn entry_rows(action: &EntryAction) -> u64
    ensures { result ≡ entry_rows action.now }
{
    match action {
        EntryAction::Set { calls, .. } => calls.get().as_slice().len() as u64 + 1,
        _ => 1,
    }
}

/// Why an INSERT is refused: the entry is there (U10), or there is no room (U12).
#[tactic(auto, unfolding(plane_spec::specs::Entries::insert_cause))]
pub(crate) fn insert_cause(
    groups: &[Group],
    table: &Table,
    name: &EntryName,
    rows: u64,
    room: Room,
) -> Option<Cause>
    requires { AreGroups groups.now }
    ensures { result ≡ insert_cause table.now rows room name.now (flat groups.now) }
{
    if has(groups, name) {
        return Some(Cause {
            rule: Rule::U10,
            code: Code::AlreadyExists,
        });
    }
    if is_full(groups, table, rows, room) {
        return Some(Cause {
            rule: Rule::U12,
            code: Code::ResourceExhausted,
        });
    }
    None
}

/// Why a MODIFY or a DELETE is refused: the entry is absent (U10).
#[tactic(auto, unfolding(plane_spec::specs::Entries::absence_cause))]
pub(crate) fn absence_cause(groups: &[Group], name: &EntryName) -> Option<Cause>
    requires { AreGroups groups.now }
    ensures { result ≡ absence_cause name.now (flat groups.now) }
{
    if has(groups, name) {
        return None;
    }
    Some(Cause {
        rule: Rule::U10,
        code: Code::NotFound,
    })
}
