//! Changes of the multicast groups, by rising id.
ghost use Rattle.std.specs.Prelude.{◌≡◌, ◌+◌, ◌-◌, ◌≤◌, ◌||◌, nat_lt, length, is_some, Some, IfOk, IfErr, OnOk, OnErr};
ghost use Rattle.std.specs.Option.{option_map};
ghost use Rattle.p4_types.specs.declared.multicast.MulticastChange.TheVariants as multicast_changes;
ghost use Rattle.plane_spec.specs.Multicast.{multicast_limit, multicast_of, multicast_rows, with_multicast, multicast_changed};
ghost use Rattle.plane_spec.specs.Planes.{if_absent, multicast_insert_cause, multicast_modify_cause, multicast_cause_in};
ghost use Rattle.plane_state.specs.Answers.{WithMemory, WhereRefused};
ghost use Rattle.plane_state.specs.Versions.{IsCounted, group_changed, rows_at, rows_brought};
ghost use Rattle.table_store.specs.Answers.{Refuses};
ghost use Rattle.table_store.specs.Rising.{AreRising, StandsAt, WouldStandAt};

use crate::causes::{ABSENT, FULL, PRESENT};
use crate::parts::{Drawn, NOTHING, Parts, more};
use list_types::Refusal;
use p4_types::code::Cause;
use p4_types::multicast::{MulticastChange, MulticastGroup};
use p4_types::table::Room;
use undo_vec::UndoVec;

/// The most multicast groups of a plane.
const GROUP_LIMIT: usize = 1024;

// Where the group of an id stands, or where it would stand.
fn place_of(groups: &[MulticastGroup], id: u128) -> Result<usize, usize>
    requires { AreRising (λ g. g.id) groups.now }
    ensures found { IfOk result (StandsAt (λ g. g.id) groups.now id) }
    ensures absent { IfErr result (WouldStandAt (λ g. g.id) groups.now id) }
{
    groups.binary_search_by_key(&id, |group| u128::from(group.id))
}

/// The multicast group of an id, if there is one.
pub(crate) fn multicast_in(groups: &[MulticastGroup], id: u128) -> Option<&MulticastGroup>
    requires { AreRising (λ g. g.id) groups.now }
    ensures { option_map (λ group. group.now) result ≡ multicast_of id groups.now }
{
    match place_of(groups, id) {
        Ok(place) => Some(&groups[place]),
        Err(_) => None,
    }
}

// How many rows a group takes.
fn rows_of(group: &MulticastGroup) -> u64
    ensures rows { result ≡ multicast_rows group.now }
    ensures few { result ≤ 33 }
{
    group.replicas.as_slice().len() as u64 + 1
}

// Whether there is no room for a group more (U12).
fn is_full(groups: &UndoVec<MulticastGroup>, room: Room, group: &MulticastGroup) -> bool
    ensures { result ≡ (nat_lt multicast_limit (length groups.now.items + 1) || nat_lt room.rows (multicast_rows group.now)) }
{
    groups.len() >= GROUP_LIMIT || u64::from(room.rows) < rows_of(group)
}

// Adds a group.
fn insert(
    groups: &mut UndoVec<MulticastGroup>,
    room: Room,
    group: &MulticastGroup,
) -> Result<(), Refusal<Cause>>
    requires { AreRising (λ g. g.id) groups.old.items }
    ensures refused { Refuses result (multicast_insert_cause room groups.old.items group.now) }
    ensures ok { OnOk result (groups.new.items ≡ with_multicast group.now groups.old.items) }
    ensures err { OnErr result (groups.new.items ≡ groups.old.items) }
    ensures before { groups.new.before ≡ groups.old.before }
{
    let place = place_of(groups.as_slice(), u128::from(group.id));
    match place {
        Ok(_) => Err(Refusal::For(PRESENT)),
        Err(_) if is_full(groups, room, group) => Err(Refusal::For(FULL)),
        Err(place) => Ok(groups.insert(place, group.copy())?),
    }
}

// Whether a group needs more rows than what it replaces takes and is left (U12).
fn exceeds(former: &MulticastGroup, room: Room, group: &MulticastGroup) -> bool
    ensures { result ≡ nat_lt (room.rows + multicast_rows former.now) (multicast_rows group.now) }
{
    u64::from(room.rows) + rows_of(former) < rows_of(group)
}

// Puts a group in the place of the one of its id.
fn modify(
    groups: &mut UndoVec<MulticastGroup>,
    room: Room,
    group: &MulticastGroup,
) -> Result<(), Refusal<Cause>>
    requires { AreRising (λ g. g.id) groups.old.items }
    ensures refused { Refuses result (multicast_modify_cause (multicast_of group.now.id groups.old.items) room group.now) }
    ensures ok { OnOk result (groups.new.items ≡ with_multicast group.now groups.old.items) }
    ensures err { OnErr result (groups.new.items ≡ groups.old.items) }
    ensures before { groups.new.before ≡ groups.old.before }
{
    let standing = groups.as_slice();
    let place = place_of(standing, u128::from(group.id));
    match place {
        Ok(place) if exceeds(&standing[place], room, group) => Err(Refusal::For(FULL)),
        Ok(place) => Ok(groups.replace(place, group.copy())?),
        Err(_) => Err(Refusal::For(ABSENT)),
    }
}

// Removes the group of an id.
fn delete(groups: &mut UndoVec<MulticastGroup>, id: u32) -> Result<(), Refusal<Cause>>
    requires { AreRising (λ g. g.id) groups.old.items }
    ensures refused { Refuses result (if_absent (is_some (multicast_of id groups.old.items))) }
    ensures ok { OnOk result (groups.new.items ≡ multicast_changed groups.old.items (multicast_changes.Delete id)) }
    ensures err { OnErr result (groups.new.items ≡ groups.old.items) }
    ensures before { groups.new.before ≡ groups.old.before }
{
    let place = place_of(groups.as_slice(), u128::from(id));
    match place {
        Ok(place) => Ok(groups.remove(place)?),
        Err(_) => Err(Refusal::For(ABSENT)),
    }
}

// Makes a change of a group; refused where it is there, or is not (U10), where there is no room for it (U12), or for want of
// memory.
fn edit(
    groups: &mut UndoVec<MulticastGroup>,
    room: Room,
    change: &MulticastChange,
) -> Result<(), Refusal<Cause>>
    requires { AreRising (λ g. g.id) groups.old.items }
    ensures refused { Refuses result (multicast_cause_in room groups.old.items change.now) }
    ensures ok { OnOk result (groups.new.items ≡ multicast_changed groups.old.items change.now) }
    ensures err { OnErr result (groups.new.items ≡ groups.old.items) }
    ensures before { groups.new.before ≡ groups.old.before }
{
    match change {
        MulticastChange::Insert(group) => insert(groups, room, group),
        MulticastChange::Modify(group) => modify(groups, room, group),
        MulticastChange::Delete(id) => delete(groups, *id),
    }
}

// The id of the group that a change is about.
fn group_changed(change: &MulticastChange) -> u32
    ensures { result ≡ group_changed change.now }
{
    match change {
        MulticastChange::Insert(group) | MulticastChange::Modify(group) => group.id,
        MulticastChange::Delete(id) => *id,
    }
}

// How many rows the group of an id takes, if there is one.
fn rows_at(groups: &[MulticastGroup], id: u32) -> u64
    requires { AreRising (λ g. g.id) groups.now }
    ensures { result ≡ rows_at (multicast_of id groups.now) }
{
    match multicast_in(groups, u128::from(id)) {
        None => 0,
        Some(group) => rows_of(group),
    }
}

// How many rows the group takes that a change brings, if it brings one.
fn rows_brought(change: &MulticastChange) -> u64
    ensures { result ≡ rows_brought change.now }
{
    match change {
        MulticastChange::Insert(group) | MulticastChange::Modify(group) => rows_of(group),
        MulticastChange::Delete(_) => 0,
    }
}

impl Parts {
    /// Makes a change of a multicast group.
    pub(crate) fn change_multicast(
        &mut self,
        room: Room,
        change: &MulticastChange,
    ) -> Result<Drawn, Refusal<Cause>>
        requires counted { IsCounted self.old.now }
        ensures refused { Refuses result (multicast_cause_in room self.old.now.plane.multicast change.now) }
        ensures ok { OnOk result (self.new.now.plane ≡ record self.old.now.plane { multicast = multicast_changed self.old.now.plane.multicast change.now }) }
        ensures drawn { IfOk result (λ drawn. drawn ≡ record { numbers = 0; slots = 0 }) }
        ensures stays { WhereRefused result (self.new.now ≡ self.old.now) }
        ensures counted { WithMemory result (IsCounted self.new.now) }
        ensures before { self.new.before ≡ self.old.before }
    {
        let freed = rows_at(self.multicast.as_slice(), group_changed(change));
        edit(&mut self.multicast, room, change)?;
        let rows = more(self.rows - freed, rows_brought(change))?;
        self.rows = rows;
        Ok(NOTHING)
    }
}
