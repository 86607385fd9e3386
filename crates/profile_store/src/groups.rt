//! Changes of groups, which stand by rising profile and id.
ghost use Rattle.std.specs.Prelude.{◌≡◌, ◌+◌, ◌-◌, ◌≤◌, ℕ, if◌then◌else◌, is_some, map, true, false, IfOk, IfErr, OnOk};
ghost use Rattle.std.specs.Option.{option_map};
ghost use Rattle.plane_spec.specs.Profiles.{same_id, group_of, group_inserted, group_modified, group_deleted, groups_in};
ghost use Rattle.profile_store.specs.Order.{AreInOrder, StandsAt, WouldStandAt, key_before, group_key};
ghost use Rattle.profile_store.specs.Rows.{group_row, uses_of_group_row};

use crate::rows::{GroupRow, raised};
use list_types::NoMemory;
use p4_types::profiles::Group;
use undo_vec::UndoVec;

// Where a group stands, or where it would stand.
fn place_of(rows: &[GroupRow], profile: u32, id: u32) -> Result<usize, usize>
    requires { AreInOrder key_before group_key rows.now }
    ensures found { IfOk result (StandsAt group_key rows.now (profile, id)) }
    ensures absent { IfErr result (WouldStandAt key_before group_key rows.now (profile, id)) }
{
    rows.binary_search_by_key(&(profile, id), |row| (row.group.profile, row.group.id))
}

/// The row of a group, if there is one.
pub(crate) fn find(rows: &[GroupRow], profile: u32, id: u32) -> Option<&GroupRow>
    requires { AreInOrder key_before group_key rows.now }
    ensures { option_map (λ row. row.now) result ≡ group_row profile id rows.now }
{
    match place_of(rows, profile, id) {
        Ok(place) => Some(&rows[place]),
        Err(_) => None,
    }
}

/// How many groups a profile has.
pub(crate) fn count(rows: &[GroupRow], profile: u32) -> usize
    requires { AreInOrder key_before group_key rows.now }
    ensures { result ≡ groups_in profile (map (λ row. row.group) rows.now) }
{
    let start = rows.partition_point(|row| row.group.profile < profile);
    let end = rows.partition_point(|row| row.group.profile <= profile);
    end - start
}

/// Adds a group, which nothing names yet.
pub(crate) fn insert(rows: &mut UndoVec<GroupRow>, group: Group) -> Result<(), NoMemory>
    requires order { AreInOrder key_before group_key rows.old.items }
    requires absent { is_some (group_of group.profile group.id (map (λ row. row.group) rows.old.items)) ≡ false }
    ensures groups { OnOk result (map (λ row. row.group) rows.new.items ≡ group_inserted group (map (λ row. row.group) rows.old.items)) }
    ensures uses { OnOk result ((p i : ℕ) → uses_of_group_row (group_row p i rows.new.items) ≡ uses_of_group_row (group_row p i rows.old.items)) }
    ensures order { AreInOrder key_before group_key rows.new.items }
    ensures before { rows.new.before ≡ rows.old.before }
{
    let place = place_of(rows.as_slice(), group.profile, group.id);
    if let Err(place) = place {
        rows.insert(place, GroupRow { group, uses: 0 })?;
    }
    Ok(())
}

/// Puts a group in the place of the one of its id, if there is one.
pub(crate) fn modify(rows: &mut UndoVec<GroupRow>, group: Group) -> Result<(), NoMemory>
    requires { AreInOrder key_before group_key rows.old.items }
    ensures groups { OnOk result (map (λ row. row.group) rows.new.items ≡ group_modified group (map (λ row. row.group) rows.old.items)) }
    ensures uses { OnOk result ((p i : ℕ) → uses_of_group_row (group_row p i rows.new.items) ≡ uses_of_group_row (group_row p i rows.old.items)) }
    ensures order { AreInOrder key_before group_key rows.new.items }
    ensures before { rows.new.before ≡ rows.old.before }
{
    let place = place_of(rows.as_slice(), group.profile, group.id);
    if let Ok(place) = place {
        let uses = rows.as_slice()[place].uses;
        rows.replace(place, GroupRow { group, uses })?;
    }
    Ok(())
}

/// Removes a group that nothing names, if there is one.
pub(crate) fn delete(rows: &mut UndoVec<GroupRow>, profile: u32, id: u32) -> Result<(), NoMemory>
    requires order { AreInOrder key_before group_key rows.old.items }
    requires unused { uses_of_group_row (group_row profile id rows.old.items) ≡ 0 }
    ensures groups { OnOk result (map (λ row. row.group) rows.new.items ≡ group_deleted profile id (map (λ row. row.group) rows.old.items)) }
    ensures uses { OnOk result ((p i : ℕ) → uses_of_group_row (group_row p i rows.new.items) ≡ uses_of_group_row (group_row p i rows.old.items)) }
    ensures order { AreInOrder key_before group_key rows.new.items }
    ensures before { rows.new.before ≡ rows.old.before }
{
    let place = place_of(rows.as_slice(), profile, id);
    if let Ok(place) = place {
        rows.remove(place)?;
    }
    Ok(())
}

/// A group is named once more.
pub(crate) fn take(rows: &mut UndoVec<GroupRow>, profile: u32, id: u32) -> Result<(), NoMemory>
    requires order { AreInOrder key_before group_key rows.old.items }
    requires there { is_some (group_of profile id (map (λ row. row.group) rows.old.items)) ≡ true }
    ensures groups { OnOk result (map (λ row. row.group) rows.new.items ≡ map (λ row. row.group) rows.old.items) }
    ensures uses { OnOk result ((p i : ℕ) → uses_of_group_row (group_row p i rows.new.items) ≡ uses_of_group_row (group_row p i rows.old.items) + (if same_id p i profile id then 1 else 0)) }
    ensures order { AreInOrder key_before group_key rows.new.items }
    ensures before { rows.new.before ≡ rows.old.before }
{
    let place = place_of(rows.as_slice(), profile, id);
    if let Ok(place) = place {
        let row = &rows.as_slice()[place];
        let uses = raised(row.uses, 1)?;
        let group = row.group.share()?;
        rows.replace(place, GroupRow { group, uses })?;
    }
    Ok(())
}

/// A group is named once less.
pub(crate) fn give_back(rows: &mut UndoVec<GroupRow>, profile: u32, id: u32) -> Result<(), NoMemory>
    requires order { AreInOrder key_before group_key rows.old.items }
    requires named { 1 ≤ uses_of_group_row (group_row profile id rows.old.items) }
    ensures groups { OnOk result (map (λ row. row.group) rows.new.items ≡ map (λ row. row.group) rows.old.items) }
    ensures uses { OnOk result ((p i : ℕ) → uses_of_group_row (group_row p i rows.new.items) + (if same_id p i profile id then 1 else 0) ≡ uses_of_group_row (group_row p i rows.old.items)) }
    ensures order { AreInOrder key_before group_key rows.new.items }
    ensures before { rows.new.before ≡ rows.old.before }
{
    let place = place_of(rows.as_slice(), profile, id);
    if let Ok(place) = place {
        let row = &rows.as_slice()[place];
        let uses = row.uses - 1;
        let group = row.group.share()?;
        rows.replace(place, GroupRow { group, uses })?;
    }
    Ok(())
}
