//! Changes of members, which stand by rising profile and id.
ghost use Rattle.std.specs.Prelude.{◌≡◌, ◌+◌, ◌-◌, ◌≤◌, ◌==◌, ℕ, count_by, if◌then◌else◌, is_some, map, true, false, IfOk, IfErr, OnOk};
ghost use Rattle.std.specs.Option.{option_map};
ghost use Rattle.plane_spec.specs.Planes.{lacks_member};
ghost use Rattle.plane_spec.specs.Profiles.{same_id, member_of, member_inserted, member_modified, member_deleted, members_in};
ghost use Rattle.profile_store.specs.Order.{AreInOrder, StandsAt, WouldStandAt, key_before, member_key};
ghost use Rattle.profile_store.specs.Rows.{member_row, uses_of_row};

use crate::rows::{MemberRow, raised};
use list_types::NoMemory;
use p4_types::profiles::{Member, Share};
use undo_vec::UndoVec;

// Where a member stands, or where it would stand.
fn place_of(rows: &[MemberRow], profile: u32, id: u32) -> Result<usize, usize>
    requires { AreInOrder key_before member_key rows.now }
    ensures found { IfOk result (StandsAt member_key rows.now (profile, id)) }
    ensures absent { IfErr result (WouldStandAt key_before member_key rows.now (profile, id)) }
{
    rows.binary_search_by_key(&(profile, id), |row| (row.member.profile, row.member.id))
}

/// The row of a member, if there is one.
pub(crate) fn find(rows: &[MemberRow], profile: u32, id: u32) -> Option<&MemberRow>
    requires { AreInOrder key_before member_key rows.now }
    ensures { option_map (λ row. row.now) result ≡ member_row profile id rows.now }
{
    match place_of(rows, profile, id) {
        Ok(place) => Some(&rows[place]),
        Err(_) => None,
    }
}

/// How many members a profile has.
pub(crate) fn count(rows: &[MemberRow], profile: u32) -> usize
    requires { AreInOrder key_before member_key rows.now }
    ensures { result ≡ members_in profile (map (λ row. row.member) rows.now) }
{
    let start = rows.partition_point(|row| row.member.profile < profile);
    let end = rows.partition_point(|row| row.member.profile <= profile);
    end - start
}

/// Adds a member, which nothing names yet.
pub(crate) fn insert(rows: &mut UndoVec<MemberRow>, member: Member) -> Result<(), NoMemory>
    requires order { AreInOrder key_before member_key rows.old.items }
    requires absent { is_some (member_of member.profile member.id (map (λ row. row.member) rows.old.items)) ≡ false }
    ensures members { OnOk result (map (λ row. row.member) rows.new.items ≡ member_inserted member (map (λ row. row.member) rows.old.items)) }
    ensures uses { OnOk result ((p i : ℕ) → uses_of_row (member_row p i rows.new.items) ≡ uses_of_row (member_row p i rows.old.items)) }
    ensures order { AreInOrder key_before member_key rows.new.items }
    ensures before { rows.new.before ≡ rows.old.before }
{
    let place = place_of(rows.as_slice(), member.profile, member.id);
    if let Err(place) = place {
        rows.insert(place, MemberRow { member, uses: 0 })?;
    }
    Ok(())
}

/// Puts a member in the place of the one of its id, if there is one.
pub(crate) fn modify(rows: &mut UndoVec<MemberRow>, member: Member) -> Result<(), NoMemory>
    requires { AreInOrder key_before member_key rows.old.items }
    ensures members { OnOk result (map (λ row. row.member) rows.new.items ≡ member_modified member (map (λ row. row.member) rows.old.items)) }
    ensures uses { OnOk result ((p i : ℕ) → uses_of_row (member_row p i rows.new.items) ≡ uses_of_row (member_row p i rows.old.items)) }
    ensures order { AreInOrder key_before member_key rows.new.items }
    ensures before { rows.new.before ≡ rows.old.before }
{
    let place = place_of(rows.as_slice(), member.profile, member.id);
    if let Ok(place) = place {
        let uses = rows.as_slice()[place].uses;
        rows.replace(place, MemberRow { member, uses })?;
    }
    Ok(())
}

/// Removes a member that nothing names, if there is one.
pub(crate) fn delete(rows: &mut UndoVec<MemberRow>, profile: u32, id: u32) -> Result<(), NoMemory>
    requires order { AreInOrder key_before member_key rows.old.items }
    requires unused { uses_of_row (member_row profile id rows.old.items) ≡ 0 }
    ensures members { OnOk result (map (λ row. row.member) rows.new.items ≡ member_deleted profile id (map (λ row. row.member) rows.old.items)) }
    ensures uses { OnOk result ((p i : ℕ) → uses_of_row (member_row p i rows.new.items) ≡ uses_of_row (member_row p i rows.old.items)) }
    ensures order { AreInOrder key_before member_key rows.new.items }
    ensures before { rows.new.before ≡ rows.old.before }
{
    let place = place_of(rows.as_slice(), profile, id);
    if let Ok(place) = place {
        rows.remove(place)?;
    }
    Ok(())
}

/// A member is named once more.
pub(crate) fn take(rows: &mut UndoVec<MemberRow>, profile: u32, id: u32) -> Result<(), NoMemory>
    requires order { AreInOrder key_before member_key rows.old.items }
    requires there { is_some (member_of profile id (map (λ row. row.member) rows.old.items)) ≡ true }
    ensures members { OnOk result (map (λ row. row.member) rows.new.items ≡ map (λ row. row.member) rows.old.items) }
    ensures uses { OnOk result ((p i : ℕ) → uses_of_row (member_row p i rows.new.items) ≡ uses_of_row (member_row p i rows.old.items) + (if same_id p i profile id then 1 else 0)) }
    ensures order { AreInOrder key_before member_key rows.new.items }
    ensures before { rows.new.before ≡ rows.old.before }
{
    let place = place_of(rows.as_slice(), profile, id);
    if let Ok(place) = place {
        let row = &rows.as_slice()[place];
        let uses = raised(row.uses, 1)?;
        let member = row.member.copy();
        rows.replace(place, MemberRow { member, uses })?;
    }
    Ok(())
}

/// A member is named once less.
pub(crate) fn give_back(
    rows: &mut UndoVec<MemberRow>,
    profile: u32,
    id: u32,
) -> Result<(), NoMemory>
    requires order { AreInOrder key_before member_key rows.old.items }
    requires named { 1 ≤ uses_of_row (member_row profile id rows.old.items) }
    ensures members { OnOk result (map (λ row. row.member) rows.new.items ≡ map (λ row. row.member) rows.old.items) }
    ensures uses { OnOk result ((p i : ℕ) → uses_of_row (member_row p i rows.new.items) + (if same_id p i profile id then 1 else 0) ≡ uses_of_row (member_row p i rows.old.items)) }
    ensures order { AreInOrder key_before member_key rows.new.items }
    ensures before { rows.new.before ≡ rows.old.before }
{
    let place = place_of(rows.as_slice(), profile, id);
    if let Ok(place) = place {
        let row = &rows.as_slice()[place];
        let uses = row.uses - 1;
        let member = row.member.copy();
        rows.replace(place, MemberRow { member, uses })?;
    }
    Ok(())
}

/// Members of a profile are named, each as often as it has a share.
pub(crate) fn take_all(
    rows: &mut UndoVec<MemberRow>,
    profile: u32,
    shares: &[Share],
) -> Result<(), NoMemory>
    requires order { AreInOrder key_before member_key rows.old.items }
    requires there { lacks_member profile (map (λ row. row.member) rows.old.items) shares.now ≡ false }
    ensures members { OnOk result (map (λ row. row.member) rows.new.items ≡ map (λ row. row.member) rows.old.items) }
    ensures uses { OnOk result ((p i : ℕ) → uses_of_row (member_row p i rows.new.items) ≡ uses_of_row (member_row p i rows.old.items) + (if profile == p then count_by (λ share. share.member == i) shares.now else 0)) }
    ensures order { AreInOrder key_before member_key rows.new.items }
    ensures before { rows.new.before ≡ rows.old.before }
{
    for share in shares {
        take(rows, profile, share.member)?;
    }
    Ok(())
}

/// Members of a profile are no longer named, each as often as it has a share.
pub(crate) fn give_back_all(
    rows: &mut UndoVec<MemberRow>,
    profile: u32,
    shares: &[Share],
) -> Result<(), NoMemory>
    requires order { AreInOrder key_before member_key rows.old.items }
    requires named { (p i : ℕ) → (if profile == p then count_by (λ share. share.member == i) shares.now else 0) ≤ uses_of_row (member_row p i rows.old.items) }
    ensures members { OnOk result (map (λ row. row.member) rows.new.items ≡ map (λ row. row.member) rows.old.items) }
    ensures uses { OnOk result ((p i : ℕ) → uses_of_row (member_row p i rows.new.items) + (if profile == p then count_by (λ share. share.member == i) shares.now else 0) ≡ uses_of_row (member_row p i rows.old.items)) }
    ensures order { AreInOrder key_before member_key rows.new.items }
    ensures before { rows.new.before ≡ rows.old.before }
{
    for share in shares {
        give_back(rows, profile, share.member)?;
    }
    Ok(())
}
