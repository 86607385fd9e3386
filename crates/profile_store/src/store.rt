//! The store.
ghost use Rattle.std.specs.Prelude.{◌≡◌, ◌+◌, ◌≤◌, ℕ, if◌then◌else◌, is_some, false, OnOk};
ghost use Rattle.std.specs.Option.{option_map};
ghost use Rattle.plane_spec.specs.Planes.{lacks_member};
ghost use Rattle.plane_spec.specs.Profiles.{member_of, group_of, member_inserted, member_modified, member_deleted, group_inserted, group_modified, group_deleted, members_in, groups_in, names_member, names_group, set_size, shares_of};
ghost use Rattle.profile_store.specs.Order.{AreInOrder, key_before, member_key, group_key};
ghost use Rattle.profile_store.specs.Rows.{members_of, groups_of, uses_of_member, uses_of_group, actions_of, no_rows};
ghost use Rattle.profile_store.specs.Store.{IsThere};

use crate::rows::{GroupRow, MemberRow, SetCount};
use crate::{groups, members, sets};
use list_types::NoMemory;
use p4_types::profiles::{Group, Member};
use p4_types::table::EntryAction;
use std::alloc::Global;
use std::marker::Model;
use undo_vec::UndoVec;

/// The members and groups of the action profiles of a plane, by rising profile and id, with how often each is named, and
/// how many actions the one-shot sets of each profile have. Its changes can be undone until they are kept. Contracts see
/// it as it is, and as it was before the changes that can be undone. Without memory a change may be made in part, which
/// is still to be undone.
#[derive(Drop)]
pub struct ProfileStore {
    members: UndoVec<MemberRow>,
    groups: UndoVec<GroupRow>,
    sets: UndoVec<SetCount>,
}

impl Model for ProfileStore {
    ghost use Rattle.profile_store.specs.Rows.{RowVersions};
    ghost use Rattle.profile_store.specs.Store.{IsStore};

    ghost Value = { RowVersions };

    ghost view = { λ s. record {
      now = record { members = s.members.items; groups = s.groups.items; sets = s.sets.items };
      before = record { members = s.members.before; groups = s.groups.before; sets = s.sets.before };
    } };

    ghost invariant = { λ s. IsStore (record {
      now = record { members = s.members.items; groups = s.groups.items; sets = s.sets.items };
      before = record { members = s.members.before; groups = s.groups.before; sets = s.sets.before };
    }) };
}

impl ProfileStore {
    /// A store of no rows, which takes no memory.
    pub fn open(alloc: Global) -> ProfileStore
        ensures now { result.now ≡ no_rows }
        ensures before { result.before ≡ no_rows }
    {
        ProfileStore {
            members: UndoVec::new(alloc),
            groups: UndoVec::new(alloc),
            sets: UndoVec::new(alloc),
        }
    }

    /// The member of a profile by its id, if there is one.
    pub fn member(&self, profile: u32, id: u32) -> Option<&Member>
        ensures { option_map (λ member. member.now) result ≡ member_of profile id (members_of self.now.now) }
    {
        match members::find(self.members.as_slice(), profile, id) {
            Some(row) => Some(&row.member),
            None => None,
        }
    }

    /// The group of a profile by its id, if there is one.
    pub fn group(&self, profile: u32, id: u32) -> Option<&Group>
        ensures { option_map (λ group. group.now) result ≡ group_of profile id (groups_of self.now.now) }
    {
        match groups::find(self.groups.as_slice(), profile, id) {
            Some(row) => Some(&row.group),
            None => None,
        }
    }

    /// The members, by rising profile and id.
    pub fn members(&self) -> &[MemberRow]
        ensures rows { result.now ≡ self.now.now.members }
        ensures order { AreInOrder key_before member_key self.now.now.members }
    {
        self.members.as_slice()
    }

    /// The groups, by rising profile and id.
    pub fn groups(&self) -> &[GroupRow]
        ensures rows { result.now ≡ self.now.now.groups }
        ensures order { AreInOrder key_before group_key self.now.now.groups }
    {
        self.groups.as_slice()
    }

    /// How often a member is named by entries and groups; one that is absent is not.
    pub fn member_uses(&self, profile: u32, id: u32) -> u64
        ensures { result ≡ uses_of_member profile id self.now.now }
    {
        match members::find(self.members.as_slice(), profile, id) {
            Some(row) => row.uses,
            None => 0,
        }
    }

    /// How often a group is named by entries; one that is absent is not.
    pub fn group_uses(&self, profile: u32, id: u32) -> u64
        ensures { result ≡ uses_of_group profile id self.now.now }
    {
        match groups::find(self.groups.as_slice(), profile, id) {
            Some(row) => row.uses,
            None => 0,
        }
    }

    /// How many actions the one-shot sets of a profile have together.
    pub fn set_actions(&self, profile: u32) -> u64
        ensures { result ≡ actions_of profile self.now.now }
    {
        sets::actions(self.sets.as_slice(), profile)
    }

    /// How many members a profile has.
    pub fn members_in(&self, profile: u32) -> usize
        ensures { result ≡ members_in profile (members_of self.now.now) }
    {
        members::count(self.members.as_slice(), profile)
    }

    /// How many groups a profile has.
    pub fn groups_in(&self, profile: u32) -> usize
        ensures { result ≡ groups_in profile (groups_of self.now.now) }
    {
        groups::count(self.groups.as_slice(), profile)
    }

    /// Adds a member, which nothing names yet.
    pub fn insert_member(&mut self, member: Member) -> Result<(), NoMemory>
        requires absent { is_some (member_of member.profile member.id (members_of self.old.now)) ≡ false }
        ensures members { OnOk result (members_of self.new.now ≡ member_inserted member (members_of self.old.now)) }
        ensures uses { OnOk result ((p i : ℕ) → uses_of_member p i self.new.now ≡ uses_of_member p i self.old.now) }
        ensures groups { OnOk result (self.new.now.groups ≡ self.old.now.groups) }
        ensures sets { OnOk result (self.new.now.sets ≡ self.old.now.sets) }
        ensures before { self.new.before ≡ self.old.before }
    {
        members::insert(&mut self.members, member)
    }

    /// Puts a member in the place of the one of its id, which is named as often as that was; without one it does nothing.
    pub fn modify_member(&mut self, member: Member) -> Result<(), NoMemory>
        ensures members { OnOk result (members_of self.new.now ≡ member_modified member (members_of self.old.now)) }
        ensures uses { OnOk result ((p i : ℕ) → uses_of_member p i self.new.now ≡ uses_of_member p i self.old.now) }
        ensures groups { OnOk result (self.new.now.groups ≡ self.old.now.groups) }
        ensures sets { OnOk result (self.new.now.sets ≡ self.old.now.sets) }
        ensures before { self.new.before ≡ self.old.before }
    {
        members::modify(&mut self.members, member)
    }

    /// Removes a member that nothing names; without one it does nothing.
    pub fn delete_member(&mut self, profile: u32, id: u32) -> Result<(), NoMemory>
        requires unused { uses_of_member profile id self.old.now ≡ 0 }
        ensures members { OnOk result (members_of self.new.now ≡ member_deleted profile id (members_of self.old.now)) }
        ensures uses { OnOk result ((p i : ℕ) → uses_of_member p i self.new.now ≡ uses_of_member p i self.old.now) }
        ensures groups { OnOk result (self.new.now.groups ≡ self.old.now.groups) }
        ensures sets { OnOk result (self.new.now.sets ≡ self.old.now.sets) }
        ensures before { self.new.before ≡ self.old.before }
    {
        members::delete(&mut self.members, profile, id)
    }

    /// Adds a group, which nothing names yet. How often its members are named stays: see `take_shares`.
    pub fn insert_group(&mut self, group: Group) -> Result<(), NoMemory>
        requires absent { is_some (group_of group.profile group.id (groups_of self.old.now)) ≡ false }
        ensures groups { OnOk result (groups_of self.new.now ≡ group_inserted group (groups_of self.old.now)) }
        ensures uses { OnOk result ((p i : ℕ) → uses_of_group p i self.new.now ≡ uses_of_group p i self.old.now) }
        ensures members { OnOk result (self.new.now.members ≡ self.old.now.members) }
        ensures sets { OnOk result (self.new.now.sets ≡ self.old.now.sets) }
        ensures before { self.new.before ≡ self.old.before }
    {
        groups::insert(&mut self.groups, group)
    }

    /// Puts a group in the place of the one of its id, which is named as often as that was; without one it does nothing.
    /// How often its members are named stays.
    pub fn modify_group(&mut self, group: Group) -> Result<(), NoMemory>
        ensures groups { OnOk result (groups_of self.new.now ≡ group_modified group (groups_of self.old.now)) }
        ensures uses { OnOk result ((p i : ℕ) → uses_of_group p i self.new.now ≡ uses_of_group p i self.old.now) }
        ensures members { OnOk result (self.new.now.members ≡ self.old.now.members) }
        ensures sets { OnOk result (self.new.now.sets ≡ self.old.now.sets) }
        ensures before { self.new.before ≡ self.old.before }
    {
        groups::modify(&mut self.groups, group)
    }

    /// Removes a group that nothing names; without one it does nothing. How often its members are named stays.
    pub fn delete_group(&mut self, profile: u32, id: u32) -> Result<(), NoMemory>
        requires unused { uses_of_group profile id self.old.now ≡ 0 }
        ensures groups { OnOk result (groups_of self.new.now ≡ group_deleted profile id (groups_of self.old.now)) }
        ensures uses { OnOk result ((p i : ℕ) → uses_of_group p i self.new.now ≡ uses_of_group p i self.old.now) }
        ensures members { OnOk result (self.new.now.members ≡ self.old.now.members) }
        ensures sets { OnOk result (self.new.now.sets ≡ self.old.now.sets) }
        ensures before { self.new.before ≡ self.old.before }
    {
        groups::delete(&mut self.groups, profile, id)
    }

    /// An entry has this action from now on.
    pub fn take(&mut self, action: &EntryAction) -> Result<(), NoMemory>
        requires there { IsThere action.now self.old.now }
        ensures members { OnOk result (members_of self.new.now ≡ members_of self.old.now) }
        ensures groups { OnOk result (groups_of self.new.now ≡ groups_of self.old.now) }
        ensures member_uses { OnOk result ((p i : ℕ) → uses_of_member p i self.new.now ≡ uses_of_member p i self.old.now + (if names_member p i action.now then 1 else 0)) }
        ensures group_uses { OnOk result ((p i : ℕ) → uses_of_group p i self.new.now ≡ uses_of_group p i self.old.now + (if names_group p i action.now then 1 else 0)) }
        ensures set_actions { OnOk result ((p : ℕ) → actions_of p self.new.now ≡ actions_of p self.old.now + set_size p action.now) }
        ensures before { self.new.before ≡ self.old.before }
    {
        match action {
            EntryAction::Call(_) => Ok(()),
            EntryAction::Member { profile, id } => members::take(&mut self.members, *profile, *id),
            EntryAction::Group { profile, id } => groups::take(&mut self.groups, *profile, *id),
            EntryAction::Set { profile, calls } => {
                let size = calls.get().len() as u64;
                sets::take(&mut self.sets, *profile, size)
            }
        }
    }

    /// An entry no longer has this action.
    pub fn give_back(&mut self, action: &EntryAction) -> Result<(), NoMemory>
        requires member_named { (p i : ℕ) → (if names_member p i action.now then 1 else 0) ≤ uses_of_member p i self.old.now }
        requires group_named { (p i : ℕ) → (if names_group p i action.now then 1 else 0) ≤ uses_of_group p i self.old.now }
        requires set_there { (p : ℕ) → set_size p action.now ≤ actions_of p self.old.now }
        ensures members { OnOk result (members_of self.new.now ≡ members_of self.old.now) }
        ensures groups { OnOk result (groups_of self.new.now ≡ groups_of self.old.now) }
        ensures member_uses { OnOk result ((p i : ℕ) → uses_of_member p i self.new.now + (if names_member p i action.now then 1 else 0) ≡ uses_of_member p i self.old.now) }
        ensures group_uses { OnOk result ((p i : ℕ) → uses_of_group p i self.new.now + (if names_group p i action.now then 1 else 0) ≡ uses_of_group p i self.old.now) }
        ensures set_actions { OnOk result ((p : ℕ) → actions_of p self.new.now + set_size p action.now ≡ actions_of p self.old.now) }
        ensures before { self.new.before ≡ self.old.before }
    {
        match action {
            EntryAction::Call(_) => Ok(()),
            EntryAction::Member { profile, id } => members::give_back(
                &mut self.members,
                *profile,
                *id,
            ),
            EntryAction::Group { profile, id } => groups::give_back(
                &mut self.groups,
                *profile,
                *id,
            ),
            EntryAction::Set { profile, calls } => {
                let size = calls.get().len() as u64;
                sets::give_back(&mut self.sets, *profile, size)
            }
        }
    }

    /// A group names its members from now on, each as often as it has a share of it.
    pub fn take_shares(&mut self, group: &Group) -> Result<(), NoMemory>
        requires there { lacks_member group.now.profile (members_of self.old.now) group.now.shares ≡ false }
        ensures members { OnOk result (members_of self.new.now ≡ members_of self.old.now) }
        ensures uses { OnOk result ((p i : ℕ) → uses_of_member p i self.new.now ≡ uses_of_member p i self.old.now + shares_of p i group.now) }
        ensures groups { OnOk result (self.new.now.groups ≡ self.old.now.groups) }
        ensures sets { OnOk result (self.new.now.sets ≡ self.old.now.sets) }
        ensures before { self.new.before ≡ self.old.before }
    {
        members::take_all(
            &mut self.members,
            group.profile,
            group.shares.get().as_slice(),
        )
    }

    /// A group no longer names its members.
    pub fn give_back_shares(&mut self, group: &Group) -> Result<(), NoMemory>
        requires named { (p i : ℕ) → shares_of p i group.now ≤ uses_of_member p i self.old.now }
        ensures members { OnOk result (members_of self.new.now ≡ members_of self.old.now) }
        ensures uses { OnOk result ((p i : ℕ) → uses_of_member p i self.new.now + shares_of p i group.now ≡ uses_of_member p i self.old.now) }
        ensures groups { OnOk result (self.new.now.groups ≡ self.old.now.groups) }
        ensures sets { OnOk result (self.new.now.sets ≡ self.old.now.sets) }
        ensures before { self.new.before ≡ self.old.before }
    {
        members::give_back_all(
            &mut self.members,
            group.profile,
            group.shares.get().as_slice(),
        )
    }

    /// Keeps all changes: they can no longer be undone. It takes no memory.
    pub fn keep(&mut self)
        ensures now { self.new.now ≡ self.old.now }
        ensures before { self.new.before ≡ self.old.now }
    {
        self.members.settle();
        self.groups.settle();
        self.sets.settle();
    }

    /// Undoes all changes. It takes no memory.
    pub fn undo(&mut self)
        ensures now { self.new.now ≡ self.old.before }
        ensures before { self.new.before ≡ self.old.before }
    {
        self.members.undo();
        self.groups.undo();
        self.sets.undo();
    }
}
