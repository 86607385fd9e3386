//! Changes of the groups of action profiles.
ghost use Rattle.std.specs.Prelude.{◌≡◌, Some, IfOk, OnOk};
ghost use Rattle.plane_spec.specs.Planes.{group_insert_cause, group_modify_cause, group_delete_cause, profile_cause, profile_changed};
ghost use Rattle.plane_spec.specs.Profiles.{group_of, group_inserted, group_modified, group_deleted};
ghost use Rattle.plane_state.specs.Answers.{WithMemory, WhereRefused};
ghost use Rattle.plane_state.specs.Versions.{IsCounted};
ghost use Rattle.table_store.specs.Answers.{Refuses};

use crate::causes::{ABSENT, FULL, IN_USE, PRESENT, group_rows, is_group_overweight};
use crate::parts::{Drawn, NOTHING, Parts, more};
use list_types::Refusal;
use p4_types::code::Cause;
use p4_types::profiles::{Group, ProfileChange};
use p4_types::table::Room;

impl Parts {
    fn group_insert_cause(&self, room: Room, group: &Group) -> Option<Cause>
        requires counted { IsCounted self.now.now }
        ensures { result ≡ group_insert_cause room self.now.now.plane group.now }
    {
        let profile = group.profile;
        let shares = group.shares.get();
        if self.profiles.group(profile, group.id).is_some() {
            return Some(PRESENT);
        }
        if self.lacks_member(profile, shares.as_slice())
            || self.profiles.set_actions(profile) != 0
        {
            return Some(IN_USE);
        }
        if is_group_overweight(self.profile(profile), shares)
            || u64::from(room.rows) < group_rows(group)
        {
            return Some(FULL);
        }
        None
    }

    /// Adds a group, which names its members from now on.
    pub(crate) fn insert_group(
        &mut self,
        room: Room,
        group: &Group,
    ) -> Result<Drawn, Refusal<Cause>>
        requires counted { IsCounted self.old.now }
        ensures refused { Refuses result (group_insert_cause room self.old.now.plane group.now) }
        ensures ok { OnOk result (self.new.now.plane ≡ record self.old.now.plane { groups = group_inserted group.now self.old.now.plane.groups }) }
        ensures drawn { IfOk result (λ drawn. drawn ≡ record { numbers = 0; slots = 0 }) }
        ensures stays { WhereRefused result (self.new.now ≡ self.old.now) }
        ensures counted { WithMemory result (IsCounted self.new.now) }
        ensures before { self.new.before ≡ self.old.before }
    {
        if let Some(cause) = self.group_insert_cause(room, group) {
            return Err(Refusal::For(cause));
        }
        self.profiles.take_shares(group)?;
        let shared = group.share()?;
        self.profiles.insert_group(shared)?;
        let rows = more(self.rows, group_rows(group))?;
        self.rows = rows;
        Ok(NOTHING)
    }

    // Why a MODIFY of a group is refused, in whose place there is another.
    fn group_modify_cause(&self, former: &Group, room: Room, group: &Group) -> Option<Cause>
        ensures { result ≡ group_modify_cause (Some former.now) room self.now.now.plane group.now }
    {
        let shares = group.shares.get();
        if self.lacks_member(group.profile, shares.as_slice()) {
            return Some(IN_USE);
        }
        let free = u128::from(room.rows) + u128::from(group_rows(former));
        if is_group_overweight(self.profile(group.profile), shares)
            || free < u128::from(group_rows(group))
        {
            return Some(FULL);
        }
        None
    }

    /// Gives a group other members, which it names from now on in the place of those that it had.
    pub(crate) fn modify_group(
        &mut self,
        room: Room,
        group: &Group,
    ) -> Result<Drawn, Refusal<Cause>>
        requires counted { IsCounted self.old.now }
        ensures refused { Refuses result (group_modify_cause (group_of group.now.profile group.now.id self.old.now.plane.groups) room self.old.now.plane group.now) }
        ensures ok { OnOk result (self.new.now.plane ≡ record self.old.now.plane { groups = group_modified group.now self.old.now.plane.groups }) }
        ensures drawn { IfOk result (λ drawn. drawn ≡ record { numbers = 0; slots = 0 }) }
        ensures stays { WhereRefused result (self.new.now ≡ self.old.now) }
        ensures counted { WithMemory result (IsCounted self.new.now) }
        ensures before { self.new.before ≡ self.old.before }
    {
        // The groups stand in order, so that one at most has the id.
        let _ = self.profiles.groups();
        let Some(former) = self.profiles.group(group.profile, group.id) else {
            return Err(Refusal::For(ABSENT));
        };
        if let Some(cause) = self.group_modify_cause(former, room, group) {
            return Err(Refusal::For(cause));
        }
        let left = former.share()?;
        self.profiles.take_shares(group)?;
        self.profiles.give_back_shares(&left)?;
        let shared = group.share()?;
        self.profiles.modify_group(shared)?;
        let freed = group_rows(&left);
        let rows = more(self.rows - freed, group_rows(group))?;
        self.rows = rows;
        Ok(NOTHING)
    }

    /// Removes a group that no entry names. Its members are no longer named by it.
    pub(crate) fn delete_group(&mut self, profile: u32, id: u32) -> Result<Drawn, Refusal<Cause>>
        requires counted { IsCounted self.old.now }
        ensures refused { Refuses result (group_delete_cause self.old.now.plane profile id) }
        ensures ok { OnOk result (self.new.now.plane ≡ record self.old.now.plane { groups = group_deleted profile id self.old.now.plane.groups }) }
        ensures drawn { IfOk result (λ drawn. drawn ≡ record { numbers = 0; slots = 0 }) }
        ensures stays { WhereRefused result (self.new.now ≡ self.old.now) }
        ensures counted { WithMemory result (IsCounted self.new.now) }
        ensures before { self.new.before ≡ self.old.before }
    {
        // The groups stand in order, so that one at most has the id.
        let _ = self.profiles.groups();
        let Some(former) = self.profiles.group(profile, id) else {
            return Err(Refusal::For(ABSENT));
        };
        if self.profiles.group_uses(profile, id) != 0 {
            return Err(Refusal::For(IN_USE));
        }
        let former = former.share()?;
        self.profiles.delete_group(profile, id)?;
        self.profiles.give_back_shares(&former)?;
        self.rows -= group_rows(&former);
        Ok(NOTHING)
    }

    /// Makes a change of a member or a group.
    pub(crate) fn change_profile(
        &mut self,
        room: Room,
        change: &ProfileChange,
    ) -> Result<Drawn, Refusal<Cause>>
        requires counted { IsCounted self.old.now }
        ensures refused { Refuses result (profile_cause room self.old.now.plane change.now) }
        ensures ok { OnOk result (self.new.now.plane ≡ profile_changed self.old.now.plane change.now) }
        ensures drawn { IfOk result (λ drawn. drawn ≡ record { numbers = 0; slots = 0 }) }
        ensures stays { WhereRefused result (self.new.now ≡ self.old.now) }
        ensures counted { WithMemory result (IsCounted self.new.now) }
        ensures before { self.new.before ≡ self.old.before }
    {
        match change {
            ProfileChange::InsertMember(member) => self.insert_member(room, member),
            ProfileChange::ModifyMember(member) => self.modify_member(member),
            ProfileChange::DeleteMember { profile, id } => self.delete_member(*profile, *id),
            ProfileChange::InsertGroup(group) => self.insert_group(room, group),
            ProfileChange::ModifyGroup(group) => self.modify_group(room, group),
            ProfileChange::DeleteGroup { profile, id } => self.delete_group(*profile, *id),
        }
    }
}
