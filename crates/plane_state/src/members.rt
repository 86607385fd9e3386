//! Changes of the members of action profiles.
ghost use Rattle.std.specs.Prelude.{◌≡◌, is_some, IfOk, OnOk};
ghost use Rattle.plane_spec.specs.Planes.{if_absent, member_insert_cause, member_delete_cause};
ghost use Rattle.plane_spec.specs.Profiles.{member_of, member_inserted, member_modified, member_deleted};
ghost use Rattle.plane_state.specs.Answers.{WithMemory, WhereRefused};
ghost use Rattle.plane_state.specs.Versions.{IsCounted};
ghost use Rattle.table_store.specs.Answers.{Refuses};

use crate::causes::{ABSENT, FULL, IN_USE, PRESENT, profile_size};
use crate::parts::{Drawn, NOTHING, Parts, more};
use list_types::Refusal;
use p4_types::code::Cause;
use p4_types::profiles::Member;
use p4_types::table::Room;

impl Parts {
    fn member_insert_cause(&self, room: Room, member: &Member) -> Option<Cause>
        requires counted { IsCounted self.now.now }
        ensures { result ≡ member_insert_cause room self.now.now.plane member.now }
    {
        let profile = member.profile;
        if self.profiles.member(profile, member.id).is_some() {
            return Some(PRESENT);
        }
        if self.profiles.set_actions(profile) != 0 {
            return Some(IN_USE);
        }
        let allowed = u128::from(profile_size(self.profile(profile)));
        if allowed < self.profiles.members_in(profile) as u128 + 1 || room.rows < 1 {
            return Some(FULL);
        }
        None
    }

    /// Adds a member.
    pub(crate) fn insert_member(
        &mut self,
        room: Room,
        member: &Member,
    ) -> Result<Drawn, Refusal<Cause>>
        requires counted { IsCounted self.old.now }
        ensures refused { Refuses result (member_insert_cause room self.old.now.plane member.now) }
        ensures ok { OnOk result (self.new.now.plane ≡ record self.old.now.plane { members = member_inserted member.now self.old.now.plane.members }) }
        ensures drawn { IfOk result (λ drawn. drawn ≡ record { numbers = 0; slots = 0 }) }
        ensures stays { WhereRefused result (self.new.now ≡ self.old.now) }
        ensures counted { WithMemory result (IsCounted self.new.now) }
        ensures before { self.new.before ≡ self.old.before }
    {
        if let Some(cause) = self.member_insert_cause(room, member) {
            return Err(Refusal::For(cause));
        }
        self.profiles.insert_member(member.copy())?;
        let rows = more(self.rows, 1)?;
        self.rows = rows;
        Ok(NOTHING)
    }

    /// Gives a member another action.
    pub(crate) fn modify_member(&mut self, member: &Member) -> Result<Drawn, Refusal<Cause>>
        requires counted { IsCounted self.old.now }
        ensures refused { Refuses result (if_absent (is_some (member_of member.now.profile member.now.id self.old.now.plane.members))) }
        ensures ok { OnOk result (self.new.now.plane ≡ record self.old.now.plane { members = member_modified member.now self.old.now.plane.members }) }
        ensures drawn { IfOk result (λ drawn. drawn ≡ record { numbers = 0; slots = 0 }) }
        ensures stays { WhereRefused result (self.new.now ≡ self.old.now) }
        ensures counted { WithMemory result (IsCounted self.new.now) }
        ensures before { self.new.before ≡ self.old.before }
    {
        if self.profiles.member(member.profile, member.id).is_none() {
            return Err(Refusal::For(ABSENT));
        }
        self.profiles.modify_member(member.copy())?;
        Ok(NOTHING)
    }

    /// Removes a member that nothing names.
    pub(crate) fn delete_member(&mut self, profile: u32, id: u32) -> Result<Drawn, Refusal<Cause>>
        requires counted { IsCounted self.old.now }
        ensures refused { Refuses result (member_delete_cause self.old.now.plane profile id) }
        ensures ok { OnOk result (self.new.now.plane ≡ record self.old.now.plane { members = member_deleted profile id self.old.now.plane.members }) }
        ensures drawn { IfOk result (λ drawn. drawn ≡ record { numbers = 0; slots = 0 }) }
        ensures stays { WhereRefused result (self.new.now ≡ self.old.now) }
        ensures counted { WithMemory result (IsCounted self.new.now) }
        ensures before { self.new.before ≡ self.old.before }
    {
        // The members stand in order, so that one at most has the id.
        let _ = self.profiles.members();
        let Some(_former) = self.profiles.member(profile, id) else {
            return Err(Refusal::For(ABSENT));
        };
        if self.profiles.member_uses(profile, id) != 0 {
            return Err(Refusal::For(IN_USE));
        }
        self.profiles.delete_member(profile, id)?;
        self.rows -= 1;
        Ok(NOTHING)
    }
}
