//! Any event, also one that may not follow.
ghost use Rattle.std.specs.Prelude.{◌≡◌, ◌+◌, ◌-◌, ◌^◌, min, None, OnOk, OnErr};
ghost use Rattle.plane_spec.specs.Planes.{session_by};
ghost use Rattle.plane_image.specs.Taking.{can_take, has_slots_in, taken, steps_taken, MayIsTaken};
ghost use Rattle.role_arbiter.specs.Arbitration.{has_other_role, id_is_taken, has_session, is_named, lacks_session, lacks_role, is_refused};

use crate::image::Image;
use list_types::NoMemory;
use p4_types::events::{Committed, Event, Origin};
use p4_types::messages::Uint128;
use plane_state::Config;
use role_arbiter::{NamedRole, Roles, Session, election_number};
use std::alloc::Global;

fn has_other_role(sessions: &[Session], caller: u16, role: u64) -> bool
    ensures { result ≡ has_other_role sessions.now caller role }
{
    sessions
        .iter()
        .any(|session| session.caller == caller && session.role != role)
}

fn id_is_taken(sessions: &[Session], caller: u16, role: u64, id: Uint128) -> bool
    ensures { result ≡ id_is_taken sessions.now caller role id }
{
    let id = election_number(id);
    sessions.iter().any(|session| {
        session.caller != caller
            && session.role == role
            && election_number(session.election_id) != 0
            && election_number(session.election_id) == id
    })
}

fn has_session(sessions: &[Session], caller: u16) -> bool
    ensures { result ≡ has_session sessions.now caller }
{
    sessions.iter().any(|session| session.caller == caller)
}

fn lacks_session(sessions: &[Session], caller: u16) -> bool
    ensures { result ≡ lacks_session sessions.now caller }
{
    !has_session(sessions, caller) && sessions.len() >= 32
}

fn is_named(named: &[NamedRole], role: u64) -> bool
    ensures { result ≡ is_named named.now role }
{
    named.iter().any(|known| known.role == role)
}

fn lacks_role(named: &[NamedRole], role: u64) -> bool
    ensures { result ≡ lacks_role named.now role }
{
    !is_named(named, role) && named.len() >= 64
}

fn is_refused(roles: &Roles, by: &Origin) -> bool
    ensures { result ≡ is_refused roles.now (session_by by.now None) }
{
    has_other_role(roles.sessions(), by.caller, by.role)
        || id_is_taken(roles.sessions(), by.caller, by.role, by.election_id)
        || lacks_session(roles.sessions(), by.caller)
        || lacks_role(roles.named(), by.role)
}

impl Image {
    fn has_slots_in(&self, content: &Committed<Config>) -> bool
        ensures { result ≡ has_slots_in self.now.now content.now }
    {
        match content {
            Committed::Staged => true,
            Committed::Fresh(config) => !self.lacks_slots(config.get()),
        }
    }

    // Whether no rule refuses the event's session and there are slots for its cells.
    fn can_take(&self, event: &Event<Config>) -> bool
        ensures { result ≡ can_take self.now.now event.now }
    {
        match event {
            Event::Arbitrate { by, .. } => !is_refused(self.roles(), by),
            Event::Save { config, .. } => !self.lacks_slots(config.get()),
            Event::Commit { content, .. } => self.has_slots_in(content),
            _ => true,
        }
    }

    /// The step of any event: one that may not follow, and cannot be taken, changes nothing. Without memory, the image is
    /// as it was.
    pub fn take(&mut self, alloc: Global, event: &Event<Config>) -> Result<(), NoMemory>
        requires settled { self.old.before ≡ self.old.now }
        ensures ok { OnOk result (self.new.now ≡ taken self.old.now event.now) }
        ensures err { OnErr result (self.new.now ≡ self.old.now) }
        ensures settled { self.new.before ≡ self.new.now }
        ensures steps_ok { OnOk result (self.new.steps ≡ min (self.old.steps + steps_taken self.old.now event.now) (2 ^ 64 - 1)) }
        ensures steps_err { OnErr result (self.new.steps ≡ self.old.steps) }
    {
        let _steps = self.steps;
        if self.can_take(event) {
            self.step(alloc, event)
        } else {
            Ok(())
        }
    }
}

/// Each event that may follow can be taken.
pub fn may_is_taken()
    ensures { MayIsTaken }
{}
