//! The roles of a device and their sessions.
ghost use Rattle.std.specs.Prelude.{◌≡◌, false, None, Some, IfOk, IfErr, OnOk, OnErr, is_some, unwrap_or};
ghost use Rattle.std.specs.Option.{option_map, option_copied};
ghost use Rattle.role_arbiter.specs.State.{RolesState, no_roles, session_in, greatest_in, primary_of, status_by, status_of};
ghost use Rattle.role_arbiter.specs.Arbitration.{cause, asked, arbitrated, left, is_refused, inserted};
ghost use Rattle.role_arbiter.specs.Laws.{IsSound};
ghost use Rattle.role_arbiter.specs.Placing.{IsPlaced, placed_at, cause_at};
ghost use Rattle.role_arbiter.specs.Undo.{session_back, named_back};
ghost use Rattle.role_arbiter.specs.Telling.{told_at_arbitration, told_at_leave};

use crate::changes::{self, ROLE_LIMIT};
use crate::numbers::{Lanes, SESSION_LIMIT};
use crate::sessions::{self, NamedRole, Placed, Session};
use list_types::NoMemory;
use p4_types::calls::ArbitrationUpdate;
use p4_types::code::{ArbitrationRule, Code};
use p4_types::ids::Ids;
use p4_types::messages::Uint128;
use std::alloc::Global;
use std::marker::Model;

/// The live sessions of a device, and the roles that were ever named. A contract sees both lists.
/// Its calls but `open` take no memory.
#[derive(Drop)]
pub struct Roles {
    sessions: Vec<Session>,
    named: Vec<NamedRole>,
}

impl Model for Roles {
    ghost use Rattle.std.specs.Prelude.{vec_capacity, ◌≤◌};
    ghost use Rattle.role_arbiter.specs.Laws.{IsSound};
    ghost use Rattle.role_arbiter.specs.State.{RolesState};

    ghost Value = { RolesState };

    ghost view = { λ roles. record { sessions = roles.sessions.items; named = roles.named.items } };

    ghost invariant = { λ roles. IsSound (record { sessions = roles.sessions.items; named = roles.named.items }) × (32 ≤ vec_capacity roles.sessions) × (64 ≤ vec_capacity roles.named) };
}

impl Roles {
    /// No session and no role, with room for 32 live sessions and for 64 roles.
    pub fn open(alloc: Global) -> Result<Roles, NoMemory>
        ensures { IfOk result (λ roles. roles ≡ no_roles) }
    {
        let sessions = Vec::with_capacity(alloc, SESSION_LIMIT)?;
        let named = Vec::with_capacity(alloc, ROLE_LIMIT)?;
        Ok(Roles { sessions, named })
    }

    /// The live sessions, by rising caller.
    pub fn sessions(&self) -> &[Session]
        ensures { result.now ≡ self.now.sessions }
    {
        self.sessions.as_slice()
    }

    /// The session of a caller, if it has one.
    pub fn session(&self, caller: u16) -> Option<&Session>
        ensures { option_copied result ≡ session_in self.now.sessions caller }
    {
        sessions::session_in(&self.sessions, caller)
    }

    /// The roles that were ever named, each with the greatest election id that it ever received.
    pub fn named(&self) -> &[NamedRole]
        ensures { result.now ≡ self.now.named }
    {
        self.named.as_slice()
    }

    /// The greatest election id that a role ever received, or 0.
    pub fn greatest(&self, role: u64) -> Uint128
        ensures { result ≡ greatest_in self.now.named role }
    {
        sessions::greatest_in(&self.named, role)
    }

    /// A copy of the session at a place, if there is one.
    pub(crate) fn session_at(&self, place: Option<usize>) -> Option<Session>
        ensures { result ≡ placed_at place self.now.sessions }
    {
        sessions::copied_of(sessions::session_at(&self.sessions, place))
    }

    /// The greatest election id that the role at a place received, if there is one.
    pub(crate) fn received_at(&self, place: Option<usize>) -> Option<Uint128>
        ensures { result ≡ option_map (λ known. known.greatest) (placed_at place self.now.named) }
    {
        match sessions::known_at(&self.named, place) {
            None => None,
            Some(known) => Some(known.greatest),
        }
    }

    /// The session of a role's primary, if it has one.
    pub fn primary_session(&self, role: u64) -> Option<&Session>
        ensures { option_copied result ≡ primary_of self.now role }
    {
        sessions::primary_in(&self.sessions, &self.named, role)
    }

    /// The caller of a role's primary, if it has one.
    pub fn primary(&self, role: u64) -> Option<u16>
        ensures { result ≡ option_map (λ session. session.caller) (primary_of self.now role) }
    {
        match self.primary_session(role) {
            None => None,
            Some(primary) => Some(primary.caller),
        }
    }

    /// What a session of a role is told: `Ok` for the primary of the role, `AlreadyExists` for another
    /// session while there is a primary, `NotFound` while there is none.
    pub fn standing(&self, role: u64, caller: u16) -> Code
        ensures { result ≡ status_by (primary_of self.now role) caller }
    {
        sessions::status_by(self.primary_session(role), caller)
    }

    /// What a caller's session is told, if it has one.
    pub fn status(&self, caller: u16) -> Option<Code>
        ensures { result ≡ status_of self.now caller }
    {
        match self.session(caller) {
            None => None,
            Some(session) => Some(self.standing(session.role, session.caller)),
        }
    }

    // The first rule of A2 to A5 that an update breaks, by the places of its caller's session and of its role.
    fn judge(
        &self,
        place: Option<usize>,
        known: Option<usize>,
        caller: u16,
        update: &ArbitrationUpdate,
    ) -> Option<ArbitrationRule>
        ensures { result ≡ cause_at self.now place known caller update.now }
    {
        if sessions::has_role_beside(sessions::session_at(&self.sessions, place), update.role) {
            return Some(ArbitrationRule::A2);
        }
        if update.config.is_none() {
            return Some(ArbitrationRule::A3);
        }
        if changes::id_is_taken(&self.sessions, caller, update.role, update.election_id) {
            return Some(ArbitrationRule::A4);
        }
        if changes::lacks_session(&self.sessions, place)
            || changes::lacks_role(&self.named, known)
        {
            return Some(ArbitrationRule::A5);
        }
        None
    }

    /// A session with where the roles have what it takes the place of.
    pub fn placed(&self, session: Session) -> Placed
        ensures session { result.session ≡ session }
        ensures placed { IsPlaced self.now result }
    {
        let place = changes::place_of(&self.sessions, session.caller);
        let known = changes::place_of_role(&self.named, session.role);
        Placed {
            session,
            place,
            known,
        }
    }

    /// The session that an update would give its caller, or the first rule of A2 to A5 that it
    /// breaks. The device (A1) is the caller's to look at. Nothing changes.
    pub fn check(&self, caller: u16, update: ArbitrationUpdate) -> Result<Placed, ArbitrationRule>
        ensures accepted { OnOk result (cause self.now caller update ≡ None) }
        ensures session { IfOk result (λ new. new.session ≡ asked caller update) }
        ensures placed { IfOk result (λ new. IsPlaced self.now new) }
        ensures refused { IfErr result (λ refused. cause self.now caller update ≡ Some refused) }
    {
        let place = changes::place_of(&self.sessions, caller);
        let known = changes::place_of_role(&self.named, update.role);
        if let Some(rule) = self.judge(place, known, caller, &update) {
            return Err(rule);
        }
        Ok(Placed {
            session: session_of(caller, update),
            place,
            known,
        })
    }

    /// Arbitration by the rules A2 to A5. A refusal changes nothing.
    pub fn arbitrate(
        &mut self,
        caller: u16,
        update: ArbitrationUpdate,
    ) -> Result<(), ArbitrationRule>
        ensures accepted { OnOk result (cause self.old caller update ≡ None) }
        ensures step { OnOk result (self.new ≡ arbitrated self.old (asked caller update)) }
        ensures refused { IfErr result (λ refused. cause self.old caller update ≡ Some refused) }
        ensures kept { OnErr result (self.new ≡ self.old) }
    {
        let new = self.check(caller, update)?;
        self.enter(new);
        Ok(())
    }

    /// The step alone, for a session that `check` gave, with the lanes that are to be told of it.
    pub fn enter(&mut self, new: Placed) -> Lanes
        requires accepted { is_refused self.old new.session ≡ false }
        requires placed { IsPlaced self.old new }
        ensures step { self.new ≡ arbitrated self.old new.session }
        ensures told { result ≡ told_at_arbitration self.old new.session }
    {
        let Placed {
            session,
            place,
            known,
        } = new;
        let greatest = sessions::greatest_of(sessions::known_at(&self.named, known));
        let before = sessions::primary_with(&self.sessions, session.role, greatest);
        let before = sessions::copied_of(before);
        let new = sessions::copied(&session);
        let greatest = changes::receive(&mut self.named, known, session.role, session.election_id);
        changes::put(&mut self.sessions, place, session);
        let after = sessions::primary_with(&self.sessions, new.role, greatest);
        let others = sessions::differs(before.as_ref(), after);
        changes::with_others(others, &new, &self.sessions)
    }

    /// Ends a caller's session; false where it has none. What its role received stays.
    pub fn leave(&mut self, caller: u16) -> bool
        ensures step { self.new ≡ left self.old caller }
        ensures had { result ≡ is_some (session_in self.old.sessions caller) }
    {
        let had = self.session(caller).is_some();
        changes::remove(&mut self.sessions, caller);
        had
    }

    /// The lanes that are to be told where a caller's session ends: all others of its role if it is
    /// the primary, else none.
    pub fn told_at_leave(&self, caller: u16) -> Lanes
        ensures { result ≡ told_at_leave self.now caller }
    {
        let Some(session) = self.session(caller) else {
            return Lanes::new();
        };
        if self.primary(session.role) == Some(session.caller) {
            changes::others_of(session.caller, session.role, &self.sessions)
        } else {
            Lanes::new()
        }
    }

    /// Takes an arbitration back: the caller has this session again, or none, and its role this greatest election
    /// id, or was not named.
    pub(crate) fn take_back(
        &mut self,
        caller: u16,
        role: u64,
        session: Option<Session>,
        greatest: Option<Uint128>,
    )
        requires sound { IsSound (record { sessions = session_back caller session self.old.sessions; named = named_back role greatest self.old.named }) }
        ensures { self.new ≡ record { sessions = session_back caller session self.old.sessions; named = named_back role greatest self.old.named } }
    {
        changes::session_back(&mut self.sessions, caller, session);
        changes::named_back(&mut self.named, role, greatest);
    }

    /// Takes the end of a session back.
    pub(crate) fn put_back(&mut self, session: Session)
        requires sound { IsSound (record self.old { sessions = inserted self.old.sessions session }) }
        ensures { self.new ≡ record self.old { sessions = inserted self.old.sessions session } }
    {
        changes::insert(&mut self.sessions, session);
    }
}

// The session that an update asks for.
fn session_of(caller: u16, update: ArbitrationUpdate) -> Session
    ensures { result ≡ asked caller update }
{
    Session {
        caller,
        role: update.role,
        election_id: update.election_id,
        config: match update.config {
            Some(config) => config,
            None => None,
        },
    }
}
