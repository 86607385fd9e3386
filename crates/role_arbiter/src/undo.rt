//! Roles whose latest step can be undone.
ghost use Rattle.std.specs.Prelude.{◌≡◌, false, IfOk};
ghost use Rattle.role_arbiter.specs.State.{no_roles};
ghost use Rattle.role_arbiter.specs.Arbitration.{arbitrated, left, is_refused};
ghost use Rattle.role_arbiter.specs.Placing.{IsPlaced};
ghost use Rattle.role_arbiter.specs.Telling.{told_at_arbitration};

use crate::arbiter::Roles;
use crate::numbers::Lanes;
use crate::sessions::{self, Placed, Session};
use list_types::NoMemory;
use p4_types::messages::Uint128;
use std::alloc::Global;
use std::marker::Model;
use std::mem;

/// What a step replaced.
#[derive(Drop)]
pub(crate) enum Step {
    /// There was no step.
    Nothing,
    /// A session was made or changed: that which the caller had, and the greatest election id of the role, if
    /// it was named.
    Entered {
        caller: u16,
        role: u64,
        session: Option<Session>,
        greatest: Option<Uint128>,
    },
    /// This session ended.
    Left(Session),
}

/// Roles whose latest step can be undone. A contract sees them as they are, and as they were before the step.
/// No call but `open` takes memory.
#[derive(Drop)]
pub struct UndoRoles {
    roles: Roles,
    step: Step,
}

impl Model for UndoRoles {
    ghost use Rattle.role_arbiter.specs.Laws.{IsSound};
    ghost use Rattle.role_arbiter.specs.Undo.{RolesVersions, back};

    ghost Value = { RolesVersions };

    ghost view = { λ u. record { now = u.roles; before = back u.step u.roles } };

    ghost invariant = { λ u. IsSound u.roles × IsSound (back u.step u.roles) };
}

impl UndoRoles {
    /// No session and no role, with room for 32 live sessions and for 64 roles.
    pub fn open(alloc: Global) -> Result<UndoRoles, NoMemory>
        ensures now { IfOk result (λ u. u.now ≡ no_roles) }
        ensures before { IfOk result (λ u. u.before ≡ no_roles) }
    {
        Ok(UndoRoles {
            roles: Roles::open(alloc)?,
            step: Step::Nothing,
        })
    }

    /// The roles as they are.
    pub fn roles(&self) -> &Roles
        ensures { result.now ≡ self.now.now }
    {
        &self.roles
    }

    /// The step of an arbitration that breaks no rule, with the lanes that are to be told of it.
    pub fn enter(&mut self, new: Placed) -> Lanes
        requires settled { self.old.before ≡ self.old.now }
        requires accepted { is_refused self.old.now new.session ≡ false }
        requires placed { IsPlaced self.old.now new }
        ensures step { self.new.now ≡ arbitrated self.old.now new.session }
        ensures before { self.new.before ≡ self.old.before }
        ensures told { result ≡ told_at_arbitration self.old.now new.session }
    {
        self.step = Step::Entered {
            caller: new.session.caller,
            role: new.session.role,
            session: self.roles.session_at(new.place),
            greatest: self.roles.received_at(new.known),
        };
        self.roles.enter(new)
    }

    /// The step by which a caller's session ends, if it has one.
    pub fn leave(&mut self, caller: u16)
        requires settled { self.old.before ≡ self.old.now }
        ensures step { self.new.now ≡ left self.old.now caller }
        ensures before { self.new.before ≡ self.old.before }
    {
        self.step = match self.roles.session(caller) {
            None => Step::Nothing,
            Some(session) => Step::Left(sessions::copied(session)),
        };
        self.roles.leave(caller);
    }

    /// Keeps the step: it can no longer be undone.
    pub fn settle(&mut self)
        ensures now { self.new.now ≡ self.old.now }
        ensures before { self.new.before ≡ self.old.now }
    {
        self.step = Step::Nothing;
    }

    /// Undoes the step.
    pub fn undo(&mut self)
        ensures now { self.new.now ≡ self.old.before }
        ensures before { self.new.before ≡ self.old.before }
    {
        match mem::replace(&mut self.step, Step::Nothing) {
            Step::Nothing => {}
            Step::Entered {
                caller,
                role,
                session,
                greatest,
            } => self.roles.take_back(caller, role, session, greatest),
            Step::Left(session) => self.roles.put_back(session),
        }
    }
}
