//! The active and the staged plane.
ghost use Rattle.std.specs.Prelude.{◌≡◌, Some, None, is_some, IfOk, OnOk};
ghost use Rattle.std.specs.Option.{option_map};
ghost use Rattle.plane_spec.specs.Entries.{next_number};
ghost use Rattle.plane_spec.specs.Planes.{cause_in, rows_in, or_else};
ghost use Rattle.plane_image.specs.Image.{now_of, before_of, undone, BelowIn, after_in, drawn_in};
ghost use Rattle.plane_image.specs.Replaced.{former_active, former_staged};
ghost use Rattle.plane_state.specs.Answers.{WithoutMemory, WhereRefused};
ghost use Rattle.table_store.specs.Answers.{Refuses};

use crate::replaced::Replaced;
use list_types::Refusal;
use p4_types::code::{Cause, Code, Rule};
use p4_types::table::{Change, Room};
use plane_state::{Drawn, Plane};
use std::alloc::Global;
use std::marker::Model;
use std::mem;

/// The active and the staged plane, whose changes can be undone until they are kept. Contracts see both as they are, and as
/// they were before the changes that can be undone.
#[derive(Drop)]
pub(crate) struct Planes {
    active: Option<Plane>,
    staged: Option<Plane>,
    replaced: Replaced,
}

impl Model for Planes {
    ghost use Rattle.plane_image.specs.Image.{PlanesVersions, now_of, before_of};
    ghost use Rattle.plane_image.specs.Replaced.{former_active, former_staged};
    ghost use Rattle.bm_expr.specs.TreeCode.{number_code, truth_code};
    ghost use Rattle.std.specs.Coded.{codes};

    ghost coded = { Prim.hlevel (codes, number_code, truth_code) };

    ghost Value = { PlanesVersions };

    ghost view = { λ p. record {
      active = now_of p.active;
      staged = now_of p.staged;
      former_active = former_active p.replaced (before_of p.active);
      former_staged = former_staged p.replaced (before_of p.active) (before_of p.staged);
    } };
}

fn rows_in(plane: &Option<Plane>) -> u64
    ensures { result ≡ rows_in (now_of plane.now) }
{
    match plane {
        Some(plane) => plane.rows(),
        None => 0,
    }
}

// Makes a change of a plane, if there is one. Without memory all changes of it are undone.
fn change_in(
    plane: &mut Option<Plane>,
    alloc: Global,
    room: Room,
    change: &Change,
) -> Result<Drawn, Refusal<Cause>>
    requires above { BelowIn (next_number room) (now_of plane.old) }
    ensures refused { Refuses result (cause_in (now_of plane.old) room change.now) }
    ensures ok { OnOk result (now_of plane.new ≡ after_in (now_of plane.old) room change.now) }
    ensures drawn { IfOk result (λ drawn. drawn ≡ drawn_in (now_of plane.old) change.now) }
    ensures stays { WhereRefused result (now_of plane.new ≡ now_of plane.old) }
    ensures undone { WithoutMemory result (now_of plane.new ≡ before_of plane.old) }
    ensures before { before_of plane.new ≡ before_of plane.old }
{
    match plane {
        Some(plane) => plane.change(alloc, room, change),
        None => Err(Refusal::For(Cause {
            rule: Rule::U3,
            code: Code::NotFound,
        })),
    }
}

fn keep_in(plane: &mut Option<Plane>)
    ensures now { now_of plane.new ≡ now_of plane.old }
    ensures before { before_of plane.new ≡ now_of plane.old }
{
    if let Some(plane) = plane {
        plane.keep();
    }
}

fn undo_in(plane: &mut Option<Plane>)
    ensures now { now_of plane.new ≡ before_of plane.old }
    ensures before { before_of plane.new ≡ before_of plane.old }
{
    if let Some(plane) = plane {
        plane.undo();
    }
}

// Puts back what was replaced.
fn restore(active: &mut Option<Plane>, staged: &mut Option<Plane>, replaced: Replaced)
    ensures active { before_of active.new ≡ former_active replaced (before_of active.old) }
    ensures staged { before_of staged.new ≡ former_staged replaced (before_of active.old) (before_of staged.old) }
{
    match replaced {
        Replaced::Nothing => {}
        Replaced::Staged(former) => *staged = former,
        Replaced::Promoted(former) => *staged = mem::replace(active, former),
        Replaced::Both {
            active: former,
            staged: other,
        } => {
            *active = former;
            *staged = other;
        }
    }
}

// Puts the staged plane, if there is one, in the place of the active one. What was replaced.
fn promoted(active: &mut Option<Plane>, staged: &mut Option<Plane>) -> Replaced
    ensures active { now_of active.new ≡ or_else (now_of staged.old) (now_of active.old) }
    ensures staged { now_of staged.new ≡ None }
    ensures former_active { former_active result (before_of active.new) ≡ before_of active.old }
    ensures former_staged { former_staged result (before_of active.new) (before_of staged.new) ≡ before_of staged.old }
{
    match staged.take() {
        Some(plane) => Replaced::Promoted(active.replace(plane)),
        None => Replaced::Nothing,
    }
}

impl Planes {
    /// This plane is active, or none, and none is staged.
    pub(crate) fn open(active: Option<Plane>) -> Planes
        ensures active { result.active ≡ now_of active }
        ensures staged { result.staged ≡ None }
        ensures former_active { result.former_active ≡ before_of active }
        ensures former_staged { result.former_staged ≡ None }
    {
        Planes {
            active,
            staged: None,
            replaced: Replaced::Nothing,
        }
    }

    pub(crate) fn active(&self) -> Option<&Plane>
        ensures { option_map (λ plane. plane.now.now) result ≡ self.now.active }
    {
        self.active.as_ref()
    }

    pub(crate) fn is_staged(&self) -> bool
        ensures { result ≡ is_some self.now.staged }
    {
        self.staged.is_some()
    }

    /// The staged plane where there is one, else the active one.
    pub(crate) fn target(&self) -> Option<&Plane>
        ensures { option_map (λ plane. plane.now.now) result ≡ or_else self.now.staged self.now.active }
    {
        match &self.staged {
            Some(plane) => Some(plane),
            None => self.active.as_ref(),
        }
    }

    /// How many rows the active plane takes, and the staged one.
    pub(crate) fn rows(&self) -> (u64, u64)
        ensures active { result.0 ≡ rows_in self.now.active }
        ensures staged { result.1 ≡ rows_in self.now.staged }
    {
        (rows_in(&self.active), rows_in(&self.staged))
    }

    /// Makes a change of the active plane. Without memory all changes are undone.
    pub(crate) fn change_active(
        &mut self,
        alloc: Global,
        room: Room,
        change: &Change,
    ) -> Result<Drawn, Refusal<Cause>>
        requires above { BelowIn (next_number room) self.old.active }
        ensures refused { Refuses result (cause_in self.old.active room change.now) }
        ensures ok { OnOk result (self.new ≡ record self.old { active = after_in self.old.active room change.now }) }
        ensures drawn { IfOk result (λ drawn. drawn ≡ drawn_in self.old.active change.now) }
        ensures stays { WhereRefused result (self.new ≡ self.old) }
        ensures undone { WithoutMemory result (self.new ≡ undone self.old) }
    {
        let made = change_in(&mut self.active, alloc, room, change);
        if let Err(Refusal::NoMemory) = made {
            self.undo();
        }
        made
    }

    /// Makes a change of the staged plane. Without memory all changes are undone.
    pub(crate) fn change_staged(
        &mut self,
        alloc: Global,
        room: Room,
        change: &Change,
    ) -> Result<Drawn, Refusal<Cause>>
        requires above { BelowIn (next_number room) self.old.staged }
        ensures refused { Refuses result (cause_in self.old.staged room change.now) }
        ensures ok { OnOk result (self.new ≡ record self.old { staged = after_in self.old.staged room change.now }) }
        ensures drawn { IfOk result (λ drawn. drawn ≡ drawn_in self.old.staged change.now) }
        ensures stays { WhereRefused result (self.new ≡ self.old) }
        ensures undone { WithoutMemory result (self.new ≡ undone self.old) }
    {
        let made = change_in(&mut self.staged, alloc, room, change);
        if let Err(Refusal::NoMemory) = made {
            self.undo();
        }
        made
    }

    /// Keeps all changes: they can no longer be undone. It takes no memory.
    pub(crate) fn keep(&mut self)
        ensures { self.new ≡ record { active = self.old.active; staged = self.old.staged; former_active = self.old.active; former_staged = self.old.staged } }
    {
        self.replaced = Replaced::Nothing;
        keep_in(&mut self.active);
        keep_in(&mut self.staged);
    }

    /// Stages a plane in the place of one that was staged. What was changed before is kept.
    pub(crate) fn stage(&mut self, plane: Plane)
        ensures { self.new ≡ record { active = self.old.active; staged = Some plane.now; former_active = self.old.active; former_staged = self.old.staged } }
    {
        keep_in(&mut self.active);
        keep_in(&mut self.staged);
        let former = self.staged.take();
        self.staged = Some(plane);
        self.replaced = Replaced::Staged(former);
    }

    /// Makes a plane the active one, and stages none. What was changed before is kept.
    pub(crate) fn install(&mut self, plane: Plane)
        ensures { self.new ≡ record { active = Some plane.now; staged = None; former_active = self.old.active; former_staged = self.old.staged } }
    {
        keep_in(&mut self.active);
        keep_in(&mut self.staged);
        let active = self.active.take();
        let staged = self.staged.take();
        self.active = Some(plane);
        self.replaced = Replaced::Both { active, staged };
    }

    /// Makes the staged plane the active one. Without one nothing changes. What was changed before is kept.
    pub(crate) fn promote(&mut self)
        ensures active { self.new.active ≡ or_else self.old.staged self.old.active }
        ensures staged { self.new.staged ≡ None }
        ensures former_active { self.new.former_active ≡ self.old.active }
        ensures former_staged { self.new.former_staged ≡ self.old.staged }
    {
        keep_in(&mut self.active);
        keep_in(&mut self.staged);
        self.replaced = promoted(&mut self.active, &mut self.staged);
    }

    /// Undoes all changes. It takes no memory.
    pub(crate) fn undo(&mut self)
        ensures { self.new ≡ undone self.old }
    {
        let replaced = mem::replace(&mut self.replaced, Replaced::Nothing);
        restore(&mut self.active, &mut self.staged, replaced);
        undo_in(&mut self.active);
        undo_in(&mut self.staged);
    }
}
