//! The image.
ghost use Rattle.std.specs.Prelude.{◌≡◌, ◌≤◌, ◌+◌, ◌-◌, ◌^◌, min, true, false, is_some, IfOk, OnOk};
ghost use Rattle.std.specs.Option.{option_map};
ghost use Rattle.plane_spec.specs.Entries.{slot_numbers};
ghost use Rattle.plane_spec.specs.Planes.{room_of, target, cause_in, change_applied, with_roles};
ghost use Rattle.plane_image.specs.Image.{CellsBelowIn};
ghost use Rattle.plane_state.specs.Answers.{WithoutMemory, WhereRefused};
ghost use Rattle.role_arbiter.specs.Arbitration.{arbitrated, left, is_refused};
ghost use Rattle.role_arbiter.specs.Placing.{IsPlaced};
ghost use Rattle.role_arbiter.specs.Telling.{told_at_arbitration};
ghost use Rattle.table_store.specs.Answers.{Refuses};

use crate::planes::Planes;
use list_types::Refusal;
use p4_types::code::Cause;
use p4_types::table::{Change, Room};
use plane_state::Plane;
use role_arbiter::{Lanes, Placed, Roles, UndoRoles};
use std::alloc::Global;
use std::marker::Model;

/// The control state of the switch, whose changes can be undone until they are kept, with the number of steps so far
/// (which stands still at 2^64 - 1). Contracts see it as it is, and as it was before the changes that can be undone.
pub struct Image {
    pub(crate) device: u64,
    pub(crate) cpu: u16,
    pub(crate) rows: u32,
    pub(crate) slots: u32,
    pub(crate) roles: UndoRoles,
    pub(crate) planes: Planes,
    pub(crate) next: u64,
    pub(crate) next_slot: u32,
    pub(crate) former_next: u64,
    pub(crate) former_slot: u32,
    pub(crate) closed: bool,
    pub(crate) steps: u64,
}

impl Model for Image {
    ghost use Rattle.plane_image.specs.Image.{ImageVersions, control_of, IsImage};
    ghost use Rattle.bm_expr.specs.TreeCode.{number_code, truth_code};
    ghost use Rattle.std.specs.Coded.{codes};

    ghost coded = { Prim.hlevel (codes, number_code, truth_code) };

    ghost Value = { ImageVersions };

    ghost view = { λ i. record {
      now = control_of i.device i.cpu i.rows i.slots i.roles.now i.planes.active i.planes.staged i.next i.next_slot i.closed;
      before = control_of i.device i.cpu i.rows i.slots i.roles.before i.planes.former_active i.planes.former_staged i.former_next i.former_slot i.closed;
      steps = i.steps;
    } };

    ghost invariant = { λ i. IsImage (record {
      now = control_of i.device i.cpu i.rows i.slots i.roles.now i.planes.active i.planes.staged i.next i.next_slot i.closed;
      before = control_of i.device i.cpu i.rows i.slots i.roles.before i.planes.former_active i.planes.former_staged i.former_next i.former_slot i.closed;
      steps = i.steps;
    }) };
}

// Written out, so that those who let an image go need not look into it.
impl Drop for Image {
    fn drop(self) {
        let Self {
            device: _,
            cpu: _,
            rows: _,
            slots: _,
            roles: _roles,
            planes: _planes,
            next: _,
            next_slot: _,
            former_next: _,
            former_slot: _,
            closed: _,
            steps: _,
        } = self;
    }
}

impl Image {
    /// The device id that calls must name.
    pub fn device(&self) -> u64
        ensures { result ≡ self.now.now.device }
    {
        self.device
    }

    /// The port at which packets from and to a controller pass.
    pub fn cpu(&self) -> u16
        ensures { result ≡ self.now.now.cpu }
    {
        self.cpu
    }

    /// The sessions of controllers, and their roles.
    pub fn roles(&self) -> &Roles
        ensures { result.now ≡ self.now.now.roles }
    {
        self.roles.roles()
    }

    /// The plane that packets run through.
    pub fn active(&self) -> Option<&Plane>
        ensures plane { option_map (λ plane. plane.now.now) result ≡ self.now.now.active }
        ensures slots { CellsBelowIn slot_numbers (option_map (λ plane. plane.now.now) result) }
    {
        let _below = self.next_slot;
        self.planes.active()
    }

    /// Whether a saved pipeline waits to be committed.
    pub fn is_staged(&self) -> bool
        ensures { result ≡ is_some self.now.now.staged }
    {
        self.planes.is_staged()
    }

    /// The plane that controllers write and read: the staged one where there is one, else the active one.
    pub fn target(&self) -> Option<&Plane>
        ensures plane { option_map (λ plane. plane.now.now) result ≡ target self.now.now }
        ensures slots { CellsBelowIn slot_numbers (option_map (λ plane. plane.now.now) result) }
    {
        let _below = self.next_slot;
        self.planes.target()
    }

    /// The slot of the counters that is drawn next: those of all entries and cells, of either plane, are below it.
    pub fn next_slot(&self) -> u32
        ensures slot { result ≡ self.now.now.next_slot }
        ensures limit { result ≤ self.now.now.slots }
    {
        self.next_slot
    }

    /// How many steps there were.
    pub fn steps(&self) -> u64
        ensures { result ≡ self.now.steps }
    {
        self.steps
    }

    // What is left to be drawn.
    pub(crate) fn room(&self) -> Room
        ensures { result ≡ room_of self.now.now }
    {
        let (active, staged) = self.planes.rows();
        let rows = u64::from(self.rows);
        Room {
            rows: rows.saturating_sub(active).saturating_sub(staged) as u32,
            slots: self.slots - self.next_slot,
            next_slot: self.next_slot,
            next_stamp: 0,
            numbers: u64::MAX - self.next,
        }
    }

    fn change_staged(&mut self, alloc: Global, change: &Change) -> Result<(), Refusal<Cause>>
        requires staged { is_some self.old.now.staged ≡ true }
        ensures refused { Refuses result (cause_in (target self.old.now) (room_of self.old.now) change.now) }
        ensures ok { OnOk result (self.new.now ≡ change_applied self.old.now change.now) }
        ensures stays { WhereRefused result (self.new.now ≡ self.old.now) }
        ensures undone { WithoutMemory result (self.new.now ≡ self.old.before) }
        ensures before { self.new.before ≡ self.old.before }
        ensures steps { self.new.steps ≡ self.old.steps }
    {
        let room = self.room();
        match self.planes.change_staged(alloc, room, change) {
            Ok(drawn) => {
                self.next += drawn.numbers;
                self.next_slot += drawn.slots;
                Ok(())
            }
            Err(Refusal::For(cause)) => Err(Refusal::For(cause)),
            Err(Refusal::NoMemory) => {
                self.roles.undo();
                self.next = self.former_next;
                self.next_slot = self.former_slot;
                Err(Refusal::NoMemory)
            }
        }
    }

    fn change_active(&mut self, alloc: Global, change: &Change) -> Result<(), Refusal<Cause>>
        requires staged { is_some self.old.now.staged ≡ false }
        ensures refused { Refuses result (cause_in (target self.old.now) (room_of self.old.now) change.now) }
        ensures ok { OnOk result (self.new.now ≡ change_applied self.old.now change.now) }
        ensures stays { WhereRefused result (self.new.now ≡ self.old.now) }
        ensures undone { WithoutMemory result (self.new.now ≡ self.old.before) }
        ensures before { self.new.before ≡ self.old.before }
        ensures steps { self.new.steps ≡ self.old.steps }
    {
        let room = self.room();
        match self.planes.change_active(alloc, room, change) {
            Ok(drawn) => {
                self.next += drawn.numbers;
                self.next_slot += drawn.slots;
                Ok(())
            }
            Err(Refusal::For(cause)) => Err(Refusal::For(cause)),
            Err(Refusal::NoMemory) => {
                self.roles.undo();
                self.next = self.former_next;
                self.next_slot = self.former_slot;
                Err(Refusal::NoMemory)
            }
        }
    }

    /// Makes a change of the target plane; refused for its cause, and then the image is as it was, or for want of memory,
    /// and then all changes are undone.
    pub(crate) fn change(&mut self, alloc: Global, change: &Change) -> Result<(), Refusal<Cause>>
        ensures refused { Refuses result (cause_in (target self.old.now) (room_of self.old.now) change.now) }
        ensures ok { OnOk result (self.new.now ≡ change_applied self.old.now change.now) }
        ensures stays { WhereRefused result (self.new.now ≡ self.old.now) }
        ensures undone { WithoutMemory result (self.new.now ≡ self.old.before) }
        ensures before { self.new.before ≡ self.old.before }
        ensures steps { self.new.steps ≡ self.old.steps }
    {
        if self.planes.is_staged() {
            self.change_staged(alloc, change)
        } else {
            self.change_active(alloc, change)
        }
    }

    /// The step of an arbitration that breaks no rule, with the lanes that are to be told of it. It takes no memory.
    pub fn enter(&mut self, new: Placed) -> Lanes
        requires settled { self.old.before ≡ self.old.now }
        requires accepted { is_refused self.old.now.roles new.session ≡ false }
        requires placed { IsPlaced self.old.now.roles new }
        ensures now { self.new.now ≡ with_roles self.old.now (arbitrated self.old.now.roles new.session) }
        ensures before { self.new.before ≡ self.old.before }
        ensures steps { self.new.steps ≡ self.old.steps }
        ensures told { result ≡ told_at_arbitration self.old.now.roles new.session }
    {
        self.roles.enter(new)
    }

    /// The step by which a caller's session ends. It takes no memory.
    pub fn leave(&mut self, caller: u16)
        requires settled { self.old.before ≡ self.old.now }
        ensures now { self.new.now ≡ with_roles self.old.now (left self.old.now.roles caller) }
        ensures before { self.new.before ≡ self.old.before }
        ensures steps { self.new.steps ≡ self.old.steps }
    {
        self.roles.leave(caller);
    }

    /// Keeps all changes, which are so many steps: they can no longer be undone. It takes no memory.
    pub fn keep(&mut self, steps: u64)
        ensures now { self.new.now ≡ self.old.now }
        ensures before { self.new.before ≡ self.old.now }
        ensures steps { self.new.steps ≡ min (self.old.steps + steps) (2 ^ 64 - 1) }
    {
        self.roles.settle();
        self.planes.keep();
        self.former_next = self.next;
        self.former_slot = self.next_slot;
        self.steps = self.steps.saturating_add(steps);
    }

    /// Undoes all changes. It takes no memory.
    pub fn undo(&mut self)
        ensures now { self.new.now ≡ self.old.before }
        ensures before { self.new.before ≡ self.old.before }
        ensures steps { self.new.steps ≡ self.old.steps }
    {
        self.roles.undo();
        self.planes.undo();
        self.next = self.former_next;
        self.next_slot = self.former_slot;
    }
}
