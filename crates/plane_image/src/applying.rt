//! Events.
ghost use Rattle.std.specs.Prelude.{◌≡◌, ◌≤◌, ◌+◌, ◌^◌, ◌-◌, min, false, true, OnOk, OnErr, fold};
ghost use Rattle.plane_spec.specs.Config.{cells_in};
ghost use Rattle.plane_spec.specs.Legal.{May};
ghost use Rattle.plane_spec.specs.Planes.{apply, saved, committed, change_applied, with_roles, session_by};
ghost use Rattle.plane_image.specs.Image.{steps_of};
ghost use Rattle.plane_image.specs.Taking.{can_take, has_slots_in};
ghost use Rattle.role_arbiter.specs.Arbitration.{settled, left, is_refused};

use crate::image::Image;
use list_types::{NoMemory, Refusal};
use p4_types::events::{Committed, Event, Origin};
use p4_types::ids::Ids;
use p4_types::shared::Shared;
use p4_types::table::Change;
use plane_state::Config;
use role_arbiter::Session;
use std::alloc::Global;

mod taking;

pub use taking::may_is_taken;

fn copied(config: &Option<Ids>) -> Option<Ids>
    ensures { result ≡ config.now }
{
    match config {
        None => None,
        Some(ids) => Some(ids.copy()),
    }
}

impl Image {
    // An arbitration that breaks no rule.
    fn arbitrate(&mut self, by: &Origin, config: &Option<Ids>)
        requires settled { self.old.before ≡ self.old.now }
        requires accepted { is_refused self.old.now.roles (session_by by.now config.now) ≡ false }
        ensures now { self.new.now ≡ with_roles self.old.now (settled self.old.now.roles (session_by by.now config.now)) }
        ensures settled { self.new.before ≡ self.new.now }
        ensures steps { self.new.steps ≡ min (self.old.steps + 1) (2 ^ 64 - 1) }
    {
        let new = self.roles().placed(Session {
            caller: by.caller,
            role: by.role,
            election_id: by.election_id,
            config: copied(config),
        });
        self.enter(new);
        self.keep(1);
    }

    // The end of a caller's session.
    fn depart(&mut self, caller: u16)
        requires settled { self.old.before ≡ self.old.now }
        ensures now { self.new.now ≡ with_roles self.old.now (left self.old.now.roles caller) }
        ensures settled { self.new.before ≡ self.new.now }
        ensures steps { self.new.steps ≡ min (self.old.steps + 1) (2 ^ 64 - 1) }
    {
        self.leave(caller);
        self.keep(1);
    }

    // Makes a change of the target plane, if it can take effect. Without memory all changes are undone.
    fn change_if_free(&mut self, alloc: Global, change: &Change) -> Result<(), NoMemory>
        ensures ok { OnOk result (self.new.now ≡ change_applied self.old.now change.now) }
        ensures err { OnErr result (self.new.now ≡ self.old.before) }
        ensures before { self.new.before ≡ self.old.before }
        ensures steps { self.new.steps ≡ self.old.steps }
    {
        match self.change(alloc, change) {
            Ok(()) => Ok(()),
            Err(Refusal::For(_)) => Ok(()),
            Err(Refusal::NoMemory) => Err(NoMemory),
        }
    }

    // Makes each change of a list that can take effect. Without memory all changes are undone.
    fn changes(&mut self, alloc: Global, changes: &[Change]) -> Result<(), NoMemory>
        ensures ok { OnOk result (self.new.now ≡ fold change_applied self.old.now changes.now) }
        ensures err { OnErr result (self.new.now ≡ self.old.before) }
        ensures before { self.new.before ≡ self.old.before }
        ensures steps { self.new.steps ≡ self.old.steps }
    {
        for change in changes {
            self.change_if_free(alloc, change)?;
        }
        Ok(())
    }

    // A change that is a step.
    fn one_change(&mut self, alloc: Global, change: &Change) -> Result<(), NoMemory>
        requires settled { self.old.before ≡ self.old.now }
        ensures ok { OnOk result (self.new.now ≡ change_applied self.old.now change.now) }
        ensures err { OnErr result (self.new.now ≡ self.old.now) }
        ensures settled { self.new.before ≡ self.new.now }
        ensures steps_ok { OnOk result (self.new.steps ≡ min (self.old.steps + 1) (2 ^ 64 - 1)) }
        ensures steps_err { OnErr result (self.new.steps ≡ self.old.steps) }
    {
        self.change_if_free(alloc, change)?;
        self.keep(1);
        Ok(())
    }

    // Changes that are one step: all of them are made, or none.
    fn batch(&mut self, alloc: Global, changes: &[Change]) -> Result<(), NoMemory>
        requires settled { self.old.before ≡ self.old.now }
        ensures ok { OnOk result (self.new.now ≡ fold change_applied self.old.now changes.now) }
        ensures err { OnErr result (self.new.now ≡ self.old.now) }
        ensures settled { self.new.before ≡ self.new.now }
        ensures steps_ok { OnOk result (self.new.steps ≡ min (self.old.steps + 1) (2 ^ 64 - 1)) }
        ensures steps_err { OnErr result (self.new.steps ≡ self.old.steps) }
    {
        self.changes(alloc, changes)?;
        self.keep(1);
        Ok(())
    }

    fn save_step(&mut self, alloc: Global, config: &Shared<Config>) -> Result<(), NoMemory>
        requires settled { self.old.before ≡ self.old.now }
        requires slots { self.old.now.next_slot + cells_in config.now ≤ self.old.now.slots }
        ensures ok { OnOk result (self.new.now ≡ saved self.old.now config.now) }
        ensures err { OnErr result (self.new.now ≡ self.old.now) }
        ensures settled { self.new.before ≡ self.new.now }
        ensures steps_ok { OnOk result (self.new.steps ≡ min (self.old.steps + 1) (2 ^ 64 - 1)) }
        ensures steps_err { OnErr result (self.new.steps ≡ self.old.steps) }
    {
        self.save(alloc, config)?;
        self.keep(1);
        Ok(())
    }

    // Makes what is committed the active plane, and leaves none staged.
    fn commit_step(&mut self, alloc: Global, content: &Committed<Config>) -> Result<(), NoMemory>
        requires settled { self.old.before ≡ self.old.now }
        requires slots { has_slots_in self.old.now content.now ≡ true }
        ensures ok { OnOk result (self.new.now ≡ committed self.old.now content.now) }
        ensures err { OnErr result (self.new.now ≡ self.old.now) }
        ensures settled { self.new.before ≡ self.new.now }
        ensures steps_ok { OnOk result (self.new.steps ≡ min (self.old.steps + 1) (2 ^ 64 - 1)) }
        ensures steps_err { OnErr result (self.new.steps ≡ self.old.steps) }
    {
        match content {
            Committed::Staged => self.promote(),
            Committed::Fresh(config) => self.install(alloc, config)?,
        }
        self.keep(1);
        Ok(())
    }

    // The end of the list.
    fn close(&mut self)
        requires settled { self.old.before ≡ self.old.now }
        ensures now { self.new.now ≡ record self.old.now { closed = true } }
        ensures settled { self.new.before ≡ self.new.now }
        ensures steps { self.new.steps ≡ self.old.steps }
        ensures few { self.new.steps ≤ 2 ^ 64 - 1 }
    {
        self.closed = true;
    }

    // The step of an event that can be taken. Without memory, the image is as it was.
    fn step(&mut self, alloc: Global, event: &Event<Config>) -> Result<(), NoMemory>
        requires settled { self.old.before ≡ self.old.now }
        requires taken { can_take self.old.now event.now ≡ true }
        ensures ok { OnOk result (self.new.now ≡ apply self.old.now event.now) }
        ensures err { OnErr result (self.new.now ≡ self.old.now) }
        ensures settled { self.new.before ≡ self.new.now }
        ensures steps_ok { OnOk result (self.new.steps ≡ min (self.old.steps + steps_of event.now) (2 ^ 64 - 1)) }
        ensures steps_err { OnErr result (self.new.steps ≡ self.old.steps) }
    {
        match event {
            Event::Arbitrate { by, config } => self.arbitrate(by, config),
            Event::Leave { caller, .. } => self.depart(*caller),
            Event::Change { change, .. } => self.one_change(alloc, change)?,
            Event::Batch { changes, .. } => self.batch(alloc, changes.as_slice())?,
            Event::Save { config, .. } => self.save_step(alloc, config)?,
            Event::Commit { content, .. } => self.commit_step(alloc, content)?,
            Event::Close => self.close(),
        }
        Ok(())
    }

    /// The step of an event that may follow. Without memory, the image is as it was.
    pub fn apply(&mut self, alloc: Global, event: &Event<Config>) -> Result<(), NoMemory>
        requires settled { self.old.before ≡ self.old.now }
        requires may { May self.old.now event.now }
        ensures ok { OnOk result (self.new.now ≡ apply self.old.now event.now) }
        ensures err { OnErr result (self.new.now ≡ self.old.now) }
        ensures settled { self.new.before ≡ self.new.now }
        ensures steps_ok { OnOk result (self.new.steps ≡ min (self.old.steps + steps_of event.now) (2 ^ 64 - 1)) }
        ensures steps_err { OnErr result (self.new.steps ≡ self.old.steps) }
    {
        self.step(alloc, event)
    }
}
