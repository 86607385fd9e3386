//! Planes of configurations that are saved and committed.
ghost use Rattle.std.specs.Prelude.{◌≡◌, ◌≤◌, ◌+◌, nat_lt, IfOk, OnOk, OnErr};
ghost use Rattle.p4_types.specs.declared.events.Committed.TheVariants as contents;
ghost use Rattle.plane_spec.specs.Config.{cells_in};
ghost use Rattle.plane_spec.specs.Entries.{slot_numbers};
ghost use Rattle.plane_spec.specs.Planes.{saved, committed, made_plane};

use crate::image::Image;
use list_types::NoMemory;
use p4_types::shared::Shared;
use plane_state::{Config, Plane};
use std::alloc::Global;

// How many cells the indirect counters of a configuration have together, of which there are no more than slots.
fn cells_in(config: &Config) -> u64
    requires few { cells_in config.now ≤ slot_numbers }
    ensures { result ≡ cells_in config.now }
{
    let mut cells = 0;
    for counter in config.info().info().counters.as_slice() {
        cells += counter.size;
    }
    cells
}

// Whether the indirect counters of a configuration have together more cells than this.
fn has_more_cells(config: &Config, room: u64) -> bool
    ensures { result ≡ nat_lt room (cells_in config.now) }
{
    let mut left = room;
    for counter in config.info().info().counters.as_slice() {
        if counter.size > left {
            return true;
        }
        left -= counter.size;
    }
    false
}

impl Image {
    /// Whether the cells of a configuration's counters need more slots than are left.
    pub fn lacks_slots(&self, config: &Config) -> bool
        ensures { result ≡ nat_lt self.now.now.slots (self.now.now.next_slot + cells_in config.now) }
    {
        has_more_cells(config, u64::from(self.slots - self.next_slot))
    }

    // A new plane of a configuration, whose cells have the next slots.
    fn made(&self, alloc: Global, config: &Shared<Config>) -> Result<Plane, NoMemory>
        ensures now { IfOk result (λ plane. plane.now ≡ made_plane self.now.now.next_slot config.now) }
    {
        let config = config.share()?;
        Ok(Plane::open(alloc, config, self.next_slot))
    }

    /// Stages an empty plane of a configuration, whose cells draw their slots. Without memory the image is as it was.
    pub fn save(&mut self, alloc: Global, config: &Shared<Config>) -> Result<(), NoMemory>
        requires settled { self.old.before ≡ self.old.now }
        requires slots { self.old.now.next_slot + cells_in config.now ≤ self.old.now.slots }
        ensures ok { OnOk result (self.new.now ≡ saved self.old.now config.now) }
        ensures err { OnErr result (self.new.now ≡ self.old.now) }
        ensures before { self.new.before ≡ self.old.before }
        ensures steps { self.new.steps ≡ self.old.steps }
    {
        let plane = self.made(alloc, config)?;
        let cells = cells_in(config.get()) as u32;
        self.planes.stage(plane);
        self.next_slot += cells;
        Ok(())
    }

    /// Makes an empty plane of a configuration the active one, whose cells draw their slots, and stages none. Without memory
    /// the image is as it was.
    pub fn install(&mut self, alloc: Global, config: &Shared<Config>) -> Result<(), NoMemory>
        requires settled { self.old.before ≡ self.old.now }
        requires slots { self.old.now.next_slot + cells_in config.now ≤ self.old.now.slots }
        ensures ok { OnOk result (self.new.now ≡ committed self.old.now (contents.Fresh config.now)) }
        ensures err { OnErr result (self.new.now ≡ self.old.now) }
        ensures before { self.new.before ≡ self.old.before }
        ensures steps { self.new.steps ≡ self.old.steps }
    {
        let plane = self.made(alloc, config)?;
        let cells = cells_in(config.get()) as u32;
        self.planes.install(plane);
        self.next_slot += cells;
        Ok(())
    }

    /// Makes the staged plane, if there is one, the active one. It takes no memory.
    pub fn promote(&mut self)
        requires settled { self.old.before ≡ self.old.now }
        ensures now { self.new.now ≡ committed self.old.now contents.Staged }
        ensures before { self.new.before ≡ self.old.before }
        ensures steps { self.new.steps ≡ self.old.steps }
    {
        self.planes.promote();
    }
}
