//! Planes.
ghost use Rattle.std.specs.Prelude.{◌≡◌, ◌<◌, All, map, IfOk, OnOk};
ghost use Rattle.std.specs.Option.{option_map};
ghost use Rattle.plane_spec.specs.Entries.{next_number};
ghost use Rattle.plane_spec.specs.Multicast.{multicast_of};
ghost use Rattle.plane_spec.specs.Planes.{made_plane, change_cause, default_in, default_entry, digest_in, rows_of};
ghost use Rattle.plane_state.specs.Answers.{WithoutMemory, WhereRefused};
ghost use Rattle.plane_state.specs.Versions.{plane_after, drawn_by};
ghost use Rattle.profile_store.specs.Rows.{members_of, groups_of};
ghost use Rattle.table_store.specs.Answers.{Refuses};

use crate::config::Config;
use crate::parts::{Drawn, Parts};
use crate::{defaults, digests, multicast};
use list_types::Refusal;
use p4_types::code::Cause;
use p4_types::messages::DigestEntry;
use p4_types::multicast::MulticastGroup;
use p4_types::shared::Shared;
use p4_types::table::{Change, DefaultAction, Room};
use profile_store::ProfileStore;
use std::alloc::Global;
use std::marker::Model;
use table_store::TableStore;

/// A program with what is written to it, whose changes can be undone until they are kept. Contracts see it as it is,
/// and as it was before the changes that can be undone.
pub struct Plane {
    parts: Parts,
}

impl Model for Plane {
    ghost use Rattle.plane_state.specs.Versions.{PlaneVersions, AreCounted};
    ghost use Rattle.bm_expr.specs.TreeCode.{number_code, truth_code};
    ghost use Rattle.std.specs.Coded.{codes};

    ghost coded = { Prim.hlevel (codes, number_code, truth_code) };

    ghost Value = { PlaneVersions };

    ghost view = { λ p. record { now = p.parts.now.plane; before = p.parts.before.plane } };

    ghost invariant = { λ p. AreCounted p.parts };
}

// Written out, so that those who let a plane go need not look into it.
impl Drop for Plane {
    fn drop(self) {
        let Self { parts: _parts } = self;
    }
}

impl Plane {
    /// A plane of a configuration with nothing written, whose cells have the slots from this one on. It takes no memory.
    pub fn open(alloc: Global, config: Shared<Config>, cells: u32) -> Plane
        ensures now { result.now ≡ made_plane cells config }
        ensures before { result.before ≡ made_plane cells config }
    {
        Plane {
            parts: Parts::open(alloc, config, cells),
        }
    }

    /// The configuration that the plane was made of.
    pub fn config(&self) -> &Config
        ensures { result.now ≡ self.now.now.config }
    {
        self.parts.config.get()
    }

    /// The entries of its tables.
    pub fn store(&self) -> &TableStore
        ensures { result.now.entries ≡ self.now.now.entries }
    {
        &self.parts.store
    }

    /// The members and groups of its action profiles.
    pub fn profiles(&self) -> &ProfileStore
        ensures members { members_of result.now.now ≡ self.now.now.members }
        ensures groups { groups_of result.now.now ≡ self.now.now.groups }
    {
        &self.parts.profiles
    }

    /// The digest entries, by rising id.
    pub fn digests(&self) -> &[DigestEntry]
        ensures { result.now ≡ self.now.now.digests }
    {
        self.parts.digests.as_slice()
    }

    /// The entry of a digest, if it has one.
    pub fn digest(&self, digest: u32) -> Option<&DigestEntry>
        ensures { option_map (λ entry. entry.now) result ≡ digest_in digest self.now.now.digests }
    {
        digests::digest_in(self.parts.digests.as_slice(), digest)
    }

    /// The multicast groups, by rising id.
    pub fn multicast_groups(&self) -> &[MulticastGroup]
        ensures { result.now ≡ self.now.now.multicast }
    {
        self.parts.multicast.as_slice()
    }

    /// The multicast group of an id, if there is one.
    pub fn multicast(&self, id: u128) -> Option<&MulticastGroup>
        ensures { option_map (λ group. group.now) result ≡ multicast_of id self.now.now.multicast }
    {
        multicast::multicast_in(self.parts.multicast.as_slice(), id)
    }

    /// The default entry of a table that a Read shows: the changed one, else the program's own, if it has one.
    pub fn default_entry(&self, table: u32) -> Option<&DefaultAction>
        ensures { option_map (λ default. default.now) result ≡ default_entry self.now.now table }
    {
        match defaults::default_in(self.parts.changed.as_slice(), table) {
            Some(default) => Some(default),
            None => defaults::default_in(self.parts.config.get().defaults(), table),
        }
    }

    /// The default action of a table that was changed, if it was.
    pub fn changed_default(&self, table: u32) -> Option<&DefaultAction>
        ensures { option_map (λ default. default.now) result ≡ default_in table self.now.now.changed }
    {
        defaults::default_in(self.parts.changed.as_slice(), table)
    }

    /// The slot of the first cell of its indirect counters.
    pub fn cells(&self) -> u32
        ensures { result ≡ self.now.now.cells }
    {
        self.parts.cells
    }

    /// How many rows all that is written takes.
    pub fn rows(&self) -> u64
        ensures { result ≡ rows_of self.now.now }
    {
        self.parts.rows
    }

    /// Makes a change, with what is left to be drawn; refused for its cause (U10 to U12), and then the plane is as it was,
    /// or for want of memory, and then all changes are undone.
    pub fn change(
        &mut self,
        alloc: Global,
        room: Room,
        change: &Change,
    ) -> Result<Drawn, Refusal<Cause>>
        requires above { All (λ entry. entry.seq < next_number room) self.old.now.entries }
        ensures refused { Refuses result (change_cause room self.old.now change.now) }
        ensures ok { OnOk result (self.new.now ≡ plane_after room self.old.now change.now) }
        ensures drawn { IfOk result (λ drawn. drawn ≡ drawn_by self.old.now change.now) }
        ensures stays { WhereRefused result (self.new.now ≡ self.old.now) }
        ensures undone { WithoutMemory result (self.new.now ≡ self.old.before) }
        ensures before { self.new.before ≡ self.old.before }
    {
        let made = self.parts.change(alloc, room, change);
        if let Err(Refusal::NoMemory) = made {
            self.parts.undo();
        }
        made
    }

    /// Keeps all changes: they can no longer be undone. It takes no memory.
    pub fn keep(&mut self)
        ensures now { self.new.now ≡ self.old.now }
        ensures before { self.new.before ≡ self.old.now }
    {
        self.parts.keep();
    }

    /// Undoes all changes. It takes no memory.
    pub fn undo(&mut self)
        ensures now { self.new.now ≡ self.old.before }
        ensures before { self.new.before ≡ self.old.before }
    {
        self.parts.undo();
    }
}
