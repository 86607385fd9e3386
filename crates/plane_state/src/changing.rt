//! Changes of a plane.
ghost use Rattle.std.specs.Prelude.{◌≡◌, ◌<◌, All, IfOk, OnOk};
ghost use Rattle.plane_spec.specs.Entries.{next_number};
ghost use Rattle.plane_spec.specs.Planes.{change_cause};
ghost use Rattle.plane_state.specs.Answers.{WithMemory, WhereRefused};
ghost use Rattle.plane_state.specs.Versions.{IsCounted, plane_after, drawn_by};
ghost use Rattle.table_store.specs.Answers.{Refuses};

use crate::parts::{Drawn, Parts};
use list_types::Refusal;
use p4_types::code::Cause;
use p4_types::table::{Change, Room};
use std::alloc::Global;

impl Parts {
    /// Makes a change, with what is left to be drawn; refused for its cause, and then all is as it was, or for want of
    /// memory, and then it may be made in part.
    pub(crate) fn change(
        &mut self,
        alloc: Global,
        room: Room,
        change: &Change,
    ) -> Result<Drawn, Refusal<Cause>>
        requires counted { IsCounted self.old.now }
        requires above { All (λ entry. entry.seq < next_number room) self.old.now.plane.entries }
        ensures refused { Refuses result (change_cause room self.old.now.plane change.now) }
        ensures ok { OnOk result (self.new.now.plane ≡ plane_after room self.old.now.plane change.now) }
        ensures drawn { IfOk result (λ drawn. drawn ≡ drawn_by self.old.now.plane change.now) }
        ensures stays { WhereRefused result (self.new.now ≡ self.old.now) }
        ensures counted { WithMemory result (IsCounted self.new.now) }
        ensures before { self.new.before ≡ self.old.before }
    {
        match change {
            Change::InsertEntry(entry) => self.insert_entry(alloc, room, entry),
            Change::ModifyEntry(entry) => self.modify_entry(room, entry),
            Change::DeleteEntry(name) => self.delete_entry(name),
            Change::ModifyDefault { table, action } => self.set_default(*table, action),
            Change::Profile(change) => self.change_profile(room, change),
            Change::Digest(change) => self.change_digest(change),
            Change::Multicast(change) => self.change_multicast(room, change),
        }
    }
}
