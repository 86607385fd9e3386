//! What a plane is made of.
ghost use Rattle.std.specs.Prelude.{◌≡◌, ◌+◌, ◌-◌, ◌^◌, ◌≤◌, None, IfOk, IfErr, OnOk};
ghost use Rattle.plane_spec.specs.Planes.{made_plane, with_default};
ghost use Rattle.plane_state.specs.Answers.{WithMemory};
ghost use Rattle.plane_state.specs.Versions.{IsCounted};
ghost use Rattle.profile_store.specs.Rows.{no_rows};
ghost use Rattle.table_store.specs.Answers.{Refuses};

use crate::config::Config;
use crate::defaults;
use list_types::{NoMemory, Refusal};
use p4_types::code::Cause;
use p4_types::messages::DigestEntry;
use p4_types::multicast::MulticastGroup;
use p4_types::shared::Shared;
use p4_types::table::{ActionCall, DefaultAction};
use profile_store::ProfileStore;
use std::alloc::Global;
use std::marker::Model;
use table_store::TableStore;
use undo_vec::UndoVec;

/// A plane with the counts that are kept of it. A change that finds no memory may be made in part, and then the counts are
/// not those of the plane until it is undone.
#[derive(Drop)]
pub(crate) struct Parts {
    pub(crate) config: Shared<Config>,
    pub(crate) store: TableStore,
    pub(crate) profiles: ProfileStore,
    pub(crate) changed: UndoVec<DefaultAction>,
    pub(crate) digests: UndoVec<DigestEntry>,
    pub(crate) multicast: UndoVec<MulticastGroup>,
    pub(crate) cells: u32,
    /// How many rows all that is written takes.
    pub(crate) rows: u64,
    /// How many rows it took before.
    pub(crate) former_rows: u64,
}

impl Model for Parts {
    ghost use Rattle.plane_state.specs.Versions.{CountedVersions, counted_of, AreListed};
    ghost use Rattle.bm_expr.specs.TreeCode.{number_code, truth_code};
    ghost use Rattle.std.specs.Coded.{codes};

    ghost coded = { Prim.hlevel (codes, number_code, truth_code) };

    ghost Value = { CountedVersions };

    ghost view = { λ p. record {
      now = counted_of p.config p.store.entries p.changed.items p.profiles.now p.digests.items p.multicast.items p.cells p.rows;
      before = counted_of p.config p.store.before p.changed.before p.profiles.before p.digests.before p.multicast.before p.cells p.former_rows;
    } };

    ghost invariant = { λ p. AreListed (record {
      now = counted_of p.config p.store.entries p.changed.items p.profiles.now p.digests.items p.multicast.items p.cells p.rows;
      before = counted_of p.config p.store.before p.changed.before p.profiles.before p.digests.before p.multicast.before p.cells p.former_rows;
    }) };
}

/// What a change draws: sequence numbers, and slots of counters.
#[derive(Clone, Copy)]
pub struct Drawn {
    pub numbers: u64,
    pub slots: u32,
}

pub(crate) const NOTHING: Drawn = Drawn {
    numbers: 0,
    slots: 0,
};

/// So many rows more; refused only where they have no place in the count, since no memory holds so many.
pub(crate) fn more(rows: u64, taken: u64) -> Result<u64, NoMemory>
    ensures sum { IfOk result (λ sum. sum ≡ rows + taken) }
    ensures refused { IfErr result (λ _. 2 ^ 64 ≤ rows + taken) }
{
    rows.checked_add(taken).ok_or(NoMemory)
}

impl Parts {
    /// The parts of a plane of a configuration with nothing written. It takes no memory.
    pub(crate) fn open(alloc: Global, config: Shared<Config>, cells: u32) -> Parts
        ensures now { result.now ≡ record { plane = made_plane cells config; uses = no_rows; rows = 0 } }
        ensures before { result.before ≡ record { plane = made_plane cells config; uses = no_rows; rows = 0 } }
    {
        Parts {
            config,
            store: TableStore::open(alloc),
            profiles: ProfileStore::open(alloc),
            changed: UndoVec::new(alloc),
            digests: UndoVec::new(alloc),
            multicast: UndoVec::new(alloc),
            cells,
            rows: 0,
            former_rows: 0,
        }
    }

    /// Changes the default action of a table; none restores the program's.
    pub(crate) fn set_default(
        &mut self,
        table: u32,
        action: &Option<ActionCall>,
    ) -> Result<Drawn, Refusal<Cause>>
        requires counted { IsCounted self.old.now }
        ensures refused { Refuses result None }
        ensures ok { OnOk result (self.new.now.plane ≡ record self.old.now.plane { changed = with_default table action.now self.old.now.plane.changed }) }
        ensures drawn { IfOk result (λ drawn. drawn ≡ record { numbers = 0; slots = 0 }) }
        ensures counted { WithMemory result (IsCounted self.new.now) }
        ensures before { self.new.before ≡ self.old.before }
    {
        let action = match action {
            Some(call) => Some(call.copy()),
            None => None,
        };
        defaults::set(&mut self.changed, table, action)?;
        Ok(NOTHING)
    }

    /// Keeps all changes: they can no longer be undone. It takes no memory.
    pub(crate) fn keep(&mut self)
        ensures now { self.new.now ≡ self.old.now }
        ensures before { self.new.before ≡ self.old.now }
    {
        self.store.keep();
        self.profiles.keep();
        self.changed.settle();
        self.digests.settle();
        self.multicast.settle();
        if self.former_rows != self.rows {
            self.former_rows = self.rows;
        }
    }

    /// Undoes all changes. It takes no memory.
    pub(crate) fn undo(&mut self)
        ensures now { self.new.now ≡ self.old.before }
        ensures before { self.new.before ≡ self.old.before }
    {
        self.store.undo();
        self.profiles.undo();
        self.changed.undo();
        self.digests.undo();
        self.multicast.undo();
        self.rows = self.former_rows;
    }
}
