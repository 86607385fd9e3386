//! A call that a worker waited for.
ghost use Rattle.std.specs.Prelude.{◌≡◌};

use crate::naming::Naming;
use crate::signed::Signed;
use lane_table::Note;
use pub_snap::Told;
use std::marker::{Model, PhantomData};

/// A call of a controller's lane that was made, what was published then, and a note that the journal has it.
pub struct Met<J: Naming> {
    pub(crate) lane: u16,
    pub(crate) call: u32,
    pub(crate) told: Told,
    pub(crate) note: Note<Signed>,
    pub(crate) of: PhantomData<J>,
}

// Written out, so that those who let one go need not look into it.
impl<J: Naming> Drop for Met<J> {
    fn drop(self) {
        let Self {
            lane: _,
            call: _,
            told: _told,
            note: _note,
            of: _,
        } = self;
    }
}

impl<J: Naming> Model for Met<J> {
    ghost use Rattle.std.specs.Prelude.{◌≡◌};
    ghost use Rattle.ctl_lock.specs.Finishing.{Meeting, IsMet};
    ghost use Rattle.bm_expr.specs.TreeCode.{number_code, truth_code};
    ghost use Rattle.std.specs.Coded.{codes};

    ghost coded = { Prim.hlevel (codes, number_code, truth_code) };

    ghost Value = { Meeting };

    ghost view = { λ m. record { lane = m.lane; call = m.call; told = m.told } };

    ghost invariant = { λ m.
        (m.note.table ≡ J.table)
        × (m.told.list ≡ J.list)
        × (m.told.start ≡ J.start)
        × IsMet m.lane m.call m.note.entries m.told };
}

impl<J: Naming> Met<J> {
    /// What was published when the call was found made: the list through it, at least.
    pub fn told(&self) -> &Told
        ensures told { result.now ≡ self.now.told }
        ensures list { result.now.list ≡ J.list }
        ensures start { result.now.start ≡ J.start }
    {
        &self.told
    }
}
