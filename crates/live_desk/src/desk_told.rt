//! What was told at a desk.
ghost use Rattle.std.specs.Prelude.{◌≡◌};

use crate::naming::Naming;
use mail_room::Again;
use pub_snap::Told;
use std::marker::{Model, PhantomData};

/// A beginning of the published list of the desk.
pub struct DeskTold<J: Naming> {
    told: Told,
    of: PhantomData<J>,
}

// Written out, so that those who let one go need not look into it.
impl<J: Naming> Drop for DeskTold<J> {
    fn drop(self) {
        let Self { told: _told, of: _ } = self;
    }
}

impl<J: Naming> Model for DeskTold<J> {
    ghost use Rattle.std.specs.Prelude.{◌≡◌};
    ghost use Rattle.pub_snap.specs.Beginnings.{Beginning};
    ghost use Rattle.bm_expr.specs.TreeCode.{number_code, truth_code};
    ghost use Rattle.std.specs.Coded.{codes};

    ghost coded = { Prim.hlevel (codes, number_code, truth_code) };

    ghost Value = { Beginning };

    ghost view = { λ d. d.told };

    ghost invariant = { λ d. (d.told.list ≡ J.list) × (d.told.start ≡ J.start) };
}

impl<J: Naming> DeskTold<J> {
    /// What was told of the list of the desk.
    pub fn new(told: Told) -> DeskTold<J>
        requires list { told.list ≡ J.list }
        requires start { told.start ≡ J.start }
        ensures { result ≡ told }
    {
        DeskTold {
            told,
            of: PhantomData,
        }
    }

    /// The same, for viewers and workers.
    pub fn as_told(&self) -> &Told
        ensures told { result.now ≡ self.now }
        ensures list { result.now.list ≡ J.list }
        ensures start { result.now.start ≡ J.start }
    {
        &self.told
    }
}

impl<J: Naming> Again for DeskTold<J> {
    fn again(&self) -> DeskTold<J> {
        DeskTold {
            told: self.told.again(),
            of: PhantomData,
        }
    }
}
