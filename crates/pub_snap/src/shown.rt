//! What viewers are shown, and how it changes.
use crate::told::Told;
use left_right::Absorb;
use p4_types::events::Event;
use plane_image::Image;
use plane_state::Config;
use std::alloc::{AllocError, Global};
use std::marker::Model;

/// An image, and what it is after.
#[derive(Drop)]
pub struct Shown {
    pub image: Image,
    pub told: Told,
}

impl Model for Shown {
    ghost use Rattle.std.specs.Prelude.{◌≡◌};
    ghost use Rattle.pub_snap.specs.Snapshots.{Snapshot};
    ghost use Rattle.bm_expr.specs.TreeCode.{number_code, truth_code};
    ghost use Rattle.std.specs.Coded.{codes};

    ghost coded = { Prim.hlevel (codes, number_code, truth_code) };

    ghost Value = { Snapshot };

    ghost view = { λ s. record { image = s.image; told = s.told } };

    ghost invariant = { λ s. s.image.before ≡ s.image.now };
}

/// An event, and what the list begins with after it.
#[derive(Drop)]
pub struct Shifting {
    pub event: Event<Config>,
    pub after: Told,
    pub alloc: Global,
}

impl Model for Shifting {
    ghost use Rattle.pub_snap.specs.Snapshots.{Shift};
    ghost use Rattle.bm_expr.specs.TreeCode.{number_code, truth_code};
    ghost use Rattle.std.specs.Coded.{codes};

    ghost coded = { Prim.hlevel (codes, number_code, truth_code) };

    ghost Value = { Shift };

    ghost view = { λ s. record { event = s.event; after = s.after } };
}

impl Absorb<Shifting> for Shown {
    ghost use Rattle.pub_snap.specs.Snapshots.{shifted};

    type State = Shown;

    ghost state = { λ s. s };

    ghost applied = { shifted };

    fn absorb_first(&mut self, operation: &Shifting, _other: &Shown) -> Result<(), AllocError> {
        match self.image.take(operation.alloc, &operation.event) {
            Ok(()) => {
                self.told = operation.after.again();
                Ok(())
            }
            Err(_) => Err(AllocError),
        }
    }
}
