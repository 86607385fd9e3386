//! The machine of the published list.
use event_log::Machine;
use p4_types::events::{Event, Start};
use plane_state::Config;
use std::marker::{Model, PhantomData};

/// What stands in the list: first the start of the switch, then events.
#[derive(Drop)]
pub enum Listed {
    Open(Start),
    Made(Event<Config>),
}

/// The control state that a list leads to; before its first there is none. No value of it is made.
pub struct Led {
    marker: PhantomData<()>,
}

impl Model for Led {
    ghost use Rattle.std.specs.Prelude.{Option, None};
    ghost use Rattle.plane_spec.specs.Planes.{ControlState};
    ghost use Rattle.bm_expr.specs.TreeCode.{number_code, truth_code};
    ghost use Rattle.std.specs.Coded.{codes};

    ghost coded = { Prim.hlevel (codes, number_code, truth_code) };

    ghost Value = { Option ControlState };

    ghost view = { λ _. None };
}

impl Machine<Listed> for Led {
    ghost use Rattle.std.specs.Prelude.{None};
    ghost use Rattle.pub_snap.specs.Listing.{listed, MayList};

    ghost start = { None };

    ghost applied = { listed };

    ghost may = { MayList };
}
