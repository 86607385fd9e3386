//! Where the control of the switch hands its events.
ghost use Rattle.std.specs.Prelude as spec;
ghost use Rattle.std.specs.Prelude.{◌≡◌, ◌++◌, OnOk, OnErr, IfErr};
ghost use Rattle.plane_spec.specs.Config as config;
ghost use Rattle.plane_spec.specs.Legal.{Legal};
ghost use Rattle.plane_spec.specs.Planes as planes;
ghost use Rattle.plane_spec.specs.Planes.{applied};

use list_types::List;
use p4_types::events::Event;
use plane_state::Config;

/// What takes events. It is seen as the list that it was given, and the control state before that list.
pub trait Press {
    ghost given: { Self → spec.List config.Event };

    ghost opening: { Self → planes.ControlState };

    /// Adds all of the events, or gives them back where there is no memory or no room for them.
    fn push(&mut self, events: List<Event<Config>>) -> Result<(), List<Event<Config>>>
        requires { Legal (applied (opening self.old) (given self.old)) events }
        ensures opening { opening self.new ≡ opening self.old }
        ensures added { OnOk result (given self.new ≡ given self.old ++ events) }
        ensures kept { OnErr result (given self.new ≡ given self.old) }
        ensures given_back { IfErr result (λ given_back. given_back ≡ events) };
}
