//! The rule of the list of events: its word is its length, and any event may follow, since which may follow another is for the
//! caller of a press to show.
use logbook::{Gain, Plain, Play, Rule};
use p4_types::events::Event;
use plane_state::Config;

pub struct Law;

impl Rule<Event<Config>, u64> for Law {
    ghost use Rattle.std.specs.Prelude.{[]};
    ghost use base.Fml.{ftrue};
    ghost use Rattle.run_press.specs.Lists.{IsKept};

    ghost holds = { IsKept };

    ghost first = { [] };

    ghost hinted = { λ n log. Unit {0} };

    ghost shows = { λ log. [] };

    ghost keeps = { λ names log. ftrue };

    ghost moves = { λ ask before after answer. Unit {0} };
}

// Nothing is traded for an event.
pub struct Nothing;

impl Gain<Event<Config>, u64> for Nothing {
    ghost use base.Fml.{ftrue};

    ghost after = { λ names about answer. ftrue };
}

// A step that adds an event.
pub struct Adds;

impl Play<Event<Config>, u64> for Adds {
    ghost use Rattle.run_press.specs.Lists.{Added};

    ghost then = { Added };
}

impl Plain<Event<Config>, Event<Config>, u64> for Adds {
    ghost use Rattle.std.specs.Prelude.{None};

    ghost ask = { λ event. event };

    ghost state = { λ event. None };
}
