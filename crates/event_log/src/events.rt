//! The list's one word, and the rule that each step of it keeps.
use crate::machine::Machine;
use logbook::{Gain, Plain, Play, Rule, Word};
use std::marker::{Model, PhantomData};

// The rule of the list: the word is its length, and the list is legal.
pub struct Law<M> {
    marker: PhantomData<M>,
}

impl<E, M: Machine<E>> Rule<E, u64> for Law<M> {
    ghost use Rattle.std.specs.Prelude.{[]};
    ghost use base.Fml.{ftrue};
    ghost use Rattle.event_log.specs.Ruling.{IsKept};

    ghost holds = { IsKept M.start M.applied M.may };

    ghost first = { [] };

    ghost hinted = { λ n log. Unit {0} };

    ghost shows = { λ log. [] };

    ghost keeps = { λ names log. ftrue };

    ghost moves = { λ ask before after answer. Unit {0} };
}

// Nothing is traded for an event.
pub struct Nothing;

impl<E> Gain<E, u64> for Nothing {
    ghost use base.Fml.{ftrue};

    ghost after = { λ names about answer. ftrue };
}

// A step that adds an event.
pub struct Adds<M> {
    marker: PhantomData<M>,
}

impl<E, M: Machine<E>> Play<E, u64> for Adds<M> {
    ghost use Rattle.event_log.specs.Ruling.{Added};

    ghost then = { Added M.start M.applied M.may };
}

impl<E, M: Machine<E>> Plain<E, E, u64> for Adds<M> {
    ghost use Rattle.std.specs.Prelude.{None};

    ghost ask = { λ event. event };

    ghost state = { λ event. None };
}

/// The one word of a list: how many events it has. To a contract it is the list's name.
#[derive(Drop)]
pub struct EventLog<E, M: Machine<E>> {
    pub(crate) length: Word<E, u64, Law<M>>,
}

impl<E, M: Machine<E>> Model for EventLog<E, M> {
    ghost use Rattle.std.specs.Prelude.{◌≡◌};
    ghost use Rattle.event_log.specs.Lists.{ListName};
    ghost use Rattle.event_log.specs.Ruling.{length_word};

    ghost Value = { ListName };

    ghost view = { λ log. log.length.book };

    ghost invariant = { λ log. log.length ≡ length_word log.length.book };
}
