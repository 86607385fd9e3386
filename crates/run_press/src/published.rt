//! The events of a run, in their order.
ghost use Rattle.std.specs.Prelude.{◌≡◌, ◌≤◌, ◌<◌, ◌-◌, ◌^◌, [], ◌∷◌, ◌++◌, length, IfOk, IfSome, IsTrue, drop};
ghost use Rattle.std.specs.List.{filter_map};
ghost use Rattle.event_log.specs.Ruling.{length_word};
ghost use Rattle.plane_spec.specs.Planes.{opened};
ghost use Rattle.switch_spec.specs.History.{step_of};

use crate::ruling::{Adds, Law, Nothing};
use crate::steps::{kinds_of, steps_in};
use ctl_core::Press;
use list_types::{List, NoMemory};
use logbook::{Offer, Seen, Word};
use p4_types::events::{Event, Start};
use p4_types::journal::Step;
use plane_state::Config;
use std::alloc::Global;
use std::marker::Model;

// The length of the list of events, and with which events it begins.
type Length = Word<Event<Config>, u64, Law>;

type Begun = Seen<Event<Config>, u64, Law>;

/// The events that were handed on since the start. They exist in the proofs alone: what is kept of each is the step that it
/// is, so that no event keeps its configuration.
#[derive(Drop)]
pub struct Published {
    alloc: Global,
    start: Start,
    length: Length,
    begun: Begun,
    kinds: Vec<Option<Step>>,
}

impl Model for Published {
    ghost use Rattle.std.specs.Prelude.{◌≡◌, map};
    ghost use Rattle.event_log.specs.Ruling.{length_word};
    ghost use Rattle.run_press.specs.Given.{Given};
    ghost use Rattle.switch_spec.specs.History.{step_of};
    ghost use Rattle.bm_expr.specs.TreeCode.{number_code, truth_code};
    ghost use Rattle.std.specs.Coded.{codes};

    ghost coded = { Prim.hlevel (codes, number_code, truth_code) };

    ghost Value = { Given };

    ghost view = { λ p. record { start = p.start; events = p.begun.log } };

    ghost invariant = { λ p. (p.length ≡ length_word p.begun.book) × (p.kinds.items ≡ map step_of p.begun.log) };
}

// Adds an event to the list, which has so many, and says whether it did.
fn add(word: &Length, begun: &mut Begun, count: u64, event: &Event<Config>) -> bool
    requires word { word.now ≡ length_word begun.old.book }
    requires count { count ≡ length begun.old.log }
    requires room { count < 2 ^ 64 - 1 }
    ensures book { begun.new.book ≡ begun.old.book }
    ensures added { IsTrue result → begun.new.log ≡ begun.old.log ++ event.now ∷ [] }
{
    let mut offer: Offer<Event<Config>, u64, Law, Nothing> = begun.plain::<
        Nothing,
        Event<Config>,
        Adds,
    >(event);
    let mut pen = begun.no_pen();
    word.compare_exchange::<Adds, Nothing>(count, count + 1, begun, &mut offer, &mut pen) == count
}

// With what the list begins once it has these events more, if it takes them.
fn with_all(word: &Length, begun: &Begun, count: u64, events: &[Event<Config>]) -> Option<Begun>
    requires word { word.now ≡ length_word begun.now.book }
    requires count { count ≡ length begun.now.log }
    ensures book { IfSome result (λ more. more.book ≡ begun.now.book) }
    ensures events { IfSome result (λ more. more.log ≡ begun.now.log ++ events.now) }
{
    let mut more = begun.again();
    let mut count = count;
    for event in events {
        if count == u64::MAX || !add(word, &mut more, count, event) {
            return None;
        }
        count += 1;
    }
    Some(more)
}

impl Press for Published {
    ghost given = { λ p. p.events };

    ghost opening = { λ p. opened p.start };

    fn push(&mut self, events: List<Event<Config>>) -> Result<(), List<Event<Config>>> {
        let Ok(mut kinds) = kinds_of(self.alloc, events.as_slice()) else {
            return Err(events);
        };
        if self.kinds.reserve(kinds.len()).is_err() {
            return Err(events);
        }
        let count = self.kinds.len() as u64;
        let Some(begun) = with_all(&self.length, &self.begun, count, events.as_slice()) else {
            return Err(events);
        };
        match self.kinds.append(&mut kinds) {
            Ok(()) => {
                self.begun = begun;
                Ok(())
            }
            Err(_) => Err(events),
        }
    }
}

impl Published {
    /// Nothing is handed on yet. It takes no memory.
    pub fn open(alloc: Global, start: Start) -> Published
        ensures start { result.start ≡ start }
        ensures nothing { result.events ≡ [] }
    {
        let (begun, mut first, _second) = Seen::open(logbook::Start::alone(), 0, 0);
        Published {
            alloc,
            start,
            length: Word::tracked(0, &mut first),
            begun,
            kinds: Vec::new(alloc),
        }
    }

    /// How many events were handed on.
    pub fn len(&self) -> usize
        ensures { result ≡ length self.now.events }
    {
        self.kinds.len()
    }

    /// The steps that the events behind the first so many are.
    pub fn steps_after(&self, alloc: Global, before: usize) -> Result<List<Step>, NoMemory>
        requires { before ≤ length self.now.events }
        ensures { IfOk result (λ steps. steps ≡ filter_map step_of (drop before self.now.events)) }
    {
        steps_in(alloc, &self.kinds[before..])
    }
}
