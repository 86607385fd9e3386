//! The published list, as calls let it go on.
ghost use Rattle.std.specs.Prelude.{◌≡◌, ◌<◌, ◌≤◌, ◌^◌, ◌++◌, [], length, drop, IfOk};
ghost use Rattle.plane_spec.specs.Planes.{opened};
ghost use Rattle.pub_snap.specs.Snapshots.{all_of};
ghost use Rattle.switch_spec.specs.History.{steps_of};

use crate::naming::Naming;
use ctl_core::Press;
use list_types::{List, NoMemory};
use p4_types::events::Event;
use p4_types::journal::Step;
use plane_state::Config;
use pub_snap::{Publisher, Told};
use run_press::{kinds_of, steps_in};
use std::alloc::Global;
use std::marker::{Model, PhantomData};
use std::sync::Wait;
use std::thread::yield_now;

/// The publisher of a run's list, beside the step that each of its events is.
pub struct Line<J: Naming, R: Wait + Drop> {
    alloc: Global,
    publisher: Publisher<R>,
    kinds: Vec<Option<Step>>,
    of: PhantomData<J>,
}

// Written out, so that those who let one go need not look into it.
impl<J: Naming, R: Wait + Drop> Drop for Line<J, R> {
    fn drop(self) {
        let Self {
            alloc: _,
            publisher: _publisher,
            kinds: _kinds,
            of: _,
        } = self;
    }
}

impl<J: Naming, R: Wait + Drop> Model for Line<J, R> {
    ghost use Rattle.std.specs.Prelude.{◌≡◌, map};
    ghost use Rattle.pub_snap.specs.Snapshots.{Feed, all_of};
    ghost use Rattle.switch_spec.specs.History.{step_of};
    ghost use Rattle.bm_expr.specs.TreeCode.{number_code, truth_code};
    ghost use Rattle.std.specs.Coded.{codes};

    ghost coded = { Prim.hlevel (codes, number_code, truth_code) };

    ghost Value = { Feed };

    ghost view = { λ l. l.publisher };

    ghost invariant = { λ l.
        (l.publisher.told.list ≡ J.list)
        × (l.publisher.told.start ≡ J.start)
        × (l.kinds.items ≡ map step_of (all_of l.publisher)) };
}

impl<J: Naming, R: Wait + Drop> Press for Line<J, R> {
    ghost given = { λ l. all_of l };

    ghost opening = { λ l. opened J.start };

    fn push(&mut self, events: List<Event<Config>>) -> Result<(), List<Event<Config>>> {
        let Ok(mut kinds) = kinds_of(self.alloc, events.as_slice()) else {
            return Err(events);
        };
        let before = self.kinds.len();
        if self.kinds.append(&mut kinds).is_err() {
            return Err(events);
        }
        match self.publisher.push(events) {
            Ok(()) => Ok(()),
            Err((events, _)) => {
                self.kinds.truncate(before);
                Err(events)
            }
        }
    }
}

impl<J: Naming, R: Wait + Drop> Line<J, R> {
    /// A list of which nothing is published.
    pub fn new(alloc: Global, publisher: Publisher<R>) -> Line<J, R>
        requires list { publisher.told.list ≡ J.list }
        requires start { publisher.told.start ≡ J.start }
        requires nothing { all_of publisher ≡ [] }
        ensures { result ≡ publisher }
    {
        Line {
            alloc,
            publisher,
            kinds: Vec::new(alloc),
            of: PhantomData,
        }
    }

    /// How many events the list has, with those that are pending.
    pub fn len(&self) -> usize
        ensures { result ≡ length (all_of self.now) }
    {
        self.kinds.len()
    }

    // The steps that the events behind the first so many are.
    fn try_steps(&self, before: usize) -> Result<List<Step>, NoMemory>
        requires { before ≤ length (all_of self.now) }
        ensures steps { IfOk result (λ steps. steps ≡ steps_of (drop before (all_of self.now))) }
        ensures few { length (all_of self.now) < 2 ^ 64 }
    {
        let _events = self.kinds.len();
        steps_in(self.alloc, &self.kinds[before..])
    }

    /// The same. It asks again where there is no memory.
    pub fn steps_after<W: Wait>(&self, rt: &W, before: usize) -> List<Step>
        requires { before ≤ length (all_of self.now) }
        ensures steps { result ≡ steps_of (drop before (all_of self.now)) }
        ensures few { length (all_of self.now) < 2 ^ 64 }
    {
        for _ in rt.forever() {
            if let Ok(steps) = self.try_steps(before) {
                return steps;
            }
            yield_now();
        }
        unreachable!()
    }

    /// Publishes what is pending.
    pub fn publish(&mut self)
        ensures told { self.new.told.events ≡ all_of self.old }
        ensures pending { self.new.pending ≡ [] }
    {
        self.publisher.publish();
    }

    /// What is published.
    pub fn tell(&self) -> Told
        ensures told { result ≡ self.now.told }
        ensures list { result.list ≡ J.list }
        ensures start { result.start ≡ J.start }
    {
        self.publisher.tell()
    }
}
