//! The published list, as calls let it go on.
ghost use Rattle.std.specs.Prelude.{◌≡◌, ◌≤◌, ◌-◌, ◌^◌, [], length};
ghost use Rattle.plane_spec.specs.Legal.{Legal};
ghost use Rattle.plane_spec.specs.Planes.{opened};
ghost use Rattle.pub_snap.specs.Snapshots.{all_of};

use crate::naming::Naming;
use ctl_core::Press;
use list_types::List;
use p4_types::events::Event;
use plane_state::Config;
use pub_snap::{Publisher, Told};
use std::marker::{Model, PhantomData};
use std::sync::Wait;

/// The publisher of a desk's list.
pub struct Line<J: Naming, R: Wait + Drop> {
    publisher: Publisher<R>,
    of: PhantomData<J>,
}

// Written out, so that those who let one go need not look into it.
impl<J: Naming, R: Wait + Drop> Drop for Line<J, R> {
    fn drop(self) {
        let Self {
            publisher: _publisher,
            of: _,
        } = self;
    }
}

impl<J: Naming, R: Wait + Drop> Model for Line<J, R> {
    ghost use Rattle.std.specs.Prelude.{◌≡◌};
    ghost use Rattle.pub_snap.specs.Snapshots.{Feed};
    ghost use Rattle.bm_expr.specs.TreeCode.{number_code, truth_code};
    ghost use Rattle.std.specs.Coded.{codes};

    ghost coded = { Prim.hlevel (codes, number_code, truth_code) };

    ghost Value = { Feed };

    ghost view = { λ l. l.publisher };

    ghost invariant = { λ l. (l.publisher.told.list ≡ J.list) × (l.publisher.told.start ≡ J.start) };
}

impl<J: Naming, R: Wait + Drop> Press for Line<J, R> {
    ghost given = { λ l. all_of l };

    ghost opening = { λ l. opened J.start };

    fn push(&mut self, events: List<Event<Config>>) -> Result<(), List<Event<Config>>> {
        match self.publisher.push(events) {
            Ok(()) => Ok(()),
            Err((events, _)) => Err(events),
        }
    }
}

impl<J: Naming, R: Wait + Drop> Line<J, R> {
    /// A list, of which so much is published.
    pub fn new(publisher: Publisher<R>) -> Line<J, R>
        requires list { publisher.told.list ≡ J.list }
        requires start { publisher.told.start ≡ J.start }
        ensures { result ≡ publisher }
    {
        Line {
            publisher,
            of: PhantomData,
        }
    }

    /// Publishes what is pending.
    pub fn publish(&mut self)
        ensures told { self.new.told.events ≡ all_of self.old }
        ensures list { self.new.told.list ≡ J.list }
        ensures start { self.new.told.start ≡ J.start }
        ensures pending { self.new.pending ≡ [] }
    {
        self.publisher.publish();
    }

    /// What is published. Its events are legal, and so few that they can be counted.
    pub fn tell(&self) -> Told
        ensures told { result ≡ self.now.told }
        ensures list { result.list ≡ J.list }
        ensures start { result.start ≡ J.start }
        ensures legal { Legal (opened J.start) result.events }
        ensures few { length result.events ≤ 2 ^ 64 - 1 }
    {
        let told = self.publisher.tell();
        let _events = told.len();
        told
    }
}
