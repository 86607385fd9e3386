//! What was told of the published list.
ghost use Rattle.std.specs.Prelude.{◌≡◌, ◌⊎◌, ◌-◌, ◌^◌, ◌<◌, [], ◌∷◌, length, MatchBool};
ghost use Rattle.plane_spec.specs.Legal.{May, Legal};
ghost use Rattle.plane_spec.specs.Planes.{opened, applied};
ghost use Rattle.pub_snap.specs.Beginnings.{Begins, IsLonger, with_events};

use crate::listed::{Led, Listed};
use event_log::EventLog;
use p4_types::events::{Event, Start};
use plane_state::Config;
use std::marker::Model;
use std::sync::Wait;

pub(crate) type Log = EventLog<Listed, Led>;

/// Events with which the published list begins, and will begin for good. It goes from thread to thread.
pub struct Told {
    known: event_log::Told<Listed, Led>,
}

// Written out, so that those who let one go need not look into it.
impl Drop for Told {
    fn drop(self) {
        let Self { known: _known } = self;
    }
}

impl Model for Told {
    ghost use Rattle.pub_snap.specs.Beginnings.{Beginning, beginning_of};
    ghost use Rattle.pub_snap.specs.Listing.{IsListing};
    ghost use Rattle.bm_expr.specs.TreeCode.{number_code, truth_code};
    ghost use Rattle.std.specs.Coded.{codes};

    ghost coded = { Prim.hlevel (codes, number_code, truth_code) };

    ghost Value = { Beginning };

    ghost view = { λ t. beginning_of t.known };

    ghost invariant = { λ t. IsListing t.known.events };
}

/// A list of the start alone.
pub(crate) fn begun<R: Wait>(rt: &R, start: &Start) -> (Log, Told)
    ensures log { result.0 ≡ result.1.list }
    ensures start { result.1.start ≡ start.now }
    ensures events { result.1.events ≡ [] }
{
    let (log, mut known) = event_log::open::<Listed, Led>();
    known.add(rt, &log, &Listed::Open(*start));
    (log, Told { known })
}

impl Told {
    /// How many events it has. They are legal after its start.
    pub fn len(&self) -> u64
        ensures length { result ≡ length self.now.events }
        ensures legal { Legal (opened self.now.start) self.now.events }
    {
        self.known.len() - 1
    }

    /// A copy.
    pub fn again(&self) -> Told
        ensures { result ≡ self.now }
    {
        Told {
            known: self.known.again(),
        }
    }

    /// Says whether the other begins with all that this one has. If not, this one begins with all that the other has, and has more.
    pub fn begins(&self, other: &Told) -> bool
        requires { other.now.list ≡ self.now.list }
        ensures { MatchBool result (Begins self.now other.now) (IsLonger other.now self.now) }
    {
        self.known.begins(&other.known)
    }

    /// Takes over what the other has, if that is more. Then it begins with all that either had.
    pub fn learn(&mut self, other: &Told)
        requires { other.now.list ≡ self.old.list }
        ensures one { (self.new ≡ self.old) ⊎ (self.new ≡ other.now) }
        ensures own { Begins self.old self.new }
        ensures learnt { Begins other.now self.new }
    {
        if !other.begins(self) {
            *self = other.again();
        }
    }

    /// Lets the list go on by an event, which is handed back. It waits for good where the list went on without it.
    pub(crate) fn add<R: Wait>(&mut self, rt: &R, log: &Log, event: Event<Config>) -> Event<Config>
        requires log { log.now ≡ self.old.list }
        requires room { length self.old.events < 2 ^ 64 - 2 }
        requires may { May (applied (opened self.old.start) self.old.events) event }
        ensures told { self.new ≡ with_events self.old (event ∷ []) }
        ensures event { result ≡ event }
    {
        let listed = Listed::Made(event);
        self.known.add(rt, log, &listed);
        match listed {
            Listed::Made(event) => event,
            Listed::Open(_) => unreachable!(),
        }
    }
}
