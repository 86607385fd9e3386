//! What was told of a list: the events with which it begins.
ghost use Rattle.std.specs.Prelude.{◌≡◌, ◌⊎◌, ◌-◌, ◌^◌, ◌<◌, length, MatchBool};
ghost use Rattle.event_log.specs.Legal.{after, IsLegal};
ghost use Rattle.event_log.specs.Lists.{nothing_of, with_event, Begins, IsLonger};

use crate::events::{Adds, EventLog, Law, Nothing};
use crate::machine::Machine;
use logbook::{Offer, Seen, Start, Word};
use std::marker::Model;
use std::sync::Wait;

/// Events with which a list begins, and will begin for good. It can be copied and goes from thread to thread.
#[derive(Drop)]
pub struct Told<E, M: Machine<E>> {
    count: u64,
    seen: Seen<E, u64, Law<M>>,
}

impl<E, M: Machine<E>> Model for Told<E, M> {
    ghost use Rattle.std.specs.Prelude.{◌≡◌, length};
    ghost use Rattle.event_log.specs.Legal.{IsLegal};
    ghost use Rattle.event_log.specs.Lists.{Known};

    ghost Value = { Known E };

    ghost view = { λ t. record { list = t.seen.book; events = t.seen.log } };

    ghost invariant = { λ t. (t.count ≡ length t.seen.log) × IsLegal M.applied M.may M.start t.seen.log };
}

/// A list with no event yet. It takes no memory, and no other call does.
pub fn open<E, M: Machine<E>>() -> (EventLog<E, M>, Told<E, M>)
    ensures { result.1 ≡ nothing_of result.0 }
{
    let (seen, mut first, _second) = Seen::open(Start::alone(), 0, 0);
    (
        EventLog {
            length: Word::tracked(0, &mut first),
        },
        Told { count: 0, seen },
    )
}

// Waits for good.
fn never_returns<R: Wait>(rt: &R)
    ensures { ⊥ }
{
    for _ in rt.forever() {}
    unreachable!()
}

impl<E, M: Machine<E>> Told<E, M> {
    /// How many events it has. They are legal, each in the state after those before it.
    pub fn len(&self) -> u64
        ensures length { result ≡ length self.now.events }
        ensures legal { IsLegal M.applied M.may M.start self.now.events }
    {
        self.count
    }

    /// A copy.
    pub fn again(&self) -> Told<E, M>
        ensures { result ≡ self.now }
    {
        Told {
            count: self.count,
            seen: self.seen.again(),
        }
    }

    /// Says whether the other begins with all that this one has. If not, this one begins with all that the other has, and has more.
    pub fn begins(&self, other: &Told<E, M>) -> bool
        requires { other.now.list ≡ self.now.list }
        ensures { MatchBool result (Begins self.now other.now) (IsLonger other.now self.now) }
    {
        let mut both = self.seen.again();
        both.learn(&other.seen);
        self.count <= other.count
    }

    /// Takes over what the other has, if that is more. Then it begins with all that either had.
    pub fn learn(&mut self, other: &Told<E, M>)
        requires { other.now.list ≡ self.old.list }
        ensures one { (self.new ≡ self.old) ⊎ (self.new ≡ other.now) }
        ensures own { Begins self.old self.new }
        ensures learnt { Begins other.now self.new }
    {
        if !other.begins(self) {
            *self = other.again();
        }
    }

    /// Adds an event to the list. It waits for good where the list went on without these, so those who add to one list add to one
    /// of these, under a lock. A list has room for 2^64 - 1 events.
    pub fn add<R: Wait>(&mut self, rt: &R, log: &EventLog<E, M>, event: &E)
        requires log { log.now ≡ self.old.list }
        requires room { length self.old.events < 2 ^ 64 - 1 }
        requires may { M.may (after M.applied M.start self.old.events) event.now }
        ensures { self.new ≡ with_event self.old event.now }
    {
        let mut offer: Offer<E, u64, Law<M>, Nothing> = self
            .seen
            .plain::<Nothing, E, Adds<M>>(event);
        let mut pen = self.seen.no_pen();
        let count = self.count;
        let found = log
            .length
            .compare_exchange::<Adds<M>, Nothing>(
                count,
                count + 1,
                &mut self.seen,
                &mut offer,
                &mut pen,
            );
        if found != count {
            never_returns(rt);
        }
        self.count = count + 1;
    }
}
