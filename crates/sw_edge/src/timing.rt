// The clock, the wish to stop and the order of a replay's turns.
ghost use Rattle.std.specs.Prelude.{◌≡◌, ◌≤◌, ℕ, IsTrue};
ghost use Rattle.sw_edge.specs.Counts.{HasCause, StaysUnless};

use crate::Who;

/// A clock that never goes back.
pub trait Clock {
    /// The last moment that it told, in nanoseconds.
    ghost last: { Self → ℕ };

    /// The moment, in nanoseconds from an arbitrary start.
    fn now(&mut self) -> u64
        ensures later { last self.old ≤ last self.new }
        ensures told { result ≡ last self.new };
}

/// The wish that a loop ends.
pub trait Stop {
    /// How often the answer was yes; it stays at 2^64 - 1.
    ghost yeses: { Self → ℕ };

    /// Whether the loop is to end.
    fn asked(&mut self) -> bool
        ensures yes { HasCause (yeses self.old) (yeses self.new) (IsTrue result) }
        ensures no_yes { StaysUnless (yeses self.old) (yeses self.new) (IsTrue result) };
}

/// A place at which the lanes of a free replay may be held up, so that a test picks their order.
pub trait Gate {
    /// Called before the call or packet of this index in its lane. It may wait; nothing is claimed of it.
    fn turn(&self, who: Who, index: u32);
}
