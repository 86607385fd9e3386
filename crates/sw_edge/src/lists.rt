// A clock over a list, and a gate that is always open.
ghost use Rattle.std.specs.Prelude.{◌≡◌, ◌≤◌, drop, length, max, slice_index};
ghost use Rattle.sw_edge.specs.Memory.{HeldClock};

use crate::{Clock, Gate, Who};
use std::marker::Model;

/// A clock that tells the moments of a list, in nanoseconds, and then its last one again. A moment below
/// the one before it is told as that one.
#[derive(Drop)]
pub struct ListClock {
    moments: Vec<u64>,
    at: usize,
    last: u64,
}

impl Model for ListClock {
    ghost Value = { HeldClock };

    ghost view = { λ c. record { coming = drop c.at c.moments.items; last = c.last } };

    ghost invariant = { λ c. c.at ≤ length c.moments.items };
}

impl ListClock {
    /// A clock that tells these moments in order, and then the last one again; 0 where there is none. In nanoseconds.
    pub fn new(moments: Vec<u64>) -> ListClock
        ensures { result ≡ record { coming = moments.items; last = 0 } }
    {
        ListClock {
            moments,
            at: 0,
            last: 0,
        }
    }
}

impl Clock for ListClock {
    ghost last = { λ c. c.last };

    fn now(&mut self) -> u64
        ensures later { self.old.last ≤ self.new.last }
        ensures told { result ≡ self.new.last }
        ensures next { result ≡ max self.old.last (slice_index self.old.coming 0) }
        ensures coming { self.new.coming ≡ drop 1 self.old.coming }
    {
        if self.at < self.moments.len() {
            self.last = self.last.max(self.moments[self.at]);
            self.at += 1;
        }
        self.last
    }
}

/// A gate that holds up nobody.
#[derive(Clone, Copy)]
pub struct OpenGate;

impl Gate for OpenGate {
    fn turn(&self, _who: Who, _index: u32) {}
}
