//! The clocks of threads.
ghost use Rattle.std.specs.Prelude.{◌≡◌, ◌≤◌};

use std::sync::{Mutex, Wait};
use sw_edge::Clock;

/// A clock that is lent for as long as a switch serves.
#[derive(Drop)]
pub(crate) struct LentClock<'a, K: Clock> {
    clock: &'a mut K,
}

impl<'a, K: Clock> LentClock<'a, K> {
    pub(crate) fn new(clock: &'a mut K) -> LentClock<'a, K> {
        LentClock { clock }
    }
}

impl<'a, K: Clock> Clock for LentClock<'a, K> {
    ghost last = { λ c. K.last c.clock.now };

    fn now(&mut self) -> u64 {
        self.clock.now()
    }
}

/// The clock of one thread, over the one that all threads share. Each tells moments of its own that do not go back.
#[derive(Drop)]
pub(crate) struct ThreadClock<'v, C: Clock, W> {
    rt: &'v W,
    shared: &'v Mutex<C>,
    last: u64,
}

impl<'v, C: Clock, W: Wait> ThreadClock<'v, C, W> {
    pub(crate) fn new(rt: &'v W, shared: &'v Mutex<C>) -> ThreadClock<'v, C, W> {
        ThreadClock {
            rt,
            shared,
            last: 0,
        }
    }
}

impl<'v, C: Clock, W: Wait> Clock for ThreadClock<'v, C, W> {
    ghost last = { λ c. c.last };

    fn now(&mut self) -> u64 {
        let told = self.shared.lock(self.rt).now();
        self.last = self.last.max(told);
        self.last
    }
}
