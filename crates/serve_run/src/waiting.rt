//! The links that wait for a lane.
use std::alloc::Global;
use std::collections::VecDeque;

/// How long a link waits for a lane, in nanoseconds: 10 seconds.
pub(crate) const LANE_WAIT: u64 = 10_000_000_000;

/// How many links wait at most.
pub(crate) const MOST_WAITING: usize = 128;

/// A link that came at a moment, in nanoseconds, with the ports at which its packets are to leave.
#[derive(Drop)]
pub(crate) struct WaitingLink<L, P> {
    pub(crate) came: u64,
    pub(crate) link: L,
    pub(crate) ports: P,
}

/// The links that wait, in the order in which they came.
#[derive(Drop)]
pub(crate) struct WaitingLinks<L, P> {
    links: VecDeque<WaitingLink<L, P>>,
}

impl<L: Drop, P: Drop> WaitingLinks<L, P> {
    /// No link waits. It takes no memory.
    pub(crate) fn new(alloc: Global) -> WaitingLinks<L, P> {
        WaitingLinks {
            links: VecDeque::new(alloc),
        }
    }

    /// How many wait.
    pub(crate) fn len(&self) -> usize {
        self.links.len()
    }

    /// A link came. Where as many wait as may, or there is no memory, it is closed.
    pub(crate) fn add(&mut self, waiting: WaitingLink<L, P>) {
        if self.links.len() >= MOST_WAITING {
            return;
        }
        let _refused = self.links.push_back(waiting);
    }

    /// The link that has waited longest.
    pub(crate) fn take(&mut self) -> Option<WaitingLink<L, P>> {
        self.links.pop_front()
    }

    /// Closes the links that have waited for 10 seconds or longer.
    pub(crate) fn close_late(&mut self, now: u64) {
        for _ in 0..self.links.len() {
            match self.links.front() {
                Some(waiting) if now.saturating_sub(waiting.came) >= LANE_WAIT => {
                    drop(self.links.pop_front());
                }
                _ => return,
            }
        }
    }
}
