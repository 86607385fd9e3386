//! Which of the links that are served are to make room for those that wait.
use crate::hall::LANES;
use link_loop::Room;
use list_types::NoMemory;
use std::alloc::Global;
use std::sync::atomic::{AtomicU64, Ordering};

// What stands for a link that is not quiet. No clock comes to it.
const NOT_QUIET: u64 = u64::MAX;

/// Since when the link of each lane has been quiet, how many links wait for a lane, and how many links make room for them.
#[derive(Drop)]
pub(crate) struct Rooms {
    quiet: Vec<AtomicU64>,
    waiting: AtomicU64,
    leaving: AtomicU64,
}

impl Rooms {
    /// No link is quiet, and none waits.
    pub(crate) fn open(alloc: Global) -> Result<Rooms, NoMemory> {
        let mut quiet = Vec::with_capacity(alloc, LANES)?;
        for _lane in 0..LANES {
            quiet.push(AtomicU64::new(NOT_QUIET))?;
        }
        Ok(Rooms {
            quiet,
            waiting: AtomicU64::new(0),
            leaving: AtomicU64::new(0),
        })
    }

    /// So many links wait.
    pub(crate) fn wait(&self, count: usize) {
        self.waiting.store(count as u64, Ordering::SeqCst);
    }

    /// A link that waited has a lane.
    pub(crate) fn seat(&self) {
        if self.leaving.load(Ordering::SeqCst) > 0 {
            self.leaving.fetch_sub(1, Ordering::SeqCst);
        }
    }

    // Notes since when the link of a lane has been quiet.
    fn note(&self, place: usize, quiet_since: Option<u64>) {
        if let Some(quiet) = self.quiet.get(place) {
            quiet.store(quiet_since.unwrap_or(NOT_QUIET), Ordering::SeqCst);
        }
    }

    // Whether no other link has been quiet for longer than that of a lane, which has been since then. Of two that have been for as long,
    // that of the lower lane goes first.
    fn is_quietest(&self, place: usize, since: u64) -> bool {
        for other in 0..self.quiet.len() {
            let quiet = self.quiet[other].load(Ordering::SeqCst);
            if quiet < since || (quiet == since && other < place) {
                return false;
            }
        }
        true
    }

    // Whether the link of a lane, which has been quiet since then, is to make room. Then it does.
    fn takes(&self, place: usize, since: u64) -> bool {
        let waiting = self.waiting.load(Ordering::SeqCst);
        if waiting <= self.leaving.load(Ordering::SeqCst) || !self.is_quietest(place, since) {
            return false;
        }
        self.leaving.fetch_add(1, Ordering::SeqCst);
        true
    }
}

/// What asks the link of one lane to make room.
#[derive(Drop)]
pub(crate) struct LaneRoom<'v> {
    rooms: &'v Rooms,
    place: usize,
    told: Option<u64>,
}

impl<'v> LaneRoom<'v> {
    /// For a link that has not been quiet.
    pub(crate) fn new(rooms: &'v Rooms, place: usize) -> LaneRoom<'v> {
        rooms.note(place, None);
        LaneRoom {
            rooms,
            place,
            told: None,
        }
    }

    /// The link has ended.
    pub(crate) fn end(&mut self) {
        self.rooms.note(self.place, None);
    }
}

impl<'v> Room for LaneRoom<'v> {
    fn is_wanted(&mut self, quiet_since: Option<u64>) -> bool {
        if self.told != quiet_since {
            self.told = quiet_since;
            self.rooms.note(self.place, quiet_since);
        }
        match quiet_since {
            Some(since) => self.rooms.takes(self.place, since),
            None => false,
        }
    }
}
