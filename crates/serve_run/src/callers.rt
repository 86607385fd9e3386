//! The links that are to be served, each until its thread takes it.
use crate::hall::LANES;
use crate::sharing::Caller;
use list_types::NoMemory;
use std::alloc::Global;
use std::sync::{Mutex, Wait};

/// A place for the caller of each lane. Who makes a thread puts the caller there, and the thread takes it; where no thread can be made,
/// who would have made it takes the caller back.
#[derive(Drop)]
pub(crate) struct Callers<A, L, P> {
    places: Vec<Mutex<Option<Caller<A, L, P>>>>,
}

impl<A: Drop, L: Drop, P: Drop> Callers<A, L, P> {
    /// With no caller.
    pub(crate) fn open(alloc: Global) -> Result<Callers<A, L, P>, NoMemory> {
        let mut places = Vec::with_capacity(alloc, LANES)?;
        for _lane in 0..LANES {
            places.push(Mutex::new(None))?;
        }
        Ok(Callers { places })
    }

    /// Puts the caller of a lane.
    pub(crate) fn put<W: Wait>(&self, rt: &W, place: usize, caller: Caller<A, L, P>) {
        if let Some(waiting) = self.places.get(place) {
            *waiting.lock(rt) = Some(caller);
        }
    }

    /// Takes the caller of a lane, if it is there.
    pub(crate) fn take<W: Wait>(&self, rt: &W, place: usize) -> Option<Caller<A, L, P>> {
        self.places.get(place)?.lock(rt).take()
    }
}
