//! Where the passes wait that serve no link.
ghost use Rattle.std.specs.Prelude.{◌≡◌, length, IfOk};

use crate::shared_desk::LanePass;
use list_types::NoMemory;
use std::alloc::Global;
use std::sync::{Mutex, Wait};

/// How many passes a desk has: one for each lane, 0 to 31.
pub(crate) const LANES: usize = 32;

// A place for the pass of each lane.
#[derive(Drop)]
pub(crate) struct Places<P> {
    places: Vec<Option<P>>,
    ghost full: { length places.items ≡ 32 },
}

// Places where no pass is.
fn empty_places<P: Drop>(alloc: Global) -> Result<Vec<Option<P>>, NoMemory>
    ensures { IfOk result (λ places. length places.items ≡ 32) }
{
    let mut places = Vec::new(alloc);
    'lanes: while places.len() < LANES {
        places.push(None)?;
    }
    Ok(places)
}

impl<P: LanePass> Places<P> {
    // The pass of the lowest lane whose place is not empty.
    fn take(&mut self) -> Option<P> {
        for place in self.places.iter_mut() {
            if let Some(pass) = place.take() {
                return Some(pass);
            }
        }
        None
    }

    // Puts a pass into the place of its lane.
    fn put(&mut self, pass: P) {
        let place = pass.place();
        self.places[place] = Some(pass);
    }
}

/// The passes that serve no link.
#[derive(Drop)]
pub(crate) struct Hall<P> {
    places: Mutex<Places<P>>,
}

impl<P: LanePass> Hall<P> {
    /// With these passes.
    pub(crate) fn open(alloc: Global, passes: Vec<P>) -> Result<Hall<P>, NoMemory> {
        let mut places = Places {
            places: empty_places(alloc)?,
        };
        for pass in passes {
            places.put(pass);
        }
        Ok(Hall {
            places: Mutex::new(places),
        })
    }

    /// Takes the pass of the lowest lane that serves no link, if there is one.
    pub(crate) fn take<W: Wait>(&self, rt: &W) -> Option<P> {
        self.places.lock(rt).take()
    }

    /// Gives a pass back, for the next link.
    pub(crate) fn give<W: Wait>(&self, rt: &W, pass: P) {
        self.places.lock(rt).put(pass);
    }

    /// The passes, once no link is served any more.
    pub(crate) fn into_passes(self) -> Vec<Option<P>> {
        let Hall { places } = self;
        let Places { places } = places.into_inner();
        places
    }
}
