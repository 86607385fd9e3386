//! The places of objects by their ids.
ghost use Rattle.std.specs.Prelude.{◌≡◌, ◌==◌, ℕ, IfOk, OnOk, option_copied};
ghost use Rattle.std.specs.List.{find};
ghost use Rattle.p4info_model.specs.Lookups.{ArePlaces, PutsFirst};

use list_types::NoMemory;
use p4_types::info::{Action, ActionProfile, Counter, Digest, DirectCounter, Table};
use std::alloc::Global;
use std::collections::BTreeMap;

/// An object that is looked up by its id.
pub(crate) trait Identified {
    ghost identity: { Self → ℕ };

    fn id(&self) -> u32
        ensures { result ≡ identity self.now };
}

impl Identified for Table {
    ghost identity = { λ x. x.preamble.id };

    fn id(&self) -> u32 {
        self.preamble.id
    }
}

impl Identified for Action {
    ghost identity = { λ x. x.preamble.id };

    fn id(&self) -> u32 {
        self.preamble.id
    }
}

impl Identified for ActionProfile {
    ghost identity = { λ x. x.preamble.id };

    fn id(&self) -> u32 {
        self.preamble.id
    }
}

impl Identified for Counter {
    ghost identity = { λ x. x.preamble.id };

    fn id(&self) -> u32 {
        self.preamble.id
    }
}

impl Identified for DirectCounter {
    ghost identity = { λ x. x.preamble.id };

    fn id(&self) -> u32 {
        self.preamble.id
    }
}

impl Identified for Digest {
    ghost identity = { λ x. x.preamble.id };

    fn id(&self) -> u32 {
        self.preamble.id
    }
}

fn put_first(places: &mut BTreeMap<u32, usize>, id: u32, place: usize) -> Result<(), NoMemory>
    ensures { OnOk result (PutsFirst places.old places.new id place) }
{
    if !places.contains_key(&id) {
        places.insert(id, place)?;
    }
    Ok(())
}

/// The first place of each id.
pub(crate) fn places_of<T: Identified>(
    alloc: Global,
    objects: &[T],
) -> Result<BTreeMap<u32, usize>, NoMemory>
    ensures { IfOk result (λ places. ArePlaces T.identity objects.now places) }
{
    let mut places = BTreeMap::new(alloc);
    for place in 0..objects.len() {
        let id = objects[place].id();
        put_first(&mut places, id, place)?;
    }
    Ok(places)
}

/// The first object with an id.
pub(crate) fn found<'a, T: Identified>(
    places: &BTreeMap<u32, usize>,
    objects: &'a [T],
    id: u32,
) -> Option<&'a T>
    requires { ArePlaces T.identity objects.now places.now }
    ensures { option_copied result ≡ find (λ x. T.identity x == id) objects.now }
{
    match places.get(&id) {
        Some(place) => objects.get(*place),
        None => None,
    }
}
