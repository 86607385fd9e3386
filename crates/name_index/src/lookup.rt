//! The first object of each name.
ghost use Rattle.std.specs.Prelude.{◌≡◌, ◌<◌, length, option_copied, IfOk, IfSome, OnOk, IsPermutation, IsSorted};
ghost use Rattle.std.specs.List.{range_with_len};
ghost use Rattle.name_index.specs.Names.{named, place_of};
ghost use Rattle.name_index.specs.Places.{name_at, by_name, is_below, ArePlaces, IsStart, PutsFirst};

use crate::labels::Labelled;
use crate::names::Name;
use list_types::NoMemory;
use std::alloc::Global;
use std::cmp::Ordering;
use std::collections::BTreeMap;
use std::marker::Model;

/// Gives a name this value, unless it has one.
pub fn put_first<'a, V: Copy>(
    places: &mut BTreeMap<&'a str, V>,
    name: &'a str,
    value: V,
) -> Result<(), NoMemory>
    ensures { OnOk result (PutsFirst places.old places.new name.now value) }
{
    if !places.contains_key(name) {
        places.insert(name, value)?;
    }
    Ok(())
}

// The name of the object at a place, and an empty one where there is no object.
fn name_at<T: Labelled>(objects: &[T], place: usize) -> &str
    ensures { result.now ≡ name_at T.label objects.now place }
{
    match objects.get(place) {
        Some(object) => object.name(),
        None => "",
    }
}

fn by_name<T: Labelled>(objects: &[T], earlier: usize, later: usize) -> Ordering
    ensures { result ≡ by_name T.label objects.now earlier later }
{
    let names = name_at(objects, earlier).cmp(name_at(objects, later));
    names.then(earlier.cmp(&later))
}

fn places_up_to(alloc: Global, count: usize) -> Result<Vec<usize>, NoMemory>
    ensures { IfOk result (λ places. places.items ≡ range_with_len 0 count) }
{
    let mut places = Vec::with_capacity(alloc, count)?;
    for place in 0..count {
        places.push(place)?;
    }
    Ok(places)
}

fn sort_by_name<T: Labelled>(objects: &[T], places: &mut [usize])
    ensures permutation { IsPermutation places.old places.new }
    ensures sorted { IsSorted (by_name T.label objects.now) places.new }
{
    places.sort_unstable_by(|earlier, later| by_name(objects, *earlier, *later));
}

fn is_below<T: Labelled>(objects: &[T], place: usize, name: &str) -> bool
    ensures { result ≡ is_below T.label objects.now name.now place }
{
    name_at(objects, place).cmp(name).is_lt()
}

// Where the places of a name start, if there are any.
fn start_of<T: Labelled>(places: &[usize], objects: &[T], name: &str) -> usize
    requires { ArePlaces T.label objects.now places.now }
    ensures { IsStart T.label objects.now places.now name.now result }
{
    places.partition_point(|place| is_below(objects, *place, name))
}

fn place_in<T: Labelled>(places: &[usize], objects: &[T], name: &str) -> Option<usize>
    requires { ArePlaces T.label objects.now places.now }
    ensures place { result ≡ place_of T.label name.now objects.now }
    ensures inside { IfSome result (λ place. place < length objects.now) }
{
    match places.get(start_of(places, objects, name)) {
        Some(place) if name_at(objects, *place) == name => Some(*place),
        _ => None,
    }
}

/// Objects, with their places in the order of their names. A contract sees the objects.
#[derive(Drop)]
pub struct Index<'a, T: Labelled> {
    objects: &'a [T],
    places: Vec<usize>,
}

impl<'a, T: Labelled> Model for Index<'a, T> {
    ghost use Rattle.std.specs.Prelude.{List};
    ghost use Rattle.name_index.specs.Places.{ArePlaces};

    ghost Value = { List T };

    ghost view = { λ index. index.objects.now };

    ghost invariant = { λ index. ArePlaces T.label index.objects.now index.places.items };
}

impl<'a, T: Labelled> Index<'a, T> {
    /// The index of these objects. It takes 8 bytes for each of them.
    pub fn of(alloc: Global, objects: &'a [T]) -> Result<Index<'a, T>, NoMemory>
        ensures { IfOk result (λ index. index ≡ objects.now) }
    {
        let mut places = places_up_to(alloc, objects.len())?;
        sort_by_name(objects, places.as_mut_slice());
        Ok(Index { objects, places })
    }

    /// The place of the first object of a name.
    pub fn place_at(&self, name: &str) -> Option<usize>
        ensures place { result ≡ place_of T.label name.now self.now }
        ensures inside { IfSome result (λ place. place < length self.now) }
    {
        place_in(self.places.as_slice(), self.objects, name)
    }

    /// The first object of a name.
    pub fn named_at(&self, name: &str) -> Option<&'a T>
        ensures { option_copied result ≡ named T.label name.now self.now }
    {
        self.objects.get(self.place_at(name)?)
    }

    /// The same place, by a name.
    pub fn place(&self, name: &Name) -> Option<usize>
        ensures place { result ≡ place_of T.label name.now self.now }
        ensures inside { IfSome result (λ place. place < length self.now) }
    {
        self.place_at(name.as_str())
    }

    /// The same object, by a name.
    pub fn named(&self, name: &Name) -> Option<&'a T>
        ensures { option_copied result ≡ named T.label name.now self.now }
    {
        self.named_at(name.as_str())
    }
}
