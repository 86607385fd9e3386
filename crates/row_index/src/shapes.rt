//! The rows of an index by their shapes: by which parts of a key's values their tests compare.
ghost use Rattle.std.specs.Prelude.{◌≡◌, ◌==◌, ◌↔◌, ℕ, ◌+◌, ◌-◌, ◌<◌, ◌≤◌, ◌^◌, false, length, slice_get, int_lt, IsTrue, IfSome, IfNone, vec_len, vec_capacity};
ghost use Rattle.std.specs.List.{position};
ghost use Rattle.plane_spec.specs.Entries.{prefix_length};
ghost use Rattle.row_index.specs.Asks.{IsAround};
ghost use Rattle.row_index.specs.Shapes.{count_at, AllUsed, ask_of, ask_for, opened, grown, shrunk, widened, Matches, MatchesAt, AreAsked, Joins, Raises, Leaves, Settles};

use crate::asks::{self, Ask};
use crate::cuts::same_cuts;
use crate::matching::prefix_length;
use p4_types::keys::Tests;
use p4_types::table::EntryName;

/// The rows of one table whose tests compare the same parts. One that no row has is free for other rows.
#[derive(Drop)]
pub(crate) struct Shape {
    pub(crate) table: u32,
    /// The tests of one of its rows, which compare what those of each do.
    pub(crate) tests: Tests,
    /// How many rows have it.
    pub(crate) count: u32,
    /// No row of it has a greater priority.
    pub(crate) priority: i32,
    /// No row of it has a longer prefix.
    pub(crate) length: u32,
}

/// Shapes, and in which order they are asked.
#[derive(Drop)]
pub(crate) struct Shapes {
    pub(crate) list: Vec<Shape>,
    pub(crate) asks: Vec<Ask>,
}

/// Where the asks of a table begin.
pub(crate) fn first_of(shapes: &Shapes, table: u32) -> usize
    requires { AreAsked shapes.now.list.items shapes.now.asks.items }
    ensures { IsAround shapes.now.asks.items table result result }
{
    asks::first_of(shapes.asks.as_slice(), table)
}

/// The ask at a place.
pub(crate) fn ask_at(shapes: &Shapes, place: usize) -> Ask
    requires asked { AreAsked shapes.now.list.items shapes.now.asks.items }
    requires place { place < vec_len shapes.now.asks }
    ensures ask { slice_get shapes.now.asks.items place ≡ Some result }
    ensures within { result.shape < length shapes.now.list.items }
{
    shapes.asks[place]
}

/// The shape of a number.
pub(crate) fn shape_at(shapes: &Shapes, number: u32) -> &Shape
    requires { number < length shapes.now.list.items }
    ensures { slice_get shapes.now.list.items number ≡ Some result.now }
{
    &shapes.list[number as usize]
}

// Whether rows of that name have the shape.
fn is_of(shape: &Shape, name: &EntryName) -> bool
    ensures { IsTrue result ↔ Matches name.now shape.now }
{
    shape.count > 0
        && shape.table == name.table
        && same_cuts(shape.tests.as_slice(), name.tests.as_slice())
}

// The shape of rows of that name, where one has been opened.
fn shape_of(shapes: &Shapes, name: &EntryName) -> Option<u32>
    requires { AreAsked shapes.now.list.items shapes.now.asks.items }
    ensures { IfSome result (λ place. MatchesAt shapes.now.list.items place name.now) }
{
    let start = first_of(shapes, name.table);
    for place in start..shapes.asks.len() {
        let ask = ask_at(shapes, place);
        if ask.table != name.table {
            return None;
        }
        if is_of(shape_at(shapes, ask.shape), name) {
            return Some(ask.shape);
        }
    }
    None
}

// Whether there are as many asks as shapes. Then each shape has a row.
fn are_all_asked(shapes: &Shapes) -> bool
    requires { AreAsked shapes.now.list.items shapes.now.asks.items }
    ensures { IsTrue result → AllUsed shapes.now.list.items }
{
    shapes.asks.len() == shapes.list.len()
}

fn first_unused(shapes: &Shapes) -> Option<usize>
    ensures { result ≡ position (λ shape. shape.count == 0) shapes.now.list.items }
{
    shapes.list.iter().position(|shape| shape.count == 0)
}

// A shape that no row has.
fn unused(shapes: &Shapes) -> Option<u32>
    requires few { length shapes.now.list.items < 2 ^ 32 }
    requires asked { AreAsked shapes.now.list.items shapes.now.asks.items }
    ensures some { IfSome result (λ place. (place < length shapes.now.list.items) × (count_at shapes.now.list.items place ≡ 0)) }
    ensures none { IfNone result (AllUsed shapes.now.list.items) }
{
    if are_all_asked(shapes) {
        return None;
    }
    match first_unused(shapes) {
        Some(place) => Some(place as u32),
        None => None,
    }
}

// Puts a shape in place of one that no row has, or behind all.
fn settle(shapes: &mut Shapes, shape: Shape) -> u32
    requires few { vec_len shapes.old.list < 2 ^ 32 }
    requires asked { AreAsked shapes.old.list.items shapes.old.asks.items }
    requires room { AllUsed shapes.old.list.items → vec_len shapes.old.list < vec_capacity shapes.old.list }
    ensures settles { Settles shapes.old.list.items shapes.new.list.items result shape }
    ensures asks { shapes.new.asks ≡ shapes.old.asks }
    ensures capacity { vec_capacity shapes.new.list ≡ vec_capacity shapes.old.list }
{
    match unused(shapes) {
        Some(place) => {
            shapes.list[place as usize] = shape;
            place
        }
        None => {
            let place = shapes.list.len() as u32;
            shapes.list.push_reserved(shape);
            place
        }
    }
}

// The shape of one row alone, of that name.
fn opened(name: &EntryName) -> Shape
    ensures { result ≡ opened name.now }
{
    Shape {
        table: name.table,
        tests: name.tests.copy(),
        count: 1,
        priority: name.priority,
        length: prefix_length(name.tests.as_slice()),
    }
}

// The ask of a shape of one row alone, of that name.
fn ask_for(place: u32, name: &EntryName) -> Ask
    ensures { result ≡ ask_for place name.now }
{
    Ask {
        table: name.table,
        priority: name.priority,
        length: prefix_length(name.tests.as_slice()),
        shape: place,
    }
}

// Opens a shape for a row of that name.
fn open(shapes: &mut Shapes, name: &EntryName) -> u32
    requires few { vec_len shapes.old.list < 2 ^ 32 }
    requires asked { AreAsked shapes.old.list.items shapes.old.asks.items }
    requires room { AllUsed shapes.old.list.items → vec_len shapes.old.list < vec_capacity shapes.old.list }
    requires asks_room { vec_len shapes.old.asks < vec_capacity shapes.old.asks }
    ensures joins { Joins shapes.old.list.items shapes.new.list.items result name.now }
    ensures asked { AreAsked shapes.new.list.items shapes.new.asks.items }
    ensures capacity { vec_capacity shapes.new.list ≡ vec_capacity shapes.old.list }
    ensures asks_capacity { vec_capacity shapes.new.asks ≡ vec_capacity shapes.old.asks }
{
    let shape = opened(name);
    let place = settle(shapes, shape);
    asks::put(&mut shapes.asks, ask_for(place, name));
    place
}

// Whether a row of that name is within the bounds of a shape.
fn is_within(shape: &Shape, name: &EntryName) -> bool
    ensures { IsTrue result → (int_lt shape.now.priority name.now.priority ≡ false) × (prefix_length name.now.tests ≤ shape.now.length) }
{
    name.priority <= shape.priority && prefix_length(name.tests.as_slice()) <= shape.length
}

// Widens the bounds of the shape of a place to include a row of that name, and answers its new ask.
fn widen(shape: &mut Shape, place: u32, name: &EntryName) -> Ask
    ensures shape { shape.new ≡ widened name.now shape.old }
    ensures ask { result ≡ ask_of place shape.new }
{
    let length = prefix_length(name.tests.as_slice());
    if shape.priority < name.priority {
        shape.priority = name.priority;
    }
    if shape.length < length {
        shape.length = length;
    }
    Ask {
        table: shape.table,
        priority: shape.priority,
        length: shape.length,
        shape: place,
    }
}

fn grow(shape: &mut Shape)
    requires { shape.old.count + 1 < 2 ^ 32 }
    ensures { shape.new ≡ grown shape.old }
{
    shape.count += 1;
}

// Takes a row from a shape, and answers whether it has none left.
fn shrink(shape: &mut Shape) -> bool
    requires { 0 < shape.old.count }
    ensures shape { shape.new ≡ shrunk shape.old }
    ensures empty { IsTrue result ↔ (shape.old.count - 1 ≡ 0) }
{
    shape.count -= 1;
    shape.count == 0
}

// Widens the bounds of a shape to include a row of that name, and asks it earlier for that.
fn raise(shapes: &mut Shapes, place: u32, name: &EntryName)
    requires asked { AreAsked shapes.old.list.items shapes.old.asks.items }
    requires matches { MatchesAt shapes.old.list.items place name.now }
    ensures raises { Raises shapes.old.list.items shapes.new.list.items place name.now }
    ensures asked { AreAsked shapes.new.list.items shapes.new.asks.items }
    ensures capacity { vec_capacity shapes.new.list ≡ vec_capacity shapes.old.list }
    ensures asks_capacity { vec_capacity shapes.new.asks ≡ vec_capacity shapes.old.asks }
{
    if is_within(shape_at(shapes, place), name) {
        return;
    }
    asks::take(&mut shapes.asks, place);
    let shape = &mut shapes.list[place as usize];
    let ask = widen(shape, place, name);
    asks::put(&mut shapes.asks, ask);
}

/// Finds or opens the shape of a row of that name, which has it from now on, and answers where it stands.
pub(crate) fn join(shapes: &mut Shapes, name: &EntryName) -> u32
    requires few { vec_len shapes.old.list < 2 ^ 32 }
    requires asked { AreAsked shapes.old.list.items shapes.old.asks.items }
    requires counts { (place : ℕ) → count_at shapes.old.list.items place + 1 < 2 ^ 32 }
    requires room { AllUsed shapes.old.list.items → vec_len shapes.old.list < vec_capacity shapes.old.list }
    requires asks_room { vec_len shapes.old.asks < vec_capacity shapes.old.asks }
    ensures joins { Joins shapes.old.list.items shapes.new.list.items result name.now }
    ensures asked { AreAsked shapes.new.list.items shapes.new.asks.items }
    ensures capacity { vec_capacity shapes.new.list ≡ vec_capacity shapes.old.list }
    ensures asks_capacity { vec_capacity shapes.new.asks ≡ vec_capacity shapes.old.asks }
{
    match shape_of(shapes, name) {
        Some(place) => {
            raise(shapes, place, name);
            let shape = &mut shapes.list[place as usize];
            grow(shape);
            place
        }
        None => open(shapes, name),
    }
}

/// Takes a row from the shape of that place.
pub(crate) fn leave(shapes: &mut Shapes, place: u32)
    requires asked { AreAsked shapes.old.list.items shapes.old.asks.items }
    requires count { 0 < count_at shapes.old.list.items place }
    ensures leaves { Leaves shapes.old.list.items shapes.new.list.items place }
    ensures asked { AreAsked shapes.new.list.items shapes.new.asks.items }
    ensures capacity { vec_capacity shapes.new.list ≡ vec_capacity shapes.old.list }
    ensures asks_capacity { vec_capacity shapes.new.asks ≡ vec_capacity shapes.old.asks }
{
    let shape = &mut shapes.list[place as usize];
    if !shrink(shape) {
        return;
    }
    asks::take(&mut shapes.asks, place);
}
