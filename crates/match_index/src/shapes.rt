//! Rows by their shapes: by which parts of a key's values their tests compare.
ghost use Rattle.std.specs.Prelude.{◌≡◌, IfOk, IfSome, OnOk, OnErr, length};
ghost use Rattle.std.specs.List.{position};
ghost use Rattle.std.specs.Option.{option_map};
ghost use Rattle.match_index.specs.Cuts.{has_cuts};
ghost use Rattle.match_index.specs.Index.{row_of};
ghost use Rattle.match_index.specs.Shapes.{shape_of, numbers_of, IsOnlyRow, AddsRow, AreClear, IsGone, KeepsOthers, AreSameRows, IsEmptyAt};

use crate::bins;
use crate::cuts::{Cut, cuts_of, has_cuts, name_print};
use crate::index::Row;
use crate::seqs::Seqs;
use list_types::NoMemory;
use p4_types::keys::FieldTest;
use std::alloc::Global;
use std::collections::HashMap;

/// The rows whose tests compare the same parts: the sequence numbers of each, in the bin of its fingerprint.
#[derive(Drop)]
pub(crate) struct Shape {
    pub(crate) cuts: Vec<Cut>,
    pub(crate) bins: HashMap<u64, Seqs>,
}

fn shape_of<'a>(shapes: &'a [Shape], tests: &[FieldTest]) -> Option<&'a Shape>
    ensures { option_map (λ shape. shape.now) result ≡ shape_of shapes.now tests.now }
{
    shapes
        .iter()
        .find(|shape| has_cuts(shape.cuts.as_slice(), tests))
}

/// The numbers in the bin that a row of the tests has in its shape.
pub(crate) fn numbers_of<'a>(shapes: &'a [Shape], tests: &[FieldTest]) -> &'a [u64]
    ensures { result.now ≡ numbers_of shapes.now tests.now }
{
    match shape_of(shapes, tests) {
        Some(shape) => bins::at(&shape.bins, name_print(tests)),
        None => &[],
    }
}

fn place_of(shapes: &[Shape], tests: &[FieldTest]) -> Option<usize>
    ensures { result ≡ position (λ shape. has_cuts shape.cuts.items tests.now) shapes.now }
{
    shapes
        .iter()
        .position(|shape| has_cuts(shape.cuts.as_slice(), tests))
}

// A shape of one row, which was opened for it.
fn opened(alloc: Global, tests: &[FieldTest], row: Row) -> Result<Shape, NoMemory>
    requires { row ≡ row_of tests.now row.seq }
    ensures { IfOk result (IsOnlyRow tests.now row.seq) }
{
    let cuts = cuts_of(alloc, tests)?;
    let mut bins = HashMap::new(alloc);
    bins::put(&mut bins, alloc, row.print, row.seq)?;
    Ok(Shape { cuts, bins })
}

/// Adds the row of tests.
pub(crate) fn insert(
    shapes: &mut Vec<Shape>,
    alloc: Global,
    tests: &[FieldTest],
    row: Row,
) -> Result<(), NoMemory>
    requires { row ≡ row_of tests.now row.seq }
    ensures ok { OnOk result (AddsRow shapes.old.items shapes.new.items tests.now row.seq) }
    ensures err { OnErr result (AreSameRows shapes.old.items shapes.new.items) }
{
    match place_of(shapes, tests) {
        Some(place) => {
            let shape = &mut shapes[place];
            bins::put(&mut shape.bins, alloc, row.print, row.seq)?;
        }
        None => {
            let shape = opened(alloc, tests, row)?;
            shapes.push(shape)?;
        }
    }
    Ok(())
}

// Takes a number out of the bin of a fingerprint in each shape.
fn lose_in_each(shapes: &mut Vec<Shape>, print: u64, seq: u64)
    ensures gone { AreClear print seq (length shapes.new.items) shapes.new.items }
    ensures others { KeepsOthers shapes.old.items shapes.new.items seq }
{
    for place in 0..shapes.len() {
        let shape = &mut shapes[place];
        bins::remove(&mut shape.bins, print, seq);
    }
}

// Where a shape stands that has no row.
fn empty_place(shapes: &[Shape]) -> Option<usize>
    ensures { IfSome result (IsEmptyAt shapes.now) }
{
    for place in 0..shapes.len() {
        if bins::are_empty(&shapes[place].bins) {
            return Some(place);
        }
    }
    None
}

/// Takes the row of a fingerprint and of a number away, and a shape that has none, unless there is no other: a table that is
/// filled again has use for it. It takes no memory.
pub(crate) fn remove(shapes: &mut Vec<Shape>, print: u64, seq: u64)
    ensures gone { IsGone shapes.new.items print seq }
    ensures others { KeepsOthers shapes.old.items shapes.new.items seq }
{
    lose_in_each(shapes, print, seq);
    if shapes.len() > 1 {
        if let Some(place) = empty_place(shapes.as_slice()) {
            shapes.remove(place);
        }
    }
}
