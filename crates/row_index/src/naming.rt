//! The row of a name.
ghost use Rattle.std.specs.Prelude.{◌≡◌, ◌<◌, ℕ, IfSome, IfNone, IsSome, length};
ghost use Rattle.std.specs.Bool.{OnTrue, OnFalse};
ghost use Rattle.row_index.specs.Places.{place_at};
ghost use Rattle.row_index.specs.Search.{IsSearchable, IsOffered, IsOfShape, IsNamedAt, IsOther};

use crate::asks::Ask;
use crate::chains::Chains;
use crate::cuts::{bucket_of, name_print, same_cuts};
use crate::matching::same_name;
use crate::rows::Rows;
use crate::shapes::{Shapes, ask_at, first_of, shape_at};
use p4_types::table::EntryName;

// Whether the row at a place has the shape, the fingerprint and the name.
fn is_named<R: Rows>(
    chains: &Chains,
    shapes: &Shapes,
    rows: &R,
    place: u32,
    shape: u32,
    print: u32,
    name: &EntryName,
) -> bool
    requires searchable { IsSearchable chains.now shapes.now.list.items shapes.now.asks.items (R.entry rows.now) }
    requires used { IsSome (place_at chains.now.places place) }
    ensures named { OnTrue result (IsNamedAt chains.now.places (R.entry rows.now) name.now place) }
    ensures other { OnFalse result (IsOffered chains.now.places shape print place → IsOther (R.entry rows.now) name.now place) }
{
    let _ = shapes;
    let placed = chains.at(place);
    if placed.shape != shape {
        return false;
    }
    if placed.print != print {
        return false;
    }
    same_name(name, rows.name(place))
}

// The place of a row of that name among those with the shape and the fingerprint.
fn named_in<R: Rows>(
    chains: &Chains,
    shapes: &Shapes,
    rows: &R,
    shape: u32,
    print: u32,
    name: &EntryName,
) -> Option<u32>
    requires { IsSearchable chains.now shapes.now.list.items shapes.now.asks.items (R.entry rows.now) }
    ensures named { IfSome result (IsNamedAt chains.now.places (R.entry rows.now) name.now) }
    ensures none { IfNone result ((other : ℕ) → IsOffered chains.now.places shape print other → IsOther (R.entry rows.now) name.now other) }
{
    let bucket = bucket_of(chains.buckets(), print);
    let mut end = chains.end(bucket);
    while end > 0 {
        let place = end - 1;
        if is_named(chains, shapes, rows, place, shape, print, name) {
            return Some(place);
        }
        end = chains.before(bucket, place);
    }
    None
}

// The place of a row of that name among those of an asked shape.
fn named_of<R: Rows>(
    chains: &Chains,
    shapes: &Shapes,
    rows: &R,
    ask: Ask,
    name: &EntryName,
) -> Option<u32>
    requires searchable { IsSearchable chains.now shapes.now.list.items shapes.now.asks.items (R.entry rows.now) }
    requires ask { ask.shape < length shapes.now.list.items }
    ensures named { IfSome result (IsNamedAt chains.now.places (R.entry rows.now) name.now) }
    ensures none { IfNone result ((other : ℕ) → IsOfShape chains.now.places ask.shape other → IsOther (R.entry rows.now) name.now other) }
{
    let shape = shape_at(shapes, ask.shape);
    let tests = name.tests.as_slice();
    if !same_cuts(shape.tests.as_slice(), tests) {
        return None;
    }
    let print = name_print(u64::from(ask.shape), tests);
    named_in(chains, shapes, rows, ask.shape, print, name)
}

/// The place of a row of that name.
pub(crate) fn named<R: Rows>(
    chains: &Chains,
    shapes: &Shapes,
    rows: &R,
    name: &EntryName,
) -> Option<u32>
    requires { IsSearchable chains.now shapes.now.list.items shapes.now.asks.items (R.entry rows.now) }
    ensures named { IfSome result (IsNamedAt chains.now.places (R.entry rows.now) name.now) }
    ensures none { IfNone result ((other : ℕ) → IsSome (place_at chains.now.places other) → IsOther (R.entry rows.now) name.now other) }
{
    let start = first_of(shapes, name.table);
    for place in start..shapes.asks.len() {
        let ask = ask_at(shapes, place);
        if ask.table != name.table {
            return None;
        }
        let found = named_of(chains, shapes, rows, ask, name);
        if found.is_some() {
            return found;
        }
    }
    None
}
