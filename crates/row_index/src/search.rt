//! The best row that a key hits.
ghost use Rattle.std.specs.Prelude.{◌≡◌, ◌<◌, ℕ, Bool, IfSome, IsSome, true, length};
ghost use Rattle.row_index.specs.Best.{may_win, takes_lead, found_at, IsHit, IsCovered};
ghost use Rattle.row_index.specs.Places.{place_at};
ghost use Rattle.row_index.specs.Search.{IsSearchable, IsOffered, IsOfShape, IsLinked};

use crate::asks::Ask;
use crate::chains::Chains;
use crate::cuts::{bucket_of, key_print};
use crate::found::Found;
use crate::matching::{hits, prefix_length};
use crate::rows::Rows;
use crate::shapes::{Shapes, ask_at, first_of, shape_at};
use p4_types::table::EntryName;

// Whether some row of an asked shape could win over the best so far.
fn may_win(ask: Ask, best: Option<Found>) -> bool
    ensures { result ≡ may_win ask best }
{
    match best {
        Some(found) => {
            ask.priority > found.priority
                || ask.priority == found.priority && ask.length >= found.length
        }
        None => true,
    }
}

// Whether a row takes the lead from the best so far.
fn takes_lead(candidate: Found, best: Option<Found>) -> bool
    ensures { result ≡ takes_lead candidate best }
{
    match best {
        Some(found) => candidate.wins_over(found),
        None => true,
    }
}

// The row of that name and sequence number, found at a place.
fn found_at(place: u32, name: &EntryName, seq: u64) -> Found
    ensures { result ≡ found_at place name.now seq }
{
    Found {
        place,
        priority: name.priority,
        length: prefix_length(name.tests.as_slice()),
        seq,
    }
}

// The better of the best so far and the row at a place.
fn better<R: Rows>(
    rows: &R,
    best: Option<Found>,
    place: u32,
    table: u32,
    key: &[u128],
) -> Option<Found>
    requires live { IsSome (R.entry rows.now place) }
    requires best { IfSome best (IsHit (R.entry rows.now) table key.now) }
    ensures hit { IfSome result (IsHit (R.entry rows.now) table key.now) }
    ensures here { IsCovered (R.entry rows.now) table key.now result place }
    ensures kept { (other : ℕ) → IsCovered (R.entry rows.now) table key.now best other → IsCovered (R.entry rows.now) table key.now result other }
    ensures linked { (linked : ℕ → Bool) → linked place ≡ true → IfSome best (λ found. linked found.place ≡ true) → IfSome result (λ found. linked found.place ≡ true) }
{
    let name = rows.name(place);
    if !hits(table, key, name) {
        return best;
    }
    let seq = rows.seq(place);
    let candidate = found_at(place, name, seq);
    if takes_lead(candidate, best) {
        return Some(candidate);
    }
    best
}

// The better of the best so far and the row at a place, if that has the shape and the fingerprint.
fn better_at<R: Rows>(
    chains: &Chains,
    shapes: &Shapes,
    rows: &R,
    best: Option<Found>,
    place: u32,
    shape: u32,
    print: u32,
    table: u32,
    key: &[u128],
) -> Option<Found>
    requires searchable { IsSearchable chains.now shapes.now.list.items shapes.now.asks.items (R.entry rows.now) }
    requires used { IsSome (place_at chains.now.places place) }
    requires best { IfSome best (IsHit (R.entry rows.now) table key.now) }
    ensures hit { IfSome result (IsHit (R.entry rows.now) table key.now) }
    ensures here { IsOffered chains.now.places shape print place → IsCovered (R.entry rows.now) table key.now result place }
    ensures kept { (other : ℕ) → IsCovered (R.entry rows.now) table key.now best other → IsCovered (R.entry rows.now) table key.now result other }
    ensures linked { IfSome best (IsLinked chains.now.places) → IfSome result (IsLinked chains.now.places) }
{
    let _ = shapes;
    let placed = chains.at(place);
    if placed.shape != shape {
        return best;
    }
    if placed.print != print {
        return best;
    }
    better(rows, best, place, table, key)
}

// The better of the best so far and the rows with the shape and the fingerprint.
fn best_in<R: Rows>(
    chains: &Chains,
    shapes: &Shapes,
    rows: &R,
    best: Option<Found>,
    shape: u32,
    print: u32,
    table: u32,
    key: &[u128],
) -> Option<Found>
    requires searchable { IsSearchable chains.now shapes.now.list.items shapes.now.asks.items (R.entry rows.now) }
    requires best { IfSome best (IsHit (R.entry rows.now) table key.now) }
    ensures hit { IfSome result (IsHit (R.entry rows.now) table key.now) }
    ensures walked { (other : ℕ) → IsOffered chains.now.places shape print other → IsCovered (R.entry rows.now) table key.now result other }
    ensures kept { (other : ℕ) → IsCovered (R.entry rows.now) table key.now best other → IsCovered (R.entry rows.now) table key.now result other }
    ensures linked { IfSome best (IsLinked chains.now.places) → IfSome result (IsLinked chains.now.places) }
{
    let bucket = bucket_of(chains.buckets(), print);
    let mut best = best;
    let mut end = chains.end(bucket);
    while end > 0 {
        let place = end - 1;
        best = better_at(chains, shapes, rows, best, place, shape, print, table, key);
        end = chains.before(bucket, place);
    }
    best
}

// The better of the best so far and the rows of an asked shape.
fn best_of<R: Rows>(
    chains: &Chains,
    shapes: &Shapes,
    rows: &R,
    best: Option<Found>,
    ask: Ask,
    table: u32,
    key: &[u128],
) -> Option<Found>
    requires searchable { IsSearchable chains.now shapes.now.list.items shapes.now.asks.items (R.entry rows.now) }
    requires ask { ask.shape < length shapes.now.list.items }
    requires best { IfSome best (IsHit (R.entry rows.now) table key.now) }
    ensures hit { IfSome result (IsHit (R.entry rows.now) table key.now) }
    ensures walked { (other : ℕ) → IsOfShape chains.now.places ask.shape other → IsCovered (R.entry rows.now) table key.now result other }
    ensures kept { (other : ℕ) → IsCovered (R.entry rows.now) table key.now best other → IsCovered (R.entry rows.now) table key.now result other }
    ensures linked { IfSome best (IsLinked chains.now.places) → IfSome result (IsLinked chains.now.places) }
{
    let shape = shape_at(shapes, ask.shape);
    let print = key_print(u64::from(ask.shape), shape.tests.as_slice(), key);
    best_in(chains, shapes, rows, best, ask.shape, print, table, key)
}

/// The best of the rows that the key hits. The shapes of the table are asked from the greatest down, until none that is left could
/// win.
pub(crate) fn best<R: Rows>(
    chains: &Chains,
    shapes: &Shapes,
    rows: &R,
    table: u32,
    key: &[u128],
) -> Option<Found>
    requires { IsSearchable chains.now shapes.now.list.items shapes.now.asks.items (R.entry rows.now) }
    ensures hit { IfSome result (IsHit (R.entry rows.now) table key.now) }
    ensures linked { IfSome result (IsLinked chains.now.places) }
    ensures covered { (other : ℕ) → IsSome (place_at chains.now.places other) → IsCovered (R.entry rows.now) table key.now result other }
{
    let mut found = None;
    let start = first_of(shapes, table);
    for place in start..shapes.asks.len() {
        let ask = ask_at(shapes, place);
        if ask.table != table {
            return found;
        }
        if !may_win(ask, found) {
            return found;
        }
        found = best_of(chains, shapes, rows, found, ask, table, key);
    }
    found
}
