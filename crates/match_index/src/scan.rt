//! Entries by their sequence numbers, and which of some numbers is that of an entry that is looked for.
ghost use Rattle.std.specs.Prelude.{◌≡◌, Some, IfSome};
ghost use Rattle.std.specs.Option.{option_map};
ghost use Rattle.match_index.specs.Order.{AreInOrder};
ghost use Rattle.match_index.specs.Scan.{entry_at, if_named, first_named, wins, better_at, best_in, best_of_shape, best_of_shapes};

use crate::bins;
use crate::cuts::key_print;
use crate::matching::{beats, hits, same_name};
use crate::shapes::Shape;
use p4_types::table::{Entry, EntryName};

// The entry of a number, if it stands as far behind the first entry as its number is above that one's: so do entries that were
// inserted one after another, of which none was removed.
fn unmoved(entries: &[Entry], seq: u64) -> Option<&Entry>
    requires { AreInOrder entries.now }
    ensures { IfSome result (λ entry. Some entry.now ≡ entry_at entries.now seq) }
{
    match entries {
        [] => None,
        [first, ..] => {
            let place = seq.saturating_sub(first.seq) as usize;
            if place < entries.len() {
                let entry = &entries[place];
                if entry.seq == seq {
                    return Some(entry);
                }
            }
            None
        }
    }
}

// The entry of a number.
fn entry_at(entries: &[Entry], seq: u64) -> Option<&Entry>
    requires { AreInOrder entries.now }
    ensures { option_map (λ entry. entry.now) result ≡ entry_at entries.now seq }
{
    let unmoved = unmoved(entries, seq);
    if unmoved.is_some() {
        return unmoved;
    }
    match entries.binary_search_by_key(&seq, |entry| entry.seq) {
        Ok(place) => Some(&entries[place]),
        Err(_) => None,
    }
}

fn named_at<'a>(name: &EntryName, entries: &'a [Entry], seq: u64) -> Option<&'a Entry>
    requires { AreInOrder entries.now }
    ensures { option_map (λ entry. entry.now) result ≡ if_named name.now (entry_at entries.now seq) }
{
    match entry_at(entries, seq) {
        Some(entry) if same_name(name, &entry.name) => Some(entry),
        _ => None,
    }
}

/// The first of the numbers whose entry has that name.
pub(crate) fn first_named<'a>(
    name: &EntryName,
    entries: &'a [Entry],
    seqs: &[u64],
) -> Option<&'a Entry>
    requires { AreInOrder entries.now }
    ensures { option_map (λ entry. entry.now) result ≡ first_named name.now entries.now seqs.now }
{
    for seq in seqs {
        let found = named_at(name, entries, *seq);
        if found.is_some() {
            return found;
        }
    }
    None
}

fn wins(table: u32, key: &[u128], entry: &Entry, so_far: Option<&Entry>) -> bool
    ensures { result ≡ wins table key.now entry.now (option_map (λ other. other.now) so_far.entry) }
{
    if !hits(table, key, entry) {
        return false;
    }
    match so_far {
        Some(other) => beats(entry, other),
        None => true,
    }
}

fn better_at<'a>(
    table: u32,
    key: &[u128],
    entries: &'a [Entry],
    so_far: Option<&'a Entry>,
    seq: u64,
) -> Option<&'a Entry>
    requires { AreInOrder entries.now }
    ensures { option_map (λ entry. entry.now) result ≡ better_at table key.now entries.now (option_map (λ entry. entry.now) so_far.entry) seq }
{
    match entry_at(entries, seq) {
        Some(entry) if wins(table, key, entry, so_far) => Some(entry),
        _ => so_far,
    }
}

fn best_in<'a>(
    table: u32,
    key: &[u128],
    entries: &'a [Entry],
    so_far: Option<&'a Entry>,
    seqs: &[u64],
) -> Option<&'a Entry>
    requires { AreInOrder entries.now }
    ensures { option_map (λ entry. entry.now) result ≡ best_in table key.now entries.now (option_map (λ entry. entry.now) so_far.entry) seqs.now }
{
    let mut found = so_far;
    for seq in seqs {
        found = better_at(table, key, entries, found, *seq);
    }
    found
}

fn best_of_shape<'a>(
    table: u32,
    key: &[u128],
    entries: &'a [Entry],
    so_far: Option<&'a Entry>,
    shape: &Shape,
) -> Option<&'a Entry>
    requires { AreInOrder entries.now }
    ensures { option_map (λ entry. entry.now) result ≡ best_of_shape table key.now entries.now (option_map (λ entry. entry.now) so_far.entry) shape.now }
{
    let print = key_print(shape.cuts.as_slice(), key);
    best_in(table, key, entries, so_far, bins::at(&shape.bins, print))
}

/// The best of the entries that shapes offer for the key.
pub(crate) fn best_of_shapes<'a>(
    table: u32,
    key: &[u128],
    entries: &'a [Entry],
    shapes: &[Shape],
) -> Option<&'a Entry>
    requires { AreInOrder entries.now }
    ensures { option_map (λ entry. entry.now) result ≡ best_of_shapes table key.now entries.now shapes.now }
{
    let mut found: Option<&Entry> = None;
    for shape in shapes {
        found = best_of_shape(table, key, entries, found, shape);
    }
    found
}
