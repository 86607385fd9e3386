//! The index.
ghost use Rattle.std.specs.Prelude.{◌≡◌, ◌≢◌, ℕ, true, false, OnOk, OnErr};
ghost use Rattle.std.specs.Prelude as spec;
ghost use Rattle.std.specs.Option.{option_map};
ghost use Rattle.p4_types.specs.declared.keys.FieldTest.{FieldTest};
ghost use Rattle.plane_spec.specs.Entries.{entry_named, best};
ghost use Rattle.match_index.specs.Order.{AreInOrder};
ghost use Rattle.match_index.specs.Index.{row_of, has_row, Covers, KeepsRows, IsEmpty};

use crate::cuts::name_print;
use crate::scan;
use crate::shapes::{self, Shape};
use list_types::NoMemory;
use p4_types::table::{Entry, EntryName};
use std::alloc::Global;

/// What finds the row of an entry again, once the entry is gone.
#[derive(Clone, Copy)]
pub struct Row {
    /// The fingerprint of what its tests compare with.
    pub print: u64,
    pub seq: u64,
}

/// A row for each entry of a table, of its tests and its sequence number, to find the entry by its name and by a key. A row
/// that no entry has does no harm.
#[derive(Drop)]
pub struct MatchIndex {
    shapes: Vec<Shape>,
}

impl MatchIndex {
    /// An index with no rows, which takes no memory.
    pub fn new(alloc: Global) -> MatchIndex
        ensures { IsEmpty result }
    {
        MatchIndex {
            shapes: Vec::new(alloc),
        }
    }

    /// Adds the row of an entry of that name.
    pub fn insert(&mut self, alloc: Global, name: &EntryName, row: Row) -> Result<(), NoMemory>
        requires { row ≡ row_of name.now.tests row.seq }
        ensures row { OnOk result (has_row self.new name.now.tests row.seq ≡ true) }
        ensures others { (tests : spec.List FieldTest) (other : ℕ) → other ≢ row.seq → has_row self.new tests other ≡ has_row self.old tests other }
        ensures kept { KeepsRows self.old self.new }
        ensures err { OnErr result ((tests : spec.List FieldTest) (other : ℕ) → has_row self.new tests other ≡ has_row self.old tests other) }
    {
        shapes::insert(&mut self.shapes, alloc, name.tests.as_slice(), row)
    }

    /// The row that an entry of that name and sequence number has, in any index.
    pub fn row(name: &EntryName, seq: u64) -> Row
        ensures { result ≡ row_of name.now.tests seq }
    {
        Row {
            print: name_print(name.tests.as_slice()),
            seq,
        }
    }

    /// Takes a row away. It takes no memory.
    pub fn remove(&mut self, row: Row)
        ensures gone { (tests : spec.List FieldTest) → row_of tests row.seq ≡ row → has_row self.new tests row.seq ≡ false }
        ensures others { (tests : spec.List FieldTest) (other : ℕ) → other ≢ row.seq → has_row self.old tests other ≡ true → has_row self.new tests other ≡ true }
    {
        shapes::remove(&mut self.shapes, row.print, row.seq);
    }

    /// The entry of that name.
    pub fn find<'a>(&self, entries: &'a [Entry], name: &EntryName) -> Option<&'a Entry>
        requires order { AreInOrder entries.now }
        requires covered { Covers self.now entries.now }
        ensures { option_map (λ entry. entry.now) result ≡ entry_named name.now entries.now }
    {
        let seqs = shapes::numbers_of(&self.shapes, name.tests.as_slice());
        scan::first_named(name, entries, seqs)
    }

    /// The entry that a key takes.
    pub fn best<'a>(&self, table: u32, key: &[u128], entries: &'a [Entry]) -> Option<&'a Entry>
        requires order { AreInOrder entries.now }
        requires covered { Covers self.now entries.now }
        ensures { option_map (λ entry. entry.now) result ≡ best table key.now entries.now }
    {
        scan::best_of_shapes(table, key, entries, &self.shapes)
    }
}
