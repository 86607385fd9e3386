//! The index.
ghost use Rattle.std.specs.Prelude.{◌≡◌, ℕ, ◌<◌, Option, None, true, false, IfOk};
ghost use Rattle.p4_types.specs.declared.table.Entry.{Entry as Row};
ghost use Rattle.row_index.specs.Best.{IsBest, IsNamed};
ghost use Rattle.row_index.specs.Index.{is_linked, places_of, Indexes, IsRow, Links, Unlinks};

use crate::chains::Chains;
use crate::cuts::{bucket_of, name_print};
use crate::placed::Placed;
use crate::rows::Rows;
use crate::shapes::{self, Shapes};
use crate::{naming, search};
use list_types::NoMemory;
use p4_types::table::EntryName;
use std::alloc::Global;
use std::marker::Model;

/// An index of rows that stand elsewhere: it leads from a key, and from a name, to the place of a row. The rows are of any number of
/// tables, with tests of any kind. Only `open` takes memory.
#[derive(Drop)]
pub struct RowIndex {
    chains: Chains,
    shapes: Shapes,
}

impl Model for RowIndex {
    ghost use Rattle.std.specs.Prelude.{vec_capacity};
    ghost use Rattle.row_index.specs.Index.{Index, IsSound};

    ghost Value = { Index };

    ghost view = { λ index. record { places = index.chains.places; shapes = index.shapes.list.items } };

    ghost invariant = { λ index. IsSound index.chains index.shapes.list.items index.shapes.asks.items (vec_capacity index.shapes.list) (vec_capacity index.shapes.asks) };
}

impl RowIndex {
    /// An index with so many places, at none of which a row is linked.
    pub fn open(alloc: Global, rows: u32) -> Result<RowIndex, NoMemory>
        ensures places { IfOk result (λ index. places_of index ≡ rows) }
        ensures empty { IfOk result (λ index. (place : ℕ) → is_linked index place ≡ false) }
        ensures rows { IfOk result (λ index. (rows : ℕ → Option Row) → Indexes index rows) }
    {
        let buckets = if rows == 0 { 1 } else { rows };
        let chains = Chains::open(alloc, buckets, rows)?;
        let list = Vec::with_capacity(alloc, rows as usize)?;
        let asks = Vec::with_capacity(alloc, rows as usize)?;
        Ok(RowIndex {
            chains,
            shapes: Shapes { list, asks },
        })
    }

    /// How many places there are.
    pub fn places(&self) -> u32
        ensures { result ≡ places_of self.now }
    {
        self.chains.places()
    }

    /// Whether a row is linked at a place.
    pub fn is_linked(&self, place: u32) -> bool
        ensures { result ≡ is_linked self.now place }
    {
        self.chains.is_used(place)
    }

    /// Links the row of that name, which stands at the place.
    pub fn link(&mut self, place: u32, name: &EntryName)
        requires place { place < places_of self.old }
        requires free { is_linked self.old place ≡ false }
        ensures links { Links self.old self.new place }
        ensures rows { (rows : ℕ → Option Row) → Indexes self.old rows → IsRow rows place name.now → Indexes self.new rows }
    {
        let shape = shapes::join(&mut self.shapes, name);
        let print = name_print(u64::from(shape), name.tests.as_slice());
        let bucket = bucket_of(self.chains.buckets(), print);
        self.chains.link(
            place,
            Placed {
                bucket,
                shape,
                print,
            },
        );
    }

    /// Unlinks the row at a place. What stood or stands there is not read.
    pub fn unlink(&mut self, place: u32)
        requires { is_linked self.old place ≡ true }
        ensures unlinks { Unlinks self.old self.new place }
        ensures rows { (rows : ℕ → Option Row) → Indexes self.old rows → Indexes self.new rows }
    {
        let placed = self.chains.unlink(place);
        shapes::leave(&mut self.shapes, placed.shape);
    }

    /// The place of the linked row of that name.
    pub fn find<R: Rows>(&self, rows: &R, name: &EntryName) -> Option<u32>
        requires { Indexes self.now (R.entry rows.now) }
        ensures { IsNamed (is_linked self.now) (R.entry rows.now) name.now result }
    {
        naming::named(&self.chains, &self.shapes, rows, name)
    }

    /// The place of the linked row of the table that a key takes: one number for each field. Of several that it hits the one of the
    /// greatest priority wins, then that of the longest prefix, then that of the lowest sequence number.
    pub fn best<R: Rows>(&self, rows: &R, table: u32, key: &[u128]) -> Option<u32>
        requires { Indexes self.now (R.entry rows.now) }
        ensures { IsBest (is_linked self.now) (R.entry rows.now) table key.now result }
    {
        match search::best(&self.chains, &self.shapes, rows, table, key) {
            Some(found) => Some(found.place),
            None => None,
        }
    }

    /// `best`, where the table's fields are exact: one shape is asked.
    pub fn best_exact<R: Rows>(&self, rows: &R, table: u32, key: &[u128]) -> Option<u32>
        requires { Indexes self.now (R.entry rows.now) }
        ensures { IsBest (is_linked self.now) (R.entry rows.now) table key.now result }
    {
        self.best(rows, table, key)
    }

    /// `best`, where a field is matched by longest prefix: a shape for each length is asked, from the longest down.
    pub fn best_lpm<R: Rows>(&self, rows: &R, table: u32, key: &[u128]) -> Option<u32>
        requires { Indexes self.now (R.entry rows.now) }
        ensures { IsBest (is_linked self.now) (R.entry rows.now) table key.now result }
    {
        self.best(rows, table, key)
    }

    /// `best`, where fields are ternary, ranges or optional: a shape for each list of masks is asked, from the greatest priority down.
    pub fn best_ternary<R: Rows>(&self, rows: &R, table: u32, key: &[u128]) -> Option<u32>
        requires { Indexes self.now (R.entry rows.now) }
        ensures { IsBest (is_linked self.now) (R.entry rows.now) table key.now result }
    {
        self.best(rows, table, key)
    }
}
