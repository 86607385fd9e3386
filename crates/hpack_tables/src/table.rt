//! The dynamic table (RFC 7541, section 4).
ghost use Rattle.std.specs.Prelude.{◌≡◌, ◌≤◌, [], sum_by, Ok, IfOk};
ghost use Rattle.list_types.specs.Results.{Gives, GivesExactly, found};
ghost use Rattle.hpack_tables.specs.Tables.{header, entry_size, fitting, inserted, resized, entry_at};
ghost use Rattle.hpack_tables.specs.declared.fault.HpackFault.TheVariants as faults;

use crate::fault::HpackFault;
use crate::header::{Header, copy};
use crate::static_table::{STATIC_ENTRIES, static_entry};
use list_types::{List, NoMemory, Refusal};
use std::alloc::Global;
use std::collections::VecDeque;
use std::marker::Model;

/// The greatest maximum of a table.
pub(crate) const MAX_SIZE: u32 = 4_096;

/// The size of a header as an entry. No two lengths pass 128 bits together.
pub(crate) fn entry_size(entry: &Header) -> u128
    ensures { result ≡ entry_size entry.now }
{
    entry.name.len() as u128 + entry.value.len() as u128 + 32
}

// Takes the oldest entries away until the others fit, and gives their size.
fn evict(entries: &mut VecDeque<Header>, size: u128, room: u128) -> u128
    requires { size ≡ sum_by entry_size entries.old.items }
    ensures entries { entries.new.items ≡ fitting room entries.old.items }
    ensures size { result ≡ sum_by entry_size entries.new.items }
    ensures fits { result ≤ room }
{
    let mut size = size;
    while size > room {
        let Some(oldest) = entries.pop_back() else {
            return size;
        };
        size -= entry_size(&oldest);
    }
    size
}

/// A dynamic table. A contract sees its entries, the newest first, and its maximum.
#[derive(Drop)]
pub(crate) struct DynamicTable {
    entries: VecDeque<Header>,
    size: u128,
    max_size: u32,
}

impl Model for DynamicTable {
    ghost use Rattle.std.specs.Prelude.{◌≡◌, ◌≤◌, sum_by};
    ghost use Rattle.hpack_tables.specs.Tables.{Table, entry_size};

    ghost Value = { Table };

    ghost view = { λ table. record { entries = table.entries.items; max_size = table.max_size } };

    ghost invariant = { λ table. (table.size ≡ sum_by entry_size table.entries.items) × (table.size ≤ 4096) × (table.max_size ≤ 4096) };
}

impl DynamicTable {
    pub(crate) fn new(alloc: Global) -> DynamicTable
        ensures { result ≡ record { entries = []; max_size = 4096 } }
    {
        DynamicTable {
            entries: VecDeque::new(alloc),
            size: 0,
            max_size: MAX_SIZE,
        }
    }

    /// Adds an entry, for which the oldest make room.
    pub(crate) fn insert(&mut self, entry: Header) -> Result<(), Refusal<HpackFault>>
        ensures { Gives (λ _. self.new) result (Ok (inserted entry self.old)) }
    {
        let size = entry_size(&entry);
        if size > u128::from(self.max_size) {
            self.entries.clear();
            self.size = 0;
            return Ok(());
        }
        let room = u128::from(self.max_size) - size;
        self.size = evict(&mut self.entries, self.size, room);
        self.entries.push_front(entry)?;
        self.size += size;
        Ok(())
    }

    /// Changes the maximum.
    pub(crate) fn resize(&mut self, max_size: u32)
        requires { max_size ≤ 4096 }
        ensures { self.new ≡ resized max_size self.old }
    {
        self.max_size = max_size;
        self.size = evict(&mut self.entries, self.size, u128::from(max_size));
    }

    /// The name and the value of an index.
    pub(crate) fn entry(&self, index: u32) -> Result<(&[u8], &[u8]), HpackFault>
        ensures { GivesExactly (λ x. header x.0.now x.1.now) result (found faults.BadIndex (entry_at self.now index)) }
    {
        if index == 0 {
            return Err(HpackFault::BadIndex);
        }
        let place = index as usize - 1;
        if place < STATIC_ENTRIES {
            return Ok(static_entry(place));
        }
        match self.entries.get(place - STATIC_ENTRIES) {
            Some(entry) => Ok((entry.name.as_slice(), entry.value.as_slice())),
            None => Err(HpackFault::BadIndex),
        }
    }

    /// The entries, the newest first.
    pub(crate) fn copies(&self, alloc: Global) -> Result<List<Header>, NoMemory>
        ensures { IfOk result (λ entries. entries ≡ self.now.entries) }
    {
        let mut entries = List::new(alloc);
        for place in 0..self.entries.len() {
            entries.push(copy(alloc, &self.entries[place])?)?;
        }
        Ok(entries)
    }
}
