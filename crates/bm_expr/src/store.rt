//! The fields and valid headers of one packet.
ghost use Rattle.std.specs.Prelude.{◌≡◌, ◌⊎◌, ◌+◌, ◌<◌, ◌≤◌, ◌++◌, [], ◌∷◌, length, replicate, vec_len, vec_capacity, IfOk};
ghost use Rattle.std.specs.List.{splice, slice_range};
ghost use Rattle.bm_expr.specs.Store.{header_valid, field_read, field_written, validity_written, assigned, cleared, header_added, header_assigned, AreApart};

use crate::operators::cut;
use list_types::NoMemory;
use std::alloc::Global;
use std::marker::Model;

/// For how many fields a store always has room.
const FIELD_ROOM: usize = 1_024;

/// For how many headers a store always has room.
const HEADER_ROOM: usize = 128;

/// A field: where its number stands, its header, and its width in bits.
#[derive(Clone, Copy)]
pub struct FieldPlace {
    pub index: usize,
    pub header: usize,
    pub width: u32,
}

/// A header, whose fields stand side by side.
#[derive(Clone, Copy)]
pub struct HeaderPlace {
    pub header: usize,
    /// Where the first of its fields stands.
    pub first: usize,
    /// How many fields it has.
    pub count: usize,
}

// Makes the numbers from one place on 0.
fn zero(fields: &mut [u128], first: usize, count: usize)
    requires { first + count ≤ length fields.old }
    ensures { fields.new ≡ splice fields.old first (first + count) (replicate count 0) }
{
    fields[first..first + count].fill(0);
}

// Copies `count` numbers from one place to another, where the two runs do not overlap.
#[tactic(auto, using(crate::proofs::Copies::to_the_right, crate::proofs::Copies::to_the_left))]
fn copy(fields: &mut [u128], from: usize, to: usize, count: usize)
    requires from { from + count ≤ length fields.old }
    requires to { to + count ≤ length fields.old }
    requires apart { (from + count ≤ to) ⊎ (to + count ≤ from) }
    ensures { fields.new ≡ splice fields.old to (to + count) (slice_range fields.old from (from + count)) }
{
    if from < to {
        let (left, right) = fields.split_at_mut(to);
        right[..count].copy_from_slice(&left[from..from + count]);
    } else {
        let (left, right) = fields.split_at_mut(from);
        left[to..to + count].copy_from_slice(&right[..count]);
    }
}

// Adds an item, for which there is room. It takes no memory.
fn add<T: Copy>(items: &mut Vec<T>, item: T)
    requires room { vec_len items.old < vec_capacity items.old }
    ensures items { items.new.items ≡ items.old.items ++ item ∷ [] }
    ensures room { vec_capacity items.old ≤ vec_capacity items.new }
{
    let _ = items.push(item);
}

// Makes a vector one of so many equal items, for which it has room. It takes no memory.
fn refill<T: Copy>(items: &mut Vec<T>, count: usize, item: T)
    requires room { count ≤ vec_capacity items.old }
    ensures items { items.new.items ≡ replicate count item }
    ensures room { vec_capacity items.old ≤ vec_capacity items.new }
{
    items.clear();
    for _ in 0..count {
        add(items, item);
    }
}

// A vector of so many equal items, with room for others.
fn filled<T: Copy>(alloc: Global, room: usize, count: usize, item: T) -> Result<Vec<T>, NoMemory>
    requires room { count ≤ room }
    ensures items { IfOk result (λ filled. filled.items ≡ replicate count item) }
    ensures room { IfOk result (λ filled. room ≤ vec_capacity filled) }
{
    let mut items = Vec::with_capacity(alloc, room)?;
    refill(&mut items, count, item);
    Ok(items)
}

/// The number of each field and the validity of each header, with room for 1,024 fields and 128 headers at least.
#[derive(Drop)]
pub struct Store {
    fields: Vec<u128>,
    valid: Vec<bool>,
}

impl Model for Store {
    ghost use Rattle.std.specs.Prelude.{◌≤◌, vec_capacity};
    ghost use Rattle.bm_expr.specs.Store as spec;

    ghost Value = { spec.Contents };

    ghost view = { λ store. record { fields = store.fields.items; valid = store.valid.items } };

    ghost invariant = { λ store. (1024 ≤ vec_capacity store.fields) × (128 ≤ vec_capacity store.valid) };
}

impl Store {
    /// A store in which no header is valid and every field is 0.
    pub fn open(alloc: Global, fields: usize, headers: usize) -> Result<Store, NoMemory>
        ensures { IfOk result (λ store. store ≡ cleared fields headers) }
    {
        Ok(Store {
            fields: filled(alloc, FIELD_ROOM.max(fields), fields, 0)?,
            valid: filled(alloc, HEADER_ROOM.max(headers), headers, false)?,
        })
    }

    /// Makes it a store of so many fields and headers, as one that was just opened. It takes no memory.
    pub fn fit(&mut self, fields: usize, headers: usize)
        requires fields_in_room { fields ≤ 1024 }
        requires headers_in_room { headers ≤ 128 }
        ensures { self.new ≡ cleared fields headers }
    {
        refill(&mut self.fields, fields, 0);
        refill(&mut self.valid, headers, false);
    }

    /// The number of a field, which is 0 where its header is invalid.
    pub fn field(&self, place: FieldPlace) -> u128
        requires field_in_store { place.index < length self.now.fields }
        requires header_in_store { place.header < length self.now.valid }
        ensures { result ≡ field_read self.now place }
    {
        if self.valid[place.header] {
            self.fields[place.index]
        } else {
            0
        }
    }

    /// Writes a field, of which the number's lowest `width` bits are kept, whether its header is valid or not. The field of
    /// an invalid header still reads 0.
    pub fn set_field(&mut self, place: FieldPlace, value: u128)
        requires field_in_store { place.index < length self.old.fields }
        requires width { place.width ≤ 128 }
        ensures { self.new ≡ field_written self.old place value }
    {
        self.fields[place.index] = cut(value, place.width);
    }

    /// Whether a header instance is valid (P4-16, "Operations on headers"), by its place in the program.
    pub fn is_valid(&self, header: usize) -> bool
        requires header_in_store { header < length self.now.valid }
        ensures { result ≡ header_valid self.now header }
    {
        self.valid[header]
    }

    /// Makes a header valid or invalid. Its fields keep their numbers.
    pub fn set_valid(&mut self, header: usize, valid: bool)
        requires header_in_store { header < length self.old.valid }
        ensures { self.new ≡ validity_written self.old header valid }
    {
        self.valid[header] = valid;
    }

    /// Assigns to a field, as [`Store::set_field`]; one of an invalid header stays as it is.
    pub fn assign(&mut self, place: FieldPlace, value: u128)
        requires field_in_store { place.index < length self.old.fields }
        requires header_in_store { place.header < length self.old.valid }
        requires width { place.width ≤ 128 }
        ensures { self.new ≡ assigned self.old place value }
    {
        if self.valid[place.header] {
            self.fields[place.index] = cut(value, place.width);
        }
    }

    /// Makes an invalid header valid with all its fields 0. A valid one stays as it is.
    pub fn add_header(&mut self, place: HeaderPlace)
        requires header_in_store { place.header < length self.old.valid }
        requires fields_in_store { place.first + place.count ≤ length self.old.fields }
        ensures { self.new ≡ header_added self.old place }
    {
        if !self.valid[place.header] {
            zero(&mut self.fields, place.first, place.count);
            self.valid[place.header] = true;
        }
    }

    /// Gives a header the validity and the fields of another one with as many fields; from an invalid one it is invalid.
    pub fn assign_header(&mut self, to: HeaderPlace, from: HeaderPlace)
        requires from_in_store { from.header < length self.old.valid }
        requires to_in_store { to.header < length self.old.valid }
        requires from_fields { from.first + from.count ≤ length self.old.fields }
        requires to_fields { to.first + to.count ≤ length self.old.fields }
        requires as_many { to.count ≡ from.count }
        requires apart { AreApart from to }
        ensures { self.new ≡ header_assigned self.old to from }
    {
        copy(&mut self.fields, from.first, to.first, from.count);
        self.valid[to.header] = self.valid[from.header];
    }

    /// Makes it the same as another store, which has as many fields and headers. It takes no memory.
    pub fn copy_from(&mut self, other: &Store)
        requires fields { length other.now.fields ≡ length self.old.fields }
        requires headers { length other.now.valid ≡ length self.old.valid }
        ensures { self.new ≡ other.now }
    {
        self.fields.copy_from_slice(other.fields.as_slice());
        self.valid.copy_from_slice(other.valid.as_slice());
    }

    /// Makes each header invalid and each field 0, as in a store that was just opened. It takes no memory.
    pub fn clear(&mut self)
        ensures { self.new ≡ cleared (length self.old.fields) (length self.old.valid) }
    {
        self.fields.fill(0);
        self.valid.fill(false);
    }
}
