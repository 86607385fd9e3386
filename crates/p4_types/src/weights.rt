//! Items with weights, as a selector chooses among them.
ghost use Rattle.std.specs.Prelude.{◌≡◌, ℕ, ◌+◌, ◌^◌, ◌-◌, ◌++◌, [], ◌∷◌, min, sum_by, length, OnOk, OnErr};

use list_types::{List as Items, NoMemory};
use std::alloc::Global;
use std::marker::Model;

/// An item with a weight.
pub trait Weighted {
    ghost weighs: { Self → ℕ };

    fn weight(&self) -> u32
        ensures { result ≡ weighs self.now };
}

/// A growing list of items with weights, which knows how much they weigh together. A contract sees it as the list of its items.
#[derive(Drop)]
pub struct WeightedList<T: Weighted> {
    items: Items<T>,
    total: u64,
}

impl<T: Weighted> Model for WeightedList<T> {
    ghost use Rattle.std.specs.Prelude.{◌≡◌, ◌^◌, ◌-◌, List, min, sum_by};

    ghost Value = { List T };

    ghost view = { λ list. list.items };

    ghost invariant = { λ list. list.total ≡ min (sum_by T.weighs list.items) (2 ^ 64 - 1) };
}

impl<T: Weighted + Drop> WeightedList<T> {
    /// The empty list, which takes no memory.
    pub fn new(alloc: Global) -> WeightedList<T>
        ensures { result ≡ [] }
    {
        WeightedList {
            items: Items::new(alloc),
            total: 0,
        }
    }

    /// Adds an item at the end.
    pub fn push(&mut self, item: T) -> Result<(), NoMemory>
        ensures ok { OnOk result (self.new ≡ self.old ++ item ∷ []) }
        ensures err { OnErr result (self.new ≡ self.old) }
    {
        let weight = item.weight();
        self.items.push(item)?;
        self.total = self.total.saturating_add(u64::from(weight));
        Ok(())
    }

    /// The items in the order in which they were added.
    pub fn as_slice(&self) -> &[T]
        ensures { result.now ≡ self.now }
    {
        self.items.as_slice()
    }

    /// How many items there are.
    pub fn len(&self) -> usize
        ensures { result ≡ length self.now }
    {
        self.items.len()
    }

    /// How much the items weigh together, at most 2^64 - 1.
    pub fn total(&self) -> u64
        ensures { result ≡ min (sum_by T.weighs self.now) (2 ^ 64 - 1) }
    {
        self.total
    }
}
