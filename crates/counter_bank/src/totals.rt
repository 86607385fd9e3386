//! The figures of a bank that was closed.
ghost use Rattle.std.specs.Prelude.{◌≡◌, ◌≤◌, ℕ};
ghost use Rattle.counter_bank.specs.Figures.{packets_of, bytes_of};

use crate::bank::place;
use atomic_table::Closed;
use std::alloc::Global;
use std::marker::Model;

/// The figures of each slot, modulo 2^64; those of slots that the bank did not have are 0. To a contract they are a list with two
/// numbers for each place of a slot: its packets, then its bytes.
pub struct Totals {
    pub(crate) closed: Closed<(), Global>,
    pub(crate) places: u32,
}

impl Model for Totals {
    ghost use Rattle.std.specs.Prelude.{List, ℕ, ◌≡◌, ◌*◌, ◌%◌};
    ghost use Rattle.std.specs.Slots.{slots_items, slots_len, IsFull};

    ghost Value = { List ℕ };

    ghost view = { λ t. slots_items t.closed.words };

    ghost invariant = { λ t. IsFull t.closed.words × (slots_len t.closed.slots ≡ 0) × (slots_len t.closed.words ≡ 2 * t.places) × (t.places % 4096 ≡ 0) };
}

impl Totals {
    /// The packets and the bytes of a slot.
    pub fn get(&self, slot: u32) -> (u64, u64)
        ensures { result ≡ (packets_of self.now slot, bytes_of self.now slot) }
    {
        if slot >= self.places {
            return (0, 0);
        }
        let at = 2 * place(slot);
        (self.closed.word(at), self.closed.word(at + 1))
    }

    /// How many slots may have counted: the figures of all others are 0.
    pub fn slots(&self) -> u32
        ensures { (slot : ℕ) → result ≤ slot → ◌≡◌ {A = ℕ × ℕ} (packets_of self.now slot, bytes_of self.now slot) (0, 0) }
    {
        self.places
    }
}

impl Drop for Totals {
    fn drop(self) {
        let Totals { closed, places: _ } = self;
        closed.free();
    }
}
