//! The last moments of stamps that were closed.
ghost use Rattle.std.specs.Prelude.{◌≡◌};
ghost use Rattle.idle_words.specs.Moments.{moment_of};

use crate::stamps::place;
use atomic_table::Closed;
use std::alloc::Global;
use std::marker::Model;

/// The last moment of each stamp, in nanoseconds, or 0; those of stamps that there were not are 0. To a contract they are a list with a
/// number for each place of a stamp.
pub struct LastStamps {
    pub(crate) closed: Closed<(), Global>,
    pub(crate) places: u32,
}

impl Model for LastStamps {
    ghost use Rattle.std.specs.Prelude.{List, ℕ, ◌≡◌, ◌%◌};
    ghost use Rattle.std.specs.Slots.{slots_items, slots_len, IsFull};

    ghost Value = { List ℕ };

    ghost view = { λ l. slots_items l.closed.words };

    ghost invariant = { λ l. IsFull l.closed.words × (slots_len l.closed.slots ≡ 0) × (slots_len l.closed.words ≡ l.places) × (l.places % 4096 ≡ 0) };
}

impl LastStamps {
    /// The greatest moment that the stamp was touched with, or 0.
    pub fn get(&self, stamp: u32) -> u64
        ensures { result ≡ moment_of self.now stamp }
    {
        if stamp >= self.places {
            return 0;
        }
        self.closed.word(place(stamp))
    }
}

impl Drop for LastStamps {
    fn drop(self) {
        let LastStamps { closed, places: _ } = self;
        closed.free();
    }
}
