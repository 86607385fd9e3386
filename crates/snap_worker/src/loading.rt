//! The figures of counters, as a seat loads them.
ghost use Rattle.std.specs.Prelude.{◌≡◌, ◌≢◌, ◌<◌, ◌≤◌, ◌++◌, ◌∷◌, [], length, IfOk, OnOk, ℕ};
ghost use Rattle.counter_bank.specs.Figures.{AtMost};
ghost use Rattle.snap_worker.specs.Sums.{AreSums, NotesOwn, SeatLooks, figures_in, in_words, noted_by};

use counter_bank::{Bank, Seat};
use list_types::{List, NoMemory};
use plane_read::Counts;
use std::alloc::Global;
use std::marker::Model;

/// What counters had counted where somebody asked: the packets and bytes of each slot, from slot 0 on, each modulo 2^64; those of
/// later slots are 0. A contract sees them as a list.
pub struct Loaded {
    figures: List<(u64, u64)>,
}

// Written out, so that those who let one go need not look into it.
impl Drop for Loaded {
    fn drop(self) {
        let Self { figures: _figures } = self;
    }
}

impl Model for Loaded {
    ghost use Rattle.std.specs.Prelude.{ℕ, List};

    ghost Value = { List (ℕ × ℕ) };

    ghost view = { λ l. l.figures };
}

impl Loaded {
    /// The figures where nothing is asked. It takes no memory.
    pub fn none(alloc: Global) -> Loaded
        ensures { result ≡ [] }
    {
        Loaded {
            figures: List::new(alloc),
        }
    }
}

impl Counts for Loaded {
    ghost figures = { figures_in };

    fn count(&self, slot: u32) -> (u64, u64) {
        match self.figures.as_slice().get(slot as usize) {
            Some(figures) => *figures,
            None => (0, 0),
        }
    }
}

// Loads the counter of a slot behind those before it.
fn load_next(
    bank: &Bank,
    seat: &mut Seat,
    slot: u32,
    figures: &mut List<(u64, u64)>,
) -> Result<(), NoMemory>
    requires bank { seat.old.bank ≡ bank.now.id }
    requires slot { slot < bank.now.slots }
    ensures looks { SeatLooks seat.old seat.new }
    ensures others { (other : ℕ) → other ≢ slot → noted_by seat.new other ≡ noted_by seat.old other }
    ensures own { AtMost seat.new.added seat.new.noted slot }
    ensures pushed { OnOk result (figures.new ≡ figures.old ++ in_words (noted_by seat.new slot) ∷ []) }
{
    let loaded = bank.load(seat, slot);
    figures.push(loaded)?;
    Ok(())
}

/// Loads the counters of so many slots, from slot 0 on.
pub(crate) fn load(
    alloc: Global,
    bank: &Bank,
    seat: &mut Seat,
    slots: u32,
) -> Result<Loaded, NoMemory>
    requires bank { seat.old.bank ≡ bank.now.id }
    requires slots { slots ≤ bank.now.slots }
    ensures looks { SeatLooks seat.old seat.new }
    ensures sums { IfOk result (λ loaded. AreSums loaded (noted_by seat.new)) }
    ensures own { IfOk result (λ loaded. NotesOwn (length loaded) seat.new) }
    ensures all { IfOk result (λ loaded. length loaded ≡ slots) }
{
    let mut figures = List::from_vec(Vec::with_capacity(alloc, slots as usize)?);
    for slot in 0..slots {
        load_next(bank, seat, slot, &mut figures)?;
    }
    Ok(Loaded { figures })
}
