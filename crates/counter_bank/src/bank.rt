//! The bank: its words, and the steps on them.
ghost use Rattle.std.specs.Prelude.{◌≡◌, ◌<◌, ◌≤◌, ◌^◌, IfOk};
ghost use Rattle.counter_bank.specs.Figures.{place, places, figures_of, AtMost};
ghost use Rattle.counter_bank.specs.Account.{first_seat, all_parts, most_slots, after_hit, less_a_part, with_a_part, joined, NotesAt, AreTotals, NoneAbove};

use crate::seat::Seat;
use crate::tally::{Adds, Counting, Notes, Parts, Tally};
use crate::totals::Totals;
use atomic_table::Table;
use list_types::NoMemory;
use std::alloc::Global;
use std::marker::Model;

/// How many slots stand together, as many rows of as many places.
const BLOCK: u32 = 4_096;

const ROWS: usize = 64;

/// Counters that threads share by reference: 16 bytes for each slot, and as much for those that are wanting in the last 4,096. Slots of
/// neighbouring numbers, as entries have that were inserted one after another, stand 1,024 bytes apart.
#[derive(Drop)]
pub struct Bank {
    table: Table<(), Tally, u64, Counting, Global>,
    slots: u32,
}

impl Model for Bank {
    ghost use Rattle.std.specs.Prelude.{◌≡◌, ◌*◌, ◌<◌, ◌≤◌};
    ghost use Rattle.counter_bank.specs.Account.{Opened, most_slots};

    ghost Value = { Opened };

    ghost view = { λ b. record { id = b.table.shared.table_id; slots = b.slots } };

    ghost use Rattle.counter_bank.specs.Figures.{places};

    ghost invariant = { λ b. (b.table.shared.key ≡ 2 * places b.slots) × (b.table.shared.table_id.words ≡ 2 * places b.slots) × (b.table.shared.table_id.slots ≡ 0) × (0 < b.slots) × (b.slots ≤ most_slots) };
}

/// Where a slot stands.
#[tactic(auto, unfolding(crate::specs::Figures::place))]
pub(crate) fn place(slot: u32) -> usize
    ensures place { result ≡ place slot }
    ensures small { result < 2 ^ 32 }
{
    let block = BLOCK as usize;
    let slot = slot as usize;
    slot / block * block + slot % ROWS * ROWS + slot / ROWS % ROWS
}

// How many places so many slots take.
#[tactic(auto, unfolding(crate::specs::Figures::places))]
fn places(slots: u32) -> u32
    requires { slots ≤ most_slots }
    ensures { result ≡ places slots }
{
    (slots + (BLOCK - 1)) / BLOCK * BLOCK
}

/// Opens a bank of so many slots, 1 to 1,048,576, all at 0, with its first seat, which has all 2^32 parts.
/// No other call takes memory, and none waits. While a bank is opened, it takes twice its memory.
pub fn open(alloc: Global, slots: u32) -> Result<(Bank, Seat), NoMemory>
    requires slots { (0 < slots) × (slots ≤ most_slots) }
    ensures { IfOk result (λ r. (r.0.slots ≡ slots) × (r.1 ≡ first_seat r.0.id)) }
{
    let words = 2 * u64::from(places(slots));
    let zeros = vec![in alloc; 0u64; words as usize]?;
    let (table, inner) = Table::of_words(alloc, zeros.as_slice(), &words)?;
    Ok((Bank { table, slots }, Seat { inner }))
}

impl Bank {
    /// Makes a new seat of one of the seat's parts. It has counted nothing, and knows what the other has noted.
    pub fn split(&self, seat: &mut Seat) -> Seat
        requires bank { seat.old.bank ≡ self.now.id }
        requires parts { 1 < seat.old.parts }
        ensures kept { seat.new ≡ less_a_part seat.old }
        ensures given { result ≡ with_a_part seat.old }
    {
        let given = self.table.shared.split_seat::<Parts>(&mut seat.inner);
        Seat { inner: given }
    }

    /// Takes in another seat of the bank, with its parts and all that it counted and noted.
    pub fn join(&self, seat: &mut Seat, other: Seat)
        requires bank { seat.old.bank ≡ self.now.id }
        requires other { other.bank ≡ self.now.id }
        ensures { seat.new ≡ joined seat.old other }
    {
        let Seat { inner } = other;
        self.table.shared.join_seat::<Parts>(&mut seat.inner, inner);
    }

    /// Counts a packet of so many bytes at a slot.
    pub fn hit(&self, seat: &mut Seat, slot: u32, bytes: u32)
        requires bank { seat.old.bank ≡ self.now.id }
        requires slot { slot < self.now.slots }
        ensures { seat.new ≡ after_hit seat.old slot bytes }
    {
        let shared = &self.table.shared;
        let at = 2 * place(slot);
        shared.fetch_add::<Adds>(&mut seat.inner, at, 1);
        shared.fetch_add::<Adds>(&mut seat.inner, at + 1, u64::from(bytes));
    }

    /// The packets and the bytes of a slot, each modulo 2^64 and as it is when it is read.
    pub fn load(&self, seat: &mut Seat, slot: u32) -> (u64, u64)
        requires bank { seat.old.bank ≡ self.now.id }
        requires slot { slot < self.now.slots }
        ensures figures { result ≡ figures_of seat.new.noted slot }
        ensures since { AtMost seat.old.noted seat.new.noted slot }
        ensures own { AtMost seat.old.added seat.new.noted slot }
        ensures same { NotesAt seat.old seat.new slot }
    {
        let shared = &self.table.shared;
        let at = 2 * place(slot);
        let packets = shared.load::<Notes>(&mut seat.inner, at);
        let bytes = shared.load::<Notes>(&mut seat.inner, at + 1);
        (packets, bytes)
    }
}

/// Closes a bank with the seat that all others were joined to, which then has all parts.
pub fn close_with(bank: Bank, seat: Seat) -> Totals
    requires bank { seat.bank ≡ bank.id }
    requires parts { seat.parts ≡ all_parts }
    ensures totals { AreTotals result bank.slots seat.added }
    ensures noted { NoneAbove seat.noted seat.added }
{
    let Bank { table, slots } = bank;
    let Seat { inner } = seat;
    Totals {
        closed: table.close_with(inner),
        places: places(slots),
    }
}
