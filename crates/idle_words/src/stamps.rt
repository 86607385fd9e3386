//! The stamps: their words, and the steps on them.
ghost use Rattle.std.specs.Prelude.{◌≡◌, ◌<◌, ◌≤◌, ◌^◌, IfOk};
ghost use Rattle.counter_bank.specs.Figures.{place, places};
ghost use Rattle.idle_words.specs.Moments.{moment_of, NoneAbove};
ghost use Rattle.idle_words.specs.Account.{first_seat, all_parts, most_stamps, after_touch, after_look, less_a_part, with_a_part, joined, AreLast};

use crate::knowledge::{Greatest, Knowledge, Notes, Parts, Touches};
use crate::last_stamps::LastStamps;
use atomic_table::Table;
use list_types::NoMemory;
use std::alloc::Global;
use std::marker::Model;

/// How many stamps stand together, as many rows of as many places.
const BLOCK: u32 = 4_096;

const ROWS: usize = 64;

/// Stamps that threads share by reference, each with the greatest moment that it was touched with, or 0: 8 bytes for each, and as much for
/// those that are wanting in the last 4,096. Stamps of neighbouring numbers stand 512 bytes apart.
#[derive(Drop)]
pub struct Stamps {
    table: Table<(), Knowledge, u64, Greatest, Global>,
    count: u32,
}

impl Model for Stamps {
    ghost use Rattle.std.specs.Prelude.{◌≡◌, ◌<◌, ◌≤◌};
    ghost use Rattle.idle_words.specs.Account.{Opened, most_stamps};

    ghost Value = { Opened };

    ghost view = { λ s. record { id = s.table.shared.table_id; count = s.count } };

    ghost use Rattle.counter_bank.specs.Figures.{places};

    ghost invariant = { λ s. (s.table.shared.key ≡ places s.count) × (s.table.shared.table_id.words ≡ places s.count) × (s.table.shared.table_id.slots ≡ 0) × (0 < s.count) × (s.count ≤ most_stamps) };
}

/// The right to touch stamps and to look at them, with what was touched and found by it. It has no bytes. The seats of stamps share 2^32
/// parts, and each has at least one. A seat that is dropped takes its parts with it, so that the stamps can no longer be closed with all of them.
#[derive(Drop)]
pub struct StampSeat {
    inner: atomic_table::Seat<(), Knowledge>,
}

impl Model for StampSeat {
    ghost use Rattle.std.specs.Prelude.{◌≡◌, ◌<◌, []};
    ghost use Rattle.idle_words.specs.Account.{Account};

    ghost Value = { Account };

    ghost use Rattle.idle_words.specs.Touching.{account};

    ghost view = { λ s. account s.inner.table_id s.inner.me.0 };

    ghost invariant = { λ s. (s.inner.me.1 ≡ []) × (0 < s.inner.me.0.parts) };
}

/// Where a stamp stands.
#[tactic(auto, unfolding(counter_bank::specs::Figures::place))]
pub(crate) fn place(stamp: u32) -> usize
    ensures place { result ≡ place stamp }
    ensures small { result < 2 ^ 32 }
{
    let block = BLOCK as usize;
    let stamp = stamp as usize;
    stamp / block * block + stamp % ROWS * ROWS + stamp / ROWS % ROWS
}

// How many places so many stamps take.
#[tactic(auto, unfolding(counter_bank::specs::Figures::places))]
fn places(count: u32) -> u32
    requires { count ≤ most_stamps }
    ensures { result ≡ places count }
{
    (count + (BLOCK - 1)) / BLOCK * BLOCK
}

/// Opens so many stamps, 1 to 1,048,576, all at 0, with their first seat, which has all 2^32 parts. No other call on stamps takes memory,
/// and none waits. While stamps are opened, they take twice their memory.
pub fn open(alloc: Global, count: u32) -> Result<(Stamps, StampSeat), NoMemory>
    requires count { (0 < count) × (count ≤ most_stamps) }
    ensures { IfOk result (λ r. (r.0.count ≡ count) × (r.1 ≡ first_seat r.0.id)) }
{
    let words = u64::from(places(count));
    let zeros = vec![in alloc; 0u64; words as usize]?;
    let (table, inner) = Table::of_words(alloc, zeros.as_slice(), &words)?;
    Ok((Stamps { table, count }, StampSeat { inner }))
}

impl Stamps {
    /// Makes a new seat of one of the seat's parts. It has touched nothing, and knows what the other has noted.
    pub fn split(&self, seat: &mut StampSeat) -> StampSeat
        requires stamps { seat.old.stamps ≡ self.now.id }
        requires parts { 1 < seat.old.parts }
        ensures kept { seat.new ≡ less_a_part seat.old }
        ensures given { result ≡ with_a_part seat.old }
    {
        let given = self.table.shared.split_seat::<Parts>(&mut seat.inner);
        StampSeat { inner: given }
    }

    /// Takes in another seat, with its parts and all that it touched and noted.
    pub fn join(&self, seat: &mut StampSeat, other: StampSeat)
        requires stamps { seat.old.stamps ≡ self.now.id }
        requires other { other.stamps ≡ self.now.id }
        ensures { seat.new ≡ joined seat.old other }
    {
        let StampSeat { inner } = other;
        self.table.shared.join_seat::<Parts>(&mut seat.inner, inner);
    }

    /// Touches a stamp with a moment, in nanoseconds, which stays there until a later one comes.
    pub fn touch(&self, seat: &mut StampSeat, stamp: u32, now: u64)
        requires stamps { seat.old.stamps ≡ self.now.id }
        requires stamp { stamp < self.now.count }
        ensures { seat.new ≡ after_touch seat.old stamp now }
    {
        let at = place(stamp);
        self.table
            .shared
            .fetch_max::<Touches>(&mut seat.inner, at, now);
    }

    /// The greatest moment, in nanoseconds, that a stamp was touched with so far, or 0.
    pub fn last(&self, seat: &mut StampSeat, stamp: u32) -> u64
        requires stamps { seat.old.stamps ≡ self.now.id }
        requires stamp { stamp < self.now.count }
        ensures own { moment_of seat.old.touched stamp ≤ result }
        ensures since { moment_of seat.old.noted stamp ≤ result }
        ensures same { seat.new ≡ after_look seat.old stamp result }
    {
        let at = place(stamp);
        self.table.shared.load::<Notes>(&mut seat.inner, at)
    }

    /// Closes the stamps with the seat that all others were joined to, which then has all parts.
    pub fn close_with(self, seat: StampSeat) -> LastStamps
        requires stamps { seat.stamps ≡ self.id }
        requires parts { seat.parts ≡ all_parts }
        ensures last { AreLast result self.count seat.touched }
        ensures noted { NoneAbove seat.noted seat.touched }
    {
        let Stamps { table, count } = self;
        let StampSeat { inner } = seat;
        LastStamps {
            closed: table.close_with(inner),
            places: places(count),
        }
    }
}
