//! The table, and the steps on it.
ghost use Rattle.std.specs.Prelude.{◌≡◌, [], IfOk};
ghost use mathlib.Core.List.{IsPrefix};
ghost use Rattle.lane_table.specs.Lanes.{new_journal, with_lane, next_of, with_entry, with_call, note_of, Agrees, NoneFrom};
ghost use Rattle.lane_table.specs.Ruling.{IsFree, IsHeld, IsAtJournal, HandAgrees, entries_of, emptied, handed, holding, in_hand};

use crate::entry::OfLane;
use crate::roles::{Appends, Claims, Compares, Hands, Law, Leaves, Notes, Role};
use crate::seats::{JournalSeat, LaneSeat, Note};
use atomic_table::{Seat, Table};
use list_types::NoMemory;
use std::alloc::Global;
use std::marker::Model;
use std::mem;

/// One word, which threads share by reference.
#[derive(Drop)]
pub struct LaneTable<E: OfLane + Drop> {
    table: Table<E, Role<E>, (), Law, Global>,
}

impl<E: OfLane + Drop> Model for LaneTable<E> {
    ghost use Rattle.std.specs.Prelude.{◌≡◌};
    ghost use Rattle.lane_table.specs.Lanes.{LaneTableId};

    ghost Value = { LaneTableId };

    ghost view = { λ t. t.table.shared.table_id };

    ghost invariant = { λ t. t.table.shared.table_id.words ≡ 1 };
}

impl<E: OfLane + Drop> LaneTable<E> {
    /// A table of which no lane is claimed, with the seat of its journal, which has no entries. No other call takes memory, and none waits.
    pub fn open(alloc: Global) -> Result<(LaneTable<E>, JournalSeat<E>), NoMemory>
        ensures { IfOk result (λ r. r.1 ≡ new_journal r.0) }
    {
        let (table, inner) = Table::of_words(alloc, &[0], &())?;
        Ok((LaneTable { table }, JournalSeat { inner }))
    }

    /// Claims the next lane.
    pub fn claim(&self, journal: &mut JournalSeat<E>) -> LaneSeat<E>
        requires { journal.old.table ≡ self.now }
        ensures journal { journal.new ≡ with_lane journal.old }
        ensures lane { result ≡ next_of journal.old }
    {
        LaneSeat {
            inner: self.table.shared.split_seat::<Claims>(&mut journal.inner),
        }
    }

    /// A note of all that the journal has.
    pub fn note(&self, journal: &mut JournalSeat<E>) -> Note<E>
        requires { journal.old.table ≡ self.now }
        ensures journal { journal.new ≡ journal.old }
        ensures note { result ≡ note_of journal.old }
    {
        Note {
            inner: self.table.shared.split_seat::<Notes>(&mut journal.inner),
        }
    }

    // The journal's seat takes in what another knows.
    fn take(&self, journal: &mut Seat<E, Role<E>>, other: Seat<E, Role<E>>)
        requires journal { (journal.old.table_id ≡ self.now) × IsFree journal.old.me }
        requires other { (other.table_id ≡ self.now) × IsHeld other.me }
        ensures { (journal.new.table_id ≡ journal.old.table_id) × (journal.new.me ≡ (holding journal.old.me.0 other.me.0, [])) }
    {
        self.table.shared.join_seat::<Hands>(journal, other);
    }

    // What the journal's seat holds, as a seat of its own.
    fn release(&self, journal: &mut Seat<E, Role<E>>) -> Seat<E, Role<E>>
        requires { (journal.old.table_id ≡ self.now) × IsAtJournal journal.old.me }
        ensures journal { (journal.new.table_id ≡ journal.old.table_id) × (journal.new.me ≡ (emptied journal.old.me.0, [])) }
        ensures other { (result.table_id ≡ journal.old.table_id) × (result.me ≡ (handed journal.old.me.0, [])) }
    {
        self.table.shared.split_seat::<Hands>(journal)
    }

    // A seat that knows nothing.
    fn blank(&self, journal: &mut Seat<E, Role<E>>) -> Seat<E, Role<E>>
        requires { (journal.old.table_id ≡ self.now) × IsFree journal.old.me }
        ensures { (journal.new.table_id ≡ journal.old.table_id) × (journal.new.me ≡ journal.old.me) }
    {
        self.table.shared.split_seat::<Leaves>(journal)
    }

    // What a seat knows is compared with the journal.
    fn compare_seat(
        &self,
        journal: &mut Seat<E, Role<E>>,
        other: Seat<E, Role<E>>,
    ) -> Seat<E, Role<E>>
        requires journal { (journal.old.table_id ≡ self.now) × IsFree journal.old.me }
        requires other { (other.table_id ≡ self.now) × IsHeld other.me }
        ensures agrees { HandAgrees E.lane (entries_of journal.old.me.0) (in_hand other.me.0) }
        ensures journal { (journal.new.table_id ≡ journal.old.table_id) × (journal.new.me ≡ journal.old.me) }
        ensures other { (result.table_id ≡ other.table_id) × (result.me ≡ other.me) }
    {
        self.take(journal, other);
        self.table.shared.load::<Compares>(journal, 0);
        self.release(journal)
    }

    /// The lane's entries are the journal's entries of this lane. So whoever has both seats knows which call of the lane is next.
    pub fn compare(&self, journal: &mut JournalSeat<E>, lane: &mut LaneSeat<E>)
        requires journal { journal.old.table ≡ self.now }
        requires lane { lane.old.table ≡ self.now }
        ensures agrees { Agrees E.lane lane.old journal.old }
        ensures same { (journal.new ≡ journal.old) × (lane.new ≡ lane.old) }
    {
        let blank = self.blank(&mut journal.inner);
        let mine = mem::replace(&mut lane.inner, blank);
        lane.inner = self.compare_seat(&mut journal.inner, mine);
    }

    /// The journal begins with the entries of the note.
    pub fn confirm(&self, journal: &mut JournalSeat<E>, note: &mut Note<E>)
        requires journal { journal.old.table ≡ self.now }
        requires note { note.old.table ≡ self.now }
        ensures begins { IsPrefix note.old.entries journal.old.entries }
        ensures same { (journal.new ≡ journal.old) × (note.new ≡ note.old) }
    {
        let blank = self.blank(&mut journal.inner);
        let known = mem::replace(&mut note.inner, blank);
        note.inner = self.compare_seat(&mut journal.inner, known);
    }

    /// No lane has entries that was not claimed.
    pub fn confirm_lanes(&self, journal: &mut JournalSeat<E>)
        requires { journal.old.table ≡ self.now }
        ensures others { NoneFrom E.lane journal.old.lanes journal.old.entries }
        ensures same { journal.new ≡ journal.old }
    {
        self.table.shared.load::<Compares>(&mut journal.inner, 0);
    }

    /// Signs a call: its entry becomes the journal's last, and the lane's. Before that the lane's entries were the journal's of this lane.
    pub fn sign(&self, journal: &mut JournalSeat<E>, lane: &mut LaneSeat<E>, entry: &E)
        requires journal { journal.old.table ≡ self.now }
        requires lane { lane.old.table ≡ self.now }
        requires entry { E.lane entry.now ≡ lane.old.number }
        ensures agreed { Agrees E.lane lane.old journal.old }
        ensures journal { journal.new ≡ with_entry journal.old entry.now }
        ensures lane { lane.new ≡ with_call lane.old entry.now }
    {
        let blank = self.blank(&mut journal.inner);
        let mine = mem::replace(&mut lane.inner, blank);
        self.take(&mut journal.inner, mine);
        self.table
            .shared
            .compare_exchange_with::<Appends>(&mut journal.inner, 0, 0, 0, entry);
        lane.inner = self.release(&mut journal.inner);
    }
}
