//! Laws of the figures, each the contract of a function that does nothing, and what may cross threads.
ghost use Rattle.counter_bank.specs.Laws.{CountsOnePacket, NotesOneSlot, SumsEachSlot, GreaterAtEachSlot, NothingFalls};

use crate::bank::Bank;
use crate::seat::Seat;

/// A packet counts at its slot alone.
pub fn counts_one_packet()
    ensures { CountsOnePacket }
{}

/// Sums are noted at their slot alone.
pub fn notes_one_slot()
    ensures { NotesOneSlot }
{}

/// What two seats added is summed.
pub fn sums_each_slot()
    ensures { SumsEachSlot }
{}

/// Of what two seats noted the greater is kept.
pub fn greater_at_each_slot()
    ensures { GreaterAtEachSlot }
{}

/// No change lowers a figure.
pub fn nothing_falls()
    ensures { NothingFalls }
{}

fn crosses<T: Send>(_value: &T) {}

fn is_shared<T: Send + Sync>(_value: &T) {}

/// Threads share a bank by reference, and a seat goes from thread to thread.
pub fn cross_threads(bank: &Bank, seat: &Seat) {
    is_shared(bank);
    crosses(seat);
}
