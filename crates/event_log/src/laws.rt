//! Laws of legal lists, each the contract of a function that does nothing, and what may cross threads.
ghost use Rattle.event_log.specs.Laws.{GoesOn, GoesOnByOne, BeginsLegal, ComesAfter};

use crate::events::EventLog;
use crate::machine::Machine;
use crate::told::Told;

/// What is legal after a legal list goes on with it.
pub fn goes_on<E, M: Machine<E>>()
    ensures { GoesOn M.applied M.may M.start }
{}

/// An event that may come after a legal list goes on with it.
pub fn goes_on_by_one<E, M: Machine<E>>()
    ensures { GoesOnByOne M.applied M.may M.start }
{}

/// A beginning of a legal list is legal.
pub fn begins_legal<E, M: Machine<E>>()
    ensures { BeginsLegal M.applied M.may M.start }
{}

/// The state after two lists is that after the second from the state after the first.
pub fn comes_after<E, M: Machine<E>>()
    ensures { ComesAfter M.applied M.start }
{}

fn crosses<T: Send + Sync>(_value: &T) {}

/// Threads share a list and what was told of it.
pub fn cross_threads<E, M: Machine<E>>(log: &EventLog<E, M>, told: &Told<E, M>) {
    crosses(log);
    crosses(told);
}
