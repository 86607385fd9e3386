//! The figures of counters that a call sees.
ghost use Rattle.std.specs.Prelude.{◌≡◌, ◌≤◌, length, IfSome, true};
ghost use Rattle.std.specs.List.{list_any};
ghost use Rattle.live_desk.specs.Sums.{HasLooked, reads_counters};
ghost use Rattle.snap_worker.specs.Sums.{AreSums, NotesOwn, noted_by};
ghost use Rattle.switch_spec.specs.Reading.{is_counter};

use counter_bank::Bank;
use p4_types::calls::Call;
use p4_types::messages::Entity;
use snap_worker::{Loaded, Worker};
use std::alloc::Global;

/// Whether counters are among what is asked for.
fn asks_counters(entities: &[Option<Entity>]) -> bool
    ensures { result ≡ list_any is_counter entities.now }
{
    for asked in entities {
        if matches!(
            asked,
            Some(Entity::CounterEntry(_) | Entity::DirectCounterEntry(_))
        ) {
            return true;
        }
    }
    false
}

/// Whether a call reads counters.
fn reads_counters(call: &Call) -> bool
    ensures { result ≡ reads_counters call.now }
{
    match call {
        Call::Read(request) => asks_counters(request.entities.as_slice()),
        _ => false,
    }
}

/// The figures that a call sees: those of so many slots, where it reads counters, else none. There are none to be had without memory for them.
pub(crate) fn look(
    alloc: Global,
    bank: &Bank,
    worker: &mut Worker,
    slots: u32,
    call: &Call,
) -> Option<Loaded>
    requires bank { worker.old.seat.bank ≡ bank.now.id }
    requires slots { slots ≤ bank.now.slots }
    ensures looked { HasLooked worker.old worker.new }
    ensures sums { IfSome result (λ loaded. AreSums loaded (noted_by worker.new.seat)) }
    ensures own { IfSome result (λ loaded. NotesOwn (length loaded) worker.new.seat) }
    ensures drawn { IfSome result (λ loaded. reads_counters call.now ≡ true → length loaded ≡ slots) }
{
    if !reads_counters(call) {
        return Some(Loaded::none(alloc));
    }
    worker.load(alloc, bank, slots).ok()
}
