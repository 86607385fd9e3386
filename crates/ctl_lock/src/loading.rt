//! The figures of counters that a call sees.
ghost use Rattle.std.specs.Prelude.{◌≡◌, ◌≤◌, length, IfSome, true};
ghost use Rattle.ctl_lock.specs.Locked.{IsRead, reads};
ghost use Rattle.ctl_lock.specs.Reading.{Looks};
ghost use Rattle.snap_worker.specs.Sums.{AreSums, noted_by};

use counter_bank::Bank;
use lane_work::LaneWork;
use list_types::NoMemory;
use p4_types::calls::Call;
use snap_worker::Loaded;
use std::alloc::Global;
use switch_spec::calls::LaneCall;

/// The figures that a call sees which was read: those of so many slots, where it reads, else none. Without memory for them the
/// call is as one that could not be read.
pub(crate) fn look(
    alloc: Global,
    bank: &Bank,
    work: &mut LaneWork,
    slots: u32,
    read: Option<Call>,
) -> (Option<Call>, Loaded)
    requires bank { work.old.seat.bank ≡ bank.now.id }
    requires slots { slots ≤ bank.now.slots }
    ensures read { (call : LaneCall) → IsRead call read → IsRead call result.0 }
    ensures looks { Looks work.old work.new }
    ensures sums { AreSums result.1 (noted_by work.new.seat) }
    ensures drawn { IfSome result.0 (λ call. reads call ≡ true → length result.1 ≡ slots) }
{
    if !matches!(read, Some(Call::Read(_))) {
        return (read, Loaded::none(alloc));
    }
    match work.load(alloc, bank, slots) {
        Ok(loaded) => (read, loaded),
        Err(NoMemory) => (None, Loaded::none(alloc)),
    }
}
