//! The report of a run whose lanes are at their ends.
ghost use Rattle.std.specs.Prelude.{◌≡◌, ◌≤◌, ℕ, List, [], length, map, IfOk};
ghost use Rattle.std.specs.List.{AllByRecursion};
ghost use Rattle.counter_bank.specs.Account.{first_seat};
ghost use Rattle.ctl_lock.specs.Calls.{journal_of};
ghost use Rattle.p4_types.specs.declared.tape.TapeRecord.{TapeRecord};
ghost use Rattle.replay_run.specs.Ends.{IsSeated};
ghost use Rattle.replay_run.specs.Opening.{without_parts};
ghost use Rattle.replay_run.specs.Running.{IsRunReport};
ghost use Rattle.run_lanes.specs.Gathered.{HasCalled, HasCarried, HasRead, OfEach};
ghost use Rattle.run_spec.specs.Tape.{IsRecord};
ghost use Rattle.switch_spec.specs.Carrying.{made_on};
ghost use Rattle.tape_lanes.specs.Lanes.{calls_in, items_in};

use crate::counting::{Counted, join_works};
use counter_bank::Seat;
use ctl_lock::{ClosedDesk, Naming, Signed};
use lane_work::LaneWork;
use list_types::{List, NoMemory};
use p4_types::journal::{Entry, Report};
use slot_totals::{cell_lines, count_lines};
use std::alloc::Global;

// The entries of calls that were made.
fn entries(alloc: Global, journal: Vec<Signed>) -> Result<List<Entry>, NoMemory>
    ensures { IfOk result (λ entries. entries ≡ map (λ signed. signed.entry) journal.items) }
{
    let mut entries = List::new(alloc);
    for signed in journal {
        entries.push(signed.entry)?;
    }
    Ok(entries)
}

/// The report of a run, of its desk that is closed, and of what the lanes have done.
pub fn report<J: Naming>(
    alloc: Global,
    closed: ClosedDesk<J>,
    rest: Seat,
    workers: Vec<LaneWork>,
    callers: Vec<LaneWork>,
) -> Result<Report, NoMemory>
    requires slots { closed.bank.slots ≡ J.start.slots }
    requires rest { rest ≡ without_parts 48 (first_seat J.bank) }
    requires called { OfEach (HasCalled closed.told J.calls (journal_of closed.journal)) 32 callers.items }
    requires read { OfEach (HasRead J.start closed.journal) 32 callers.items }
    requires carried { OfEach (HasCarried closed.told J.items (journal_of closed.journal)) 16 workers.items }
    requires callers { AllByRecursion (IsSeated J.bank) callers.items }
    requires workers { AllByRecursion (IsSeated J.bank) workers.items }
    requires others { (lane : ℕ) → 32 ≤ lane → made_on lane (journal_of closed.journal) ≡ [] }
    ensures { (tape : List TapeRecord) → AllByRecursion IsRecord tape → length tape ≤ 1000000 → J.calls ≡ calls_in tape → J.items ≡ items_in tape → IfOk result (IsRunReport J.start tape) }
{
    let _events = closed.told().len();
    let (control, journal, bank) = closed.into_parts();
    let mut seat = rest;
    let mut records = Vec::new(alloc);
    join_works(alloc, &bank, &mut seat, &mut records, workers)?;
    join_works(alloc, &bank, &mut seat, &mut records, callers)?;
    let counted = Counted::close(bank, seat);
    let plane = control.image().active();
    Ok(Report {
        journal: entries(alloc, journal)?,
        sent: List::new(alloc),
        records: List::from_vec(records),
        counts: count_lines(alloc, plane, &counted)?,
        cells: cell_lines(alloc, plane, &counted)?,
    })
}
