//! All lanes at their ends.
ghost use Rattle.std.specs.Prelude.{◌≡◌, IfOk};
ghost use Rattle.std.specs.List.{AllByRecursion};
ghost use Rattle.ctl_lock.specs.Calls.{journal_of};
ghost use Rattle.replay_run.specs.Ends.{HasAsked, HasTaken, IsSeated};
ghost use Rattle.run_lanes.specs.Gathered.{HasCalled, HasCarried, HasRead, OfEach};

use ctl_lock::{CallPass, ClosedDesk, Naming};
use lane_work::LaneWork;
use list_types::NoMemory;
use run_lanes::{PacketPass, end_caller, end_worker};
use std::alloc::Global;
use std::collections::VecDeque;

/// What the controllers' lanes have done that are at their ends, the highest first.
pub fn end_callers<J: Naming>(
    alloc: Global,
    closed: &mut ClosedDesk<J>,
    passes: Vec<CallPass<J>>,
) -> Result<Vec<LaneWork>, NoMemory>
    requires ended { OfEach HasAsked 32 passes.items }
    ensures called { IfOk result (λ works. OfEach (HasCalled closed.old.told J.calls (journal_of closed.old.journal)) 32 works.items) }
    ensures read { IfOk result (λ works. OfEach (HasRead J.start closed.old.journal) 32 works.items) }
    ensures seated { IfOk result (λ works. AllByRecursion (IsSeated J.bank) works.items) }
    ensures same { closed.new ≡ closed.old }
{
    let mut passes = VecDeque::from_vec(passes);
    let mut works = Vec::new(alloc);
    'lanes: while let Some(pass) = passes.pop_front() {
        let Some(work) = end_caller(closed, pass) else {
            return Err(NoMemory);
        };
        works.push(work)?;
    }
    Ok(works)
}

/// What the workers' lanes have done that are at their ends, the highest first.
pub fn end_workers<J: Naming>(
    alloc: Global,
    closed: &mut ClosedDesk<J>,
    passes: Vec<PacketPass<J>>,
) -> Result<Vec<LaneWork>, NoMemory>
    requires ended { OfEach HasTaken 16 passes.items }
    ensures carried { IfOk result (λ works. OfEach (HasCarried closed.old.told J.items (journal_of closed.old.journal)) 16 works.items) }
    ensures seated { IfOk result (λ works. AllByRecursion (IsSeated J.bank) works.items) }
    ensures same { closed.new ≡ closed.old }
{
    let mut passes = VecDeque::from_vec(passes);
    let mut works = Vec::new(alloc);
    'lanes: while let Some(pass) = passes.pop_front() {
        let Some(work) = end_worker(closed, pass) else {
            return Err(NoMemory);
        };
        works.push(work)?;
    }
    Ok(works)
}
