//! Lanes at their ends.
ghost use Rattle.std.specs.Prelude.{◌≡◌, [], true, false, IfNone, IfSome};
ghost use Rattle.std.specs.List.{AllByRecursion};
ghost use Rattle.ctl_lock.specs.Calls.{journal_of};
ghost use Rattle.ctl_lock.specs.Passing.{IsOwn};
ghost use Rattle.p4_types.specs.declared.tape.Who.TheVariants.{Controller, Worker};
ghost use Rattle.pub_snap.specs.Beginnings.{Begins};
ghost use Rattle.run_lanes.specs.Gathered.{HasCalled, HasCarried, HasRead, IsThrough};

use crate::packets::PacketPass;
use ctl_lock::{CallPass, ClosedDesk, Met, Naming};
use lane_work::LaneWork;

// The lane is told of the whole list, with which all that it knew goes on to its end.
fn learn_all<J: Naming>(closed: &ClosedDesk<J>, work: &mut LaneWork)
    requires list { work.old.told.list ≡ J.list }
    requires start { work.old.told.start ≡ J.start }
    ensures told { Begins work.new.told closed.now.told }
    ensures own { Begins work.old.told work.new.told }
    ensures others { work.new ≡ record work.old { told = work.new.told } }
{
    work.learn(closed.told());
    let _events = work.told().len();
}

/// What a controller's lane has done that is at its end, once its calls were found to be those of the journal; none where it
/// found no memory.
pub fn end_caller<J: Naming>(closed: &mut ClosedDesk<J>, pass: CallPass<J>) -> Option<LaneWork>
    requires ended { pass.failed ≡ false → pass.todo ≡ [] }
    ensures called { IfSome result (HasCalled closed.old.told J.calls (journal_of closed.old.journal) pass.lane) }
    ensures reading { IfSome result (HasRead J.start closed.old.journal pass.lane) }
    ensures own { IfSome result (IsOwn J.list J.start J.bank (Controller pass.lane)) }
    ensures none { IfNone result (pass.failed ≡ true) }
    ensures same { closed.new ≡ closed.old }
{
    let mut pass = pass;
    closed.agree(&mut pass);
    let mut work = pass.into_work()?;
    learn_all(closed, &mut work);
    Some(work)
}

// Each call that a worker met is in the journal, and the steps through it were told.
fn confirm_all<J: Naming>(closed: &mut ClosedDesk<J>, mets: Vec<Met<J>>)
    ensures through { AllByRecursion (IsThrough (journal_of closed.old.journal)) mets.items }
    ensures same { closed.new ≡ closed.old }
{
    let mut mets = mets;
    'mets: while let Some(mut met) = mets.pop() {
        closed.confirm(&mut met);
    }
}

/// What a worker's lane has done that is at its end, once the calls that it met were found in the journal; none where it found
/// no memory.
pub fn end_worker<J: Naming>(closed: &mut ClosedDesk<J>, pass: PacketPass<J>) -> Option<LaneWork>
    requires ended { pass.failed ≡ false → pass.todo ≡ [] }
    ensures carried { IfSome result (HasCarried closed.old.told J.items (journal_of closed.old.journal) pass.lane) }
    ensures own { IfSome result (IsOwn J.list J.start J.bank (Worker pass.lane)) }
    ensures none { IfNone result (pass.failed ≡ true) }
    ensures same { closed.new ≡ closed.old }
{
    let (mets, mut work) = pass.into_work()?;
    confirm_all(closed, mets);
    learn_all(closed, &mut work);
    Some(work)
}
