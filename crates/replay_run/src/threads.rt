//! The lanes of a run on threads, each to its end.
ghost use Rattle.std.specs.Prelude.{◌≡◌, IfOk, MatchResult};
ghost use Rattle.replay_run.specs.Opening.{IsAsker, IsTaker};
ghost use Rattle.replay_run.specs.Ends.{EndsAsking, EndsTaking, HasAsked, HasTaken};
ghost use Rattle.run_lanes.specs.Gathered.{OfEach};

use ctl_lock::{CallPass, Naming, TapeDesk};
use list_types::NoMemory;
use run_lanes::{Gate, PacketPass, ask_all, take_all};
use std::alloc::Global;
use std::sync::Wait;
use std::thread::{Threads, join, map_vec};

// Each controller's lane makes its calls, on a thread of its own.
fn ask_each<
    J: Naming + Send + Sync,
    T: Threads + Wait + Sync,
    R: Wait + Drop + Send + Sync,
    G: Gate + Sync,
>(
    rt: &T,
    desk: &TapeDesk<J, R>,
    gate: &G,
    passes: Vec<CallPass<J>>,
) -> Result<Vec<CallPass<J>>, NoMemory>
    requires lanes { OfEach IsAsker 32 passes.items }
    ensures ended { IfOk result (λ passes. OfEach HasAsked 32 passes.items) }
{
    let Ok(ended) = map_vec(
        rt,
        passes,
        &|pass: CallPass<J>| -> CallPass<J>
            ensures { EndsAsking pass result }
        { ask_all(rt, desk, gate, pass) },
    ) else {
        // lanes were dropped, whose calls workers may wait for
        desk.give_up();
        return Err(NoMemory);
    };
    Ok(ended)
}

// Each worker's lane takes what it was given, on a thread of its own.
fn take_each<
    J: Naming + Send + Sync,
    T: Threads + Wait + Sync,
    R: Wait + Drop + Send + Sync,
    G: Gate + Sync,
>(
    rt: &T,
    alloc: Global,
    desk: &TapeDesk<J, R>,
    gate: &G,
    passes: Vec<PacketPass<J>>,
) -> Result<Vec<PacketPass<J>>, NoMemory>
    requires lanes { OfEach IsTaker 16 passes.items }
    ensures ended { IfOk result (λ passes. OfEach HasTaken 16 passes.items) }
{
    let ended = map_vec(
        rt,
        passes,
        &|pass: PacketPass<J>| -> PacketPass<J>
            ensures { EndsTaking pass result }
        { take_all(rt, alloc, desk, gate, pass) },
    )?;
    Ok(ended)
}

// The workers' passes, on their way to the thread that starts their lanes.
#[derive(Drop)]
pub(crate) struct Takers<J: Naming> {
    passes: Vec<PacketPass<J>>,
}

// What comes back from that thread.
#[derive(Drop)]
pub(crate) struct Taken<J: Naming> {
    passes: Result<Vec<PacketPass<J>>, NoMemory>,
}

// Takes the passes as they came.
fn take_them<
    J: Naming + Send + Sync,
    T: Threads + Wait + Sync,
    R: Wait + Drop + Send + Sync,
    G: Gate + Sync,
>(rt: &T, alloc: Global, desk: &TapeDesk<J, R>, gate: &G, takers: Takers<J>) -> Taken<J>
    requires lanes { OfEach IsTaker 16 takers.passes.items }
    ensures ended { IfOk result.passes (λ passes. OfEach HasTaken 16 passes.items) }
{
    let Takers { passes } = takers;
    Taken {
        passes: take_each(rt, alloc, desk, gate, passes),
    }
}

/// The passes of all lanes: the controllers' and the workers', the highest first.
pub(crate) type Passes<J> = (Vec<CallPass<J>>, Vec<PacketPass<J>>);

/// Runs all lanes, each on a thread of its own, to their ends.
pub(crate) fn run_each<
    J: Naming + Send + Sync,
    T: Threads + Wait + Sync,
    R: Wait + Drop + Send + Sync,
    G: Gate + Sync,
>(
    rt: &T,
    alloc: Global,
    desk: &TapeDesk<J, R>,
    gate: &G,
    passes: Passes<J>,
) -> Result<Passes<J>, NoMemory>
    requires callers { OfEach IsAsker 32 passes.0.items }
    requires workers { OfEach IsTaker 16 passes.1.items }
    ensures callers { IfOk result (λ r. OfEach HasAsked 32 r.0.items) }
    ensures workers { IfOk result (λ r. OfEach HasTaken 16 r.1.items) }
{
    let (callers, workers) = passes;
    let takers = Takers { passes: workers };
    // where no thread can be made, the controllers' lanes run first: workers wait for their calls
    let (taken, asked) = join(
        rt,
        || -> Taken<J>
            requires { OfEach IsTaker 16 takers.passes.items }
            ensures { IfOk result.passes (λ passes. OfEach HasTaken 16 passes.items) }
        { take_them(rt, alloc, desk, gate, takers) },
        || -> Result<Vec<CallPass<J>>, NoMemory>
            requires { OfEach IsAsker 32 callers.items }
            ensures { IfOk result (λ passes. OfEach HasAsked 32 passes.items) }
        { ask_each(rt, desk, gate, callers) },
    );
    let Taken { passes: workers } = taken;
    let Ok(callers) = asked else {
        // where they went out of scope by themselves, all that they own would be part of this proof
        drop(workers);
        return Err(NoMemory);
    };
    let Ok(workers) = workers else {
        drop(callers);
        return Err(NoMemory);
    };
    Ok((callers, workers))
}
