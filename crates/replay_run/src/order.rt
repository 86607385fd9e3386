//! The lanes of a run on one thread, in the order of the tape.
ghost use Rattle.std.specs.Prelude.{◌≡◌, ◌<◌, map, IfOk};
ghost use Rattle.replay_run.specs.Opening.{IsAsker, IsTaker, who_of};
ghost use Rattle.run_lanes.specs.Gathered.{OfEach};

use crate::threads::Passes;
use core::mem::replace_with;
use ctl_lock::{CallPass, Naming, TapeDesk};
use list_types::NoMemory;
use p4_types::tape::{TapeRecord, Who};
use run_lanes::{PacketPass, take_next};
use std::alloc::Global;
use std::sync::Wait;

// The lane of a record.
fn who_of(record: &TapeRecord) -> Who
    ensures { result ≡ who_of record.now }
{
    match record {
        TapeRecord::Call { lane, .. } | TapeRecord::Leave { lane } => Who::Controller(*lane),
        TapeRecord::Packet { lane, .. } | TapeRecord::Meet { lane, .. } => Who::Worker(*lane),
    }
}

/// The lane of each record of a tape, in their order.
pub(crate) fn order_of(alloc: Global, tape: &[TapeRecord]) -> Result<Vec<Who>, NoMemory>
    ensures { IfOk result (λ order. order.items ≡ map who_of tape.now) }
{
    let mut order = Vec::new(alloc);
    for record in tape {
        order.push(who_of(record))?;
    }
    Ok(order)
}

fn ask<J: Naming, R: Wait + Drop, W: Wait>(
    rt: &W,
    desk: &TapeDesk<J, R>,
    pass: CallPass<J>,
) -> (CallPass<J>, ())
    ensures { result.0.lane ≡ pass.lane }
{
    let (pass, _asked) = desk.ask_next(rt, pass);
    (pass, ())
}

fn take<J: Naming, R: Wait + Drop, W: Wait>(
    rt: &W,
    alloc: Global,
    desk: &TapeDesk<J, R>,
    pass: PacketPass<J>,
) -> (PacketPass<J>, ())
    ensures { result.0.lane ≡ pass.lane }
{
    let (pass, _taken) = take_next(rt, alloc, desk, pass);
    (pass, ())
}

// A controller's lane makes its next call. The passes stand by falling lanes.
fn ask_on<J: Naming, R: Wait + Drop, W: Wait>(
    rt: &W,
    desk: &TapeDesk<J, R>,
    passes: &mut Vec<CallPass<J>>,
    lane: u16,
)
    requires lane { lane < 32 }
    requires lanes { OfEach IsAsker 32 passes.old.items }
    ensures lanes { OfEach IsAsker 32 passes.new.items }
{
    let place = 31 - lane as usize;
    replace_with(
        &mut passes[place],
        (rt, desk),
        |pass: CallPass<J>, (rt, desk): (&W, &TapeDesk<J, R>)| -> (CallPass<J>, ())
            ensures { result.0.lane ≡ pass.lane }
        { ask(rt, desk, pass) },
    );
}

// A worker's lane takes what is next for it. The passes stand by falling lanes.
fn take_on<J: Naming, R: Wait + Drop, W: Wait>(
    rt: &W,
    alloc: Global,
    desk: &TapeDesk<J, R>,
    passes: &mut Vec<PacketPass<J>>,
    lane: u16,
)
    requires lane { lane < 16 }
    requires lanes { OfEach IsTaker 16 passes.old.items }
    ensures lanes { OfEach IsTaker 16 passes.new.items }
{
    let place = 15 - lane as usize;
    replace_with(
        &mut passes[place],
        (rt, alloc, desk),
        |pass: PacketPass<J>, (rt, alloc, desk): (&W, Global, &TapeDesk<J, R>)| -> (
            PacketPass<J>,
            (),
        )
            ensures { result.0.lane ≡ pass.lane }
        { take(rt, alloc, desk, pass) },
    );
}

/// Lets the lanes go on one after the other, each by one call, packet or meet where its turn is, unless it found no memory.
pub(crate) fn follow<J: Naming, R: Wait + Drop, W: Wait>(
    rt: &W,
    alloc: Global,
    desk: &TapeDesk<J, R>,
    order: &[Who],
    passes: Passes<J>,
) -> Passes<J>
    requires callers { OfEach IsAsker 32 passes.0.items }
    requires workers { OfEach IsTaker 16 passes.1.items }
    ensures callers { OfEach IsAsker 32 result.0.items }
    ensures workers { OfEach IsTaker 16 result.1.items }
{
    let (mut callers, mut workers) = passes;
    for who in order {
        match *who {
            Who::Controller(lane) if lane < 32 => ask_on(rt, desk, &mut callers, lane),
            Who::Worker(lane) if lane < 16 => take_on(rt, alloc, desk, &mut workers, lane),
            _ => {}
        }
    }
    (callers, workers)
}
