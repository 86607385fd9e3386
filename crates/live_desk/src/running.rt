//! A packet that is run until there is a snapshot to run it on, and what it makes leave.
ghost use Rattle.std.specs.Prelude.{◌≡◌, ◌≤◌, ◌++◌, length, OnOk, OnErr};
ghost use Rattle.live_desk.specs.Passing.{HasRun};

use counter_bank::Bank;
use list_types::NoMemory;
use p4_types::records::Output;
use pkt_worker::Verdict;
use snap_worker::Worker;
use std::alloc::Global;
use std::collections::VecDeque;
use std::sync::Wait;
use std::thread::yield_now;

/// Runs a packet, of at most 9,216 bytes, that enters at a port. Where there is no snapshot to enter it asks again. The worker may keep
/// the snapshot.
pub(crate) fn run_at_last<R: Wait>(
    rt: &R,
    bank: &Bank,
    worker: &mut Worker,
    port: u16,
    packet: &[u8],
    verdict: &mut Verdict,
)
    requires bank { worker.old.seat.bank ≡ bank.now.id }
    requires slots { worker.old.told.start.slots ≤ bank.now.slots }
    requires packet { length packet.now ≤ 9216 }
    ensures ran { HasRun port packet.now worker.old worker.new verdict.new }
    ensures bank { worker.new.seat.bank ≡ worker.old.seat.bank }
{
    for _ in rt.forever() {
        if worker.process(bank, port, packet, verdict).is_ok() {
            return;
        }
        yield_now();
    }
    unreachable!()
}

/// The same, but that the worker keeps no snapshot.
pub(crate) fn run_alone<R: Wait>(
    rt: &R,
    bank: &Bank,
    worker: &mut Worker,
    port: u16,
    packet: &[u8],
    verdict: &mut Verdict,
)
    requires bank { worker.old.seat.bank ≡ bank.now.id }
    requires slots { worker.old.told.start.slots ≤ bank.now.slots }
    requires packet { length packet.now ≤ 9216 }
    ensures ran { HasRun port packet.now worker.old worker.new verdict.new }
    ensures bank { worker.new.seat.bank ≡ worker.old.seat.bank }
{
    run_at_last(rt, bank, worker, port, packet, verdict);
    worker.rest();
}

// Adds what leaves to what waits, or nothing without memory.
fn try_keep(
    alloc: Global,
    verdict: &Verdict,
    waiting: &mut VecDeque<Output>,
) -> Result<(), NoMemory>
    ensures kept { OnOk result (waiting.new.items ≡ waiting.old.items ++ verdict.now.outputs) }
    ensures same { OnErr result (waiting.new.items ≡ waiting.old.items) }
{
    let outputs = verdict.outputs(alloc)?;
    let mut outputs = VecDeque::from_vec(outputs.into_vec());
    match waiting.append(&mut outputs) {
        Ok(()) => Ok(()),
        Err(_) => Err(NoMemory),
    }
}

/// Adds what leaves to what waits. It asks again where there is no memory.
pub(crate) fn keep_outputs<R: Wait>(
    rt: &R,
    alloc: Global,
    verdict: &Verdict,
    waiting: &mut VecDeque<Output>,
)
    ensures { waiting.new.items ≡ waiting.old.items ++ verdict.now.outputs }
{
    for _ in rt.forever() {
        if try_keep(alloc, verdict, waiting).is_ok() {
            return;
        }
        yield_now();
    }
    unreachable!()
}
