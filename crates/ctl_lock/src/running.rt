//! A packet that is run until there is a snapshot to run it on.
ghost use Rattle.std.specs.Prelude.{◌≡◌, ◌≤◌, length, IfSome, OnOk};
ghost use Rattle.ctl_lock.specs.Passing.{Follows, RunsAtLast, SameLane};

use counter_bank::Bank;
use lane_work::LaneWork;
use list_types::{ByteList, NoMemory, Refusal};
use pub_snap::Told;
use std::alloc::Global;
use std::sync::Wait;
use std::thread::yield_now;

/// Runs a packet, of at most 9,216 bytes, that enters at a port, as `LaneWork::run` does. Where there is no snapshot to enter
/// it asks again. The lane may keep its snapshot.
pub fn run_at_last<W: Wait>(
    rt: &W,
    alloc: Global,
    bank: &Bank,
    work: &mut LaneWork,
    port: u16,
    packet: &[u8],
) -> Result<(), NoMemory>
    requires bank { work.old.seat.bank ≡ bank.now.id }
    requires slots { work.old.told.start.slots ≤ bank.now.slots }
    requires packet { length packet.now ≤ 9216 }
    ensures ran { OnOk result (RunsAtLast port packet.now work.old work.new) }
    ensures lane { OnOk result (SameLane work.old work.new) }
{
    for _ in rt.forever() {
        match work.run(alloc, bank, port, packet) {
            Ok(()) => return Ok(()),
            Err(Refusal::NoMemory) => return Err(NoMemory),
            Err(Refusal::For(_)) => {}
        }
        yield_now();
    }
    unreachable!()
}

/// Runs the packet that a call made enter, if it made one, at a port, once the lane was told of the call. It keeps no snapshot.
pub(crate) fn run_behind<W: Wait>(
    rt: &W,
    alloc: Global,
    bank: &Bank,
    work: &mut LaneWork,
    port: u16,
    packet: Option<ByteList>,
    told: &Told,
) -> Result<(), NoMemory>
    requires bank { work.old.seat.bank ≡ bank.now.id }
    requires slots { work.old.told.start.slots ≤ bank.now.slots }
    requires packet { IfSome packet (λ packet. length packet ≤ 9216) }
    requires list { told.now.list ≡ work.old.told.list }
    ensures follows { OnOk result (Follows packet port told.now work.old work.new) }
{
    let Some(packet) = packet else {
        return Ok(());
    };
    work.learn(told);
    let ran = run_at_last(rt, alloc, bank, work, port, packet.as_slice());
    work.rest();
    ran
}
