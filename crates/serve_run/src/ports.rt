//! Packets from ports, one after another.
ghost use Rattle.std.specs.Prelude.{◌≡◌, ◌≢◌, ◌≤◌, length, IfOk, Some};
ghost use Rattle.serve_run.specs.Carrying.{Carries, leaving};
ghost use Rattle.sw_edge.specs.Counts.{HasCause, StaysUnless};
ghost use Rattle.sw_edge.specs.Told.{Appends, AppendsPrefix, IsAtEnd, Keeps};

use crate::ports_end::PortsEnd;
use list_types::NoMemory;
use live_desk::{DeskWorker, Handed, LiveDesk, Naming};
use pkt_worker::Verdict;
use std::alloc::Global;
use std::sync::Wait;
use sw_edge::{Clock, MAX_PACKET, Ports, Sent, Stop, Taken};

// Puts what a verdict makes leave, one packet after another, up to the first that fails.
fn put_outputs<P: Ports>(ports: &mut P, verdict: &Verdict) -> Sent
    ensures all { result ≡ Sent.All → Appends (P.sent ports.old) (P.sent ports.new) (leaving verdict.now) }
    ensures some { AppendsPrefix (P.sent ports.old) (P.sent ports.new) (leaving verdict.now) }
    ensures left { Keeps (P.left ports.old) (P.left ports.new) }
    ensures failed { HasCause (P.faults ports.old) (P.faults ports.new) (result ≡ Sent.Failed) }
    ensures no_fault { StaysUnless (P.faults ports.old) (P.faults ports.new) (result ≡ Sent.Failed) }
    ensures quiets { P.quiets ports.new ≡ P.quiets ports.old }
    ensures ends { P.ends ports.new ≡ P.ends ports.old }
{
    for place in 0..verdict.output_count() {
        let Some((port, bytes)) = verdict.output(place) else {
            return Sent::All;
        };
        match ports.put(port, bytes) {
            Sent::All => {}
            Sent::Failed => return Sent::Failed,
        }
    }
    Sent::All
}

// Hands on what a packet gives to controllers. All threads share the clock, so it is asked only where there is something.
fn hand_on<K: Clock, J: Naming, R: Wait + Drop>(
    alloc: Global,
    desk: &LiveDesk<J, R>,
    receiver: Option<u16>,
    verdict: &Verdict,
    clock: &mut K,
) {
    let handed = Handed::of(alloc, verdict);
    let is_nothing = handed.is_nothing();
    drop(handed);
    if !is_nothing {
        desk.deliver(receiver, verdict, clock.now());
    }
}

// The next packet, if there is one: it is run, what leaves is put, and the rest is handed to the desk. The answer is the end, if it came.
fn carry_next<P: Ports, S: Stop, K: Clock, J: Naming, R: Wait + Drop>(
    alloc: Global,
    ports: &mut P,
    stop: &mut S,
    desk: &LiveDesk<J, R>,
    worker: &mut DeskWorker<J>,
    clock: &mut K,
    buffer: &mut [u8],
    verdict: &mut Verdict,
) -> Option<PortsEnd>
    requires { MAX_PACKET ≤ length buffer.old }
    ensures room { length buffer.new ≡ length buffer.old }
    ensures carried { Carries result (P.left ports.old) (P.left ports.new) (P.sent ports.old) (P.sent ports.new) worker.old worker.new }
    ensures failed { HasCause (P.faults ports.old) (P.faults ports.new) (result ≡ Some PortsEnd.Fault) }
    ensures no_fault { StaysUnless (P.faults ports.old) (P.faults ports.new) (result ≡ Some PortsEnd.Fault) }
    ensures end { HasCause (P.ends ports.old) (P.ends ports.new) (result ≡ Some PortsEnd.Closed) }
    ensures no_end { StaysUnless (P.ends ports.old) (P.ends ports.new) (result ≡ Some PortsEnd.Closed) }
    ensures closed { result ≡ Some PortsEnd.Closed → IsAtEnd (P.left ports.new) }
    ensures stopped { HasCause (S.yeses stop.old) (S.yeses stop.new) (result ≡ Some PortsEnd.Stopped) }
    ensures not_stopped { StaysUnless (S.yeses stop.old) (S.yeses stop.new) (result ≡ Some PortsEnd.Stopped) }
    ensures memory { result ≢ Some PortsEnd.Memory }
{
    match ports.take(buffer) {
        Taken::Packet { port, len } => {
            desk.run(worker, port, &buffer[..len], verdict);
            let sent = put_outputs(ports, verdict);
            hand_on(alloc, desk, worker.receiver(), verdict, clock);
            match sent {
                Sent::All => None,
                Sent::Failed => Some(PortsEnd::Fault),
            }
        }
        Taken::Quiet if stop.asked() => Some(PortsEnd::Stopped),
        Taken::Quiet => None,
        Taken::End => Some(PortsEnd::Closed),
        Taken::Failed => Some(PortsEnd::Fault),
    }
}

// The memory that packets need.
#[derive(Drop)]
struct Room {
    buffer: Vec<u8>,
    verdict: Verdict,
}

fn open_room(alloc: Global) -> Result<Room, NoMemory>
    ensures { IfOk result (λ room. length room.buffer.items ≡ MAX_PACKET) }
{
    Ok(Room {
        buffer: Vec::from_elem(alloc, 0, MAX_PACKET)?,
        verdict: Verdict::open(alloc)?,
    })
}

// Packets, one after another, until an end comes.
fn carry_all<P: Ports, S: Stop, K: Clock, J: Naming, R: Wait + Drop, W: Wait>(
    rt: &W,
    alloc: Global,
    ports: &mut P,
    stop: &mut S,
    desk: &LiveDesk<J, R>,
    worker: &mut DeskWorker<J>,
    clock: &mut K,
    buffer: &mut [u8],
    verdict: &mut Verdict,
) -> PortsEnd
    requires { MAX_PACKET ≤ length buffer.old }
    ensures carried { Carries (Some result) (P.left ports.old) (P.left ports.new) (P.sent ports.old) (P.sent ports.new) worker.old worker.new }
    ensures failed { HasCause (P.faults ports.old) (P.faults ports.new) (result ≡ PortsEnd.Fault) }
    ensures no_fault { StaysUnless (P.faults ports.old) (P.faults ports.new) (result ≡ PortsEnd.Fault) }
    ensures end { HasCause (P.ends ports.old) (P.ends ports.new) (result ≡ PortsEnd.Closed) }
    ensures no_end { StaysUnless (P.ends ports.old) (P.ends ports.new) (result ≡ PortsEnd.Closed) }
    ensures closed { result ≡ PortsEnd.Closed → IsAtEnd (P.left ports.new) }
    ensures stopped { HasCause (S.yeses stop.old) (S.yeses stop.new) (result ≡ PortsEnd.Stopped) }
    ensures not_stopped { StaysUnless (S.yeses stop.old) (S.yeses stop.new) (result ≡ PortsEnd.Stopped) }
    ensures memory { result ≢ PortsEnd.Memory }
{
    for _ in rt.forever() {
        match carry_next(alloc, ports, stop, desk, worker, clock, buffer, verdict) {
            Some(end) => return end,
            None => {}
        }
    }
    unreachable!()
}

/// Takes packets from ports, runs each by a worker of the desk on what is published by then, puts what it makes leave, and hands to the
/// desk what it gives to controllers, until an end comes. All memory is taken before the first packet. Where no packet waits, it asks
/// whether it is to stop.
pub fn serve_ports<P: Ports, S: Stop, K: Clock, J: Naming, R: Wait + Drop, W: Wait>(
    rt: &W,
    alloc: Global,
    ports: &mut P,
    stop: &mut S,
    desk: &LiveDesk<J, R>,
    worker: &mut DeskWorker<J>,
    clock: &mut K,
) -> PortsEnd
    ensures carried { Carries (Some result) (P.left ports.old) (P.left ports.new) (P.sent ports.old) (P.sent ports.new) worker.old worker.new }
    ensures failed { HasCause (P.faults ports.old) (P.faults ports.new) (result ≡ PortsEnd.Fault) }
    ensures no_fault { StaysUnless (P.faults ports.old) (P.faults ports.new) (result ≡ PortsEnd.Fault) }
    ensures end { HasCause (P.ends ports.old) (P.ends ports.new) (result ≡ PortsEnd.Closed) }
    ensures no_end { StaysUnless (P.ends ports.old) (P.ends ports.new) (result ≡ PortsEnd.Closed) }
    ensures closed { result ≡ PortsEnd.Closed → IsAtEnd (P.left ports.new) }
    ensures stopped { HasCause (S.yeses stop.old) (S.yeses stop.new) (result ≡ PortsEnd.Stopped) }
    ensures not_stopped { StaysUnless (S.yeses stop.old) (S.yeses stop.new) (result ≡ PortsEnd.Stopped) }
    ensures memory { result ≡ PortsEnd.Memory → (worker.new ≡ worker.old) × ((ports.new ≡ ports.old) × (stop.new ≡ stop.old)) }
{
    let Ok(room) = open_room(alloc) else {
        return PortsEnd::Memory;
    };
    let Room {
        mut buffer,
        mut verdict,
    } = room;
    carry_all(
        rt,
        alloc,
        ports,
        stop,
        desk,
        worker,
        clock,
        &mut buffer,
        &mut verdict,
    )
}
