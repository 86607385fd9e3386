//! A switch that serves, from its opening to its end.
ghost use Rattle.std.specs.Prelude.{◌≡◌, ◌<◌, ◌≤◌};
ghost use Rattle.counter_bank.specs.Account.{most_slots};
ghost use Rattle.live_desk.specs.Opening.{AreParts};
ghost use Rattle.sw_edge.specs.Counts.{HasCause, StaysUnless};

use crate::callers::Callers;
use crate::clock::LentClock;
use crate::ending::ServeEnd;
use crate::hall::Hall;
use crate::link_pass::with_verdicts;
use crate::rooms::Rooms;
use crate::shared_desk::SharedDesk;
use crate::sharing::Shared;
use crate::threads::serve_net;
use core::mem::replace_with;
use live_desk::{LiveDesk, Naming, Parts, open_desk, open_parts};
use p4_types::events::Start;
use pub_snap::Publisher;
use real_net::StopFlag;
use std::alloc::Global;
use std::marker::Brand;
use std::sync::{Mutex, Wait};
use std::thread::Threads;
use sw_edge::{Clock, Net, Sent};

/// How many workers a switch that serves has at most.
pub const MOST_WORKERS: usize = 16;

/// What a switch that serves is asked for: at which port controllers connect (1 to 65,535), at which port packets come in (1 to 65,534;
/// they leave to the port above), how many workers carry them (16 where more are asked for), and with what the switch starts.
#[derive(Clone, Copy)]
pub struct Serving {
    pub port: u16,
    pub packets: u16,
    pub workers: u16,
    pub start: Start,
}

// Serves at a desk with these passes and workers.
fn serve_at<
    'a,
    D: SharedDesk + Send + Sync + Drop,
    T: Threads + Wait + Sync,
    N: Net + Drop,
    K: Clock + Send,
>(
    rt: &'a T,
    alloc: Global,
    desk: D,
    passes: Vec<D::Pass>,
    workers: Vec<D::Worker>,
    net: N,
    clock: &'a mut K,
) -> (N, ServeEnd)
    ensures end { HasCause (N.ends net) (N.ends result.0) (result.1 ≡ ServeEnd.Ended) }
    ensures no_end { StaysUnless (N.ends net) (N.ends result.0) (result.1 ≡ ServeEnd.Ended) }
    ensures failed { HasCause (N.faults net) (N.faults result.0) (result.1 ≡ ServeEnd.Fault) }
    ensures no_fault { StaysUnless (N.faults net) (N.faults result.0) (result.1 ≡ ServeEnd.Fault) }
    ensures memory { result.1 ≡ ServeEnd.Memory → N.quiets result.0 ≡ N.quiets net }
{
    let Ok(hall) = Hall::open(alloc, passes) else {
        drop(desk);
        drop(workers);
        return (net, ServeEnd::Memory);
    };
    let Ok(callers) = Callers::open(alloc) else {
        drop(desk);
        drop(workers);
        return (net, ServeEnd::Memory);
    };
    let Ok(rooms) = Rooms::open(alloc) else {
        drop(desk);
        drop(workers);
        return (net, ServeEnd::Memory);
    };
    let shared = Shared {
        rt,
        alloc,
        desk,
        hall,
        callers,
        rooms,
        clock: Mutex::new(LentClock::new(clock)),
        stop: StopFlag::new(),
    };
    let (net, end) = serve_net(&shared, net, workers);
    let Shared {
        rt,
        alloc: _,
        desk,
        hall,
        callers: _callers,
        rooms: _rooms,
        clock: _,
        stop: _,
    } = shared;
    desk.close(rt, hall.into_passes());
    (net, end)
}

// Serves under the names of one desk.
fn serve_desk<J: Naming + Send + Sync, T: Threads + Wait + Sync, N: Net + Drop, K: Clock + Send>(
    rt: &T,
    alloc: Global,
    start: Start,
    publisher: Publisher<&T>,
    parts: Parts,
    net: N,
    clock: &mut K,
) -> (N, ServeEnd)
    requires start { start ≡ J.start }
    requires parts { AreParts start publisher parts }
    requires list { publisher.told.list ≡ J.list }
    requires bank { parts.bank.id ≡ J.bank }
    requires table { parts.table ≡ J.table }
    ensures end { HasCause (N.ends net) (N.ends result.0) (result.1 ≡ ServeEnd.Ended) }
    ensures no_end { StaysUnless (N.ends net) (N.ends result.0) (result.1 ≡ ServeEnd.Ended) }
    ensures failed { HasCause (N.faults net) (N.faults result.0) (result.1 ≡ ServeEnd.Fault) }
    ensures no_fault { StaysUnless (N.faults net) (N.faults result.0) (result.1 ≡ ServeEnd.Fault) }
    ensures memory { result.1 ≡ ServeEnd.Memory → N.quiets result.0 ≡ N.quiets net }
{
    let Ok((desk, (passes, workers))) = open_desk::<J, &T>(rt, alloc, start, publisher, parts)
    else {
        return (net, ServeEnd::Memory);
    };
    let Ok(passes) = with_verdicts(alloc, passes) else {
        drop(desk);
        drop(workers);
        return (net, ServeEnd::Memory);
    };
    serve_at::<LiveDesk<J, &T>, T, N, K>(rt, alloc, desk, passes, workers, net, clock)
}

// Listens, opens the desk, and serves.
fn listen_and_serve<T: Threads + Wait + Sync, N: Net + Drop, K: Clock + Send>(
    rt: &T,
    alloc: Global,
    serving: Serving,
    net: N,
    clock: &mut K,
) -> (N, ServeEnd)
    requires slots { (0 < serving.start.slots) × (serving.start.slots ≤ most_slots) }
    ensures end { HasCause (N.ends net) (N.ends result.0) (result.1 ≡ ServeEnd.Ended) }
    ensures no_end { StaysUnless (N.ends net) (N.ends result.0) (result.1 ≡ ServeEnd.Ended) }
    ensures failed { HasCause (N.faults net) (N.faults result.0) (result.1 ≡ ServeEnd.Fault) }
    ensures no_fault { StaysUnless (N.faults net) (N.faults result.0) (result.1 ≡ ServeEnd.Fault) }
    ensures memory { result.1 ≡ ServeEnd.Memory → N.quiets result.0 ≡ N.quiets net }
{
    let mut net = net;
    if let Sent::Failed = net.listen(serving.port, serving.packets) {
        return (net, ServeEnd::Fault);
    }
    let workers = usize::from(serving.workers).min(MOST_WORKERS);
    let Ok((publisher, parts)) = open_parts(rt, alloc, &serving.start, workers) else {
        return (net, ServeEnd::Memory);
    };
    serve_desk::<Brand, T, N, K>(rt, alloc, serving.start, publisher, parts, net, clock)
}

/// Serves controllers and packets of a net until it ends or fails (P4Runtime 1.3.0, "P4Runtime Service"): it listens, and each link is
/// served on a thread of its own by the pass of the lowest of the 32 lanes that serve none, beside the workers, at most 16, of which
/// each carries the packets of ports of its own. A link that comes while all lanes serve one waits for a lane,
/// 128 links at most, and is closed where none is free within 10 seconds; meanwhile the link that has been
/// quiet for longest, but for 10 seconds at least, and has no channel open is asked to make room. Where no thread can be made for a
/// link, the link is closed, and where none can be made for a worker, the caller does its work at the end. It returns once all threads have ended, and waits for that; a net that never ends it serves for ever.
pub fn serve<T: Threads + Wait + Sync, N: Net + Drop, K: Clock + Send>(
    rt: &T,
    alloc: Global,
    serving: Serving,
    net: &mut N,
    clock: &mut K,
) -> ServeEnd
    // The counters have 1 to 1,048,576 slots.
    requires slots { (0 < serving.start.slots) × (serving.start.slots ≤ most_slots) }

    // The net ended in this run, and with any other answer it did not.
    ensures end { HasCause (N.ends net.old) (N.ends net.new) (result ≡ ServeEnd.Ended) }
    ensures no_end { StaysUnless (N.ends net.old) (N.ends net.new) (result ≡ ServeEnd.Ended) }

    // The net failed in this run, and with any other answer it did not.
    ensures failed { HasCause (N.faults net.old) (N.faults net.new) (result ≡ ServeEnd.Fault) }
    ensures no_fault { StaysUnless (N.faults net.old) (N.faults net.new) (result ≡ ServeEnd.Fault) }

    // There was no memory to begin with, and nothing was waited for.
    ensures memory { result ≡ ServeEnd.Memory → N.quiets net.new ≡ N.quiets net.old }
{
    replace_with(
        net,
        (rt, alloc, serving, clock),
        |net, (rt, alloc, serving, clock)| -> (N, ServeEnd)
            requires slots { (0 < serving.start.slots) × (serving.start.slots ≤ most_slots) }
            ensures end { HasCause (N.ends net) (N.ends result.0) (result.1 ≡ ServeEnd.Ended) }
            ensures no_end { StaysUnless (N.ends net) (N.ends result.0) (result.1 ≡ ServeEnd.Ended) }
            ensures failed { HasCause (N.faults net) (N.faults result.0) (result.1 ≡ ServeEnd.Fault) }
            ensures no_fault { StaysUnless (N.faults net) (N.faults result.0) (result.1 ≡ ServeEnd.Fault) }
            ensures memory { result.1 ≡ ServeEnd.Memory → N.quiets result.0 ≡ N.quiets net }
        { listen_and_serve(rt, alloc, serving, net, clock) },
    )
}
