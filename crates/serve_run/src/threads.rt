//! The threads of a switch that serves.
ghost use Rattle.std.specs.Prelude.{◌≡◌, ◌≢◌, ◌≤◌};
ghost use Rattle.sw_edge.specs.Counts.{HasCause, StaysUnless};

use crate::accepting::{Came, next_link};
use crate::clock::ThreadClock;
use crate::ending::ServeEnd;
use crate::shared_desk::{LanePass, SharedDesk};
use crate::sharing::{Caller, Carrier, Shared, carry_packets, give_up_caller, serve_caller};
use crate::waiting::{WaitingLink, WaitingLinks};
use std::sync::Wait;
use std::thread::{Scope, Threads, scope, scope_env, yield_now};
use sw_edge::{Clock, Link, Net, Opened, Ports};

// Serves a link by a pass on a thread of its own. Where no thread can be made, the link is closed.
fn serve_beside<
    's,
    'e,
    D: SharedDesk + Send + Sync,
    R: Threads + Wait + Drop + Send + Sync,
    C: Clock + Drop + Send,
    L: Link + Send + Drop,
    P: Ports + Send + Drop,
>(
    threads: &'s Scope<'s, &'e ()>,
    shared: &'e Shared<D, D::Pass, R, C, L, P>,
    pass: D::Pass,
    waiting: WaitingLink<L, P>,
)
where
    D::Pass: 'e,
    D::Worker: 'e,
    L: 'e,
    P: 'e,
{
    let place = pass.place();
    let WaitingLink {
        came: _,
        link,
        ports,
    } = waiting;
    let caller = Caller { pass, link, ports };
    shared.callers.put(&shared.rt, place, caller);
    match threads.spawn(move || serve_caller(shared, place)) {
        Ok(thread) => drop(thread),
        Err(_) => give_up_caller(shared, place),
    }
}

// Serves the links that wait, in the order in which they came, each by the pass of the lowest lane that serves none, as long as there is
// one. Those that have waited too long by now are closed.
fn seat_links<
    's,
    'e,
    D: SharedDesk + Send + Sync,
    R: Threads + Wait + Drop + Send + Sync,
    C: Clock + Drop + Send,
    L: Link + Send + Drop,
    P: Ports + Send + Drop,
>(
    threads: &'s Scope<'s, &'e ()>,
    shared: &'e Shared<D, D::Pass, R, C, L, P>,
    links: &mut WaitingLinks<L, P>,
    now: u64,
)
where
    D::Pass: 'e,
    D::Worker: 'e,
    L: 'e,
    P: 'e,
{
    for _ in 0..links.len() {
        let Some(pass) = shared.hall.take(&shared.rt) else {
            break;
        };
        match links.take() {
            Some(waiting) => {
                shared.rooms.seat();
                serve_beside(threads, shared, pass, waiting);
            }
            None => shared.hall.give(&shared.rt, pass),
        }
    }
    links.close_late(now);
    shared.rooms.wait(links.len());
}

// Serves the links that wait until none does.
fn seat_all<
    's,
    'e,
    D: SharedDesk + Send + Sync,
    R: Threads + Wait + Drop + Send + Sync,
    C: Clock + Drop + Send,
    L: Link + Send + Drop,
    P: Ports + Send + Drop,
>(
    threads: &'s Scope<'s, &'e ()>,
    shared: &'e Shared<D, D::Pass, R, C, L, P>,
    links: &mut WaitingLinks<L, P>,
    clock: &mut ThreadClock<'e, C, R>,
)
where
    D::Pass: 'e,
    D::Worker: 'e,
    L: 'e,
    P: 'e,
{
    for _ in shared.rt.forever() {
        if links.len() == 0 {
            return;
        }
        seat_links(threads, shared, links, clock.now());
        yield_now();
    }
    unreachable!()
}

// Takes links as they come, each with the pass of the lowest lane that serves none and on a thread of its own, until the net ends or
// fails. A link that comes while all lanes serve one waits, and is closed where it finds no lane in time.
fn take_links<
    's,
    'e,
    D: SharedDesk + Send + Sync,
    R: Threads + Wait + Drop + Send + Sync,
    N: Net + Drop,
    C: Clock + Drop + Send,
>(
    threads: &'s Scope<'s, &'e ()>,
    shared: &'e Shared<D, D::Pass, R, C, N::Link, N::Ports>,
    net: &mut N,
) -> ServeEnd
where
    D::Pass: 'e,
    D::Worker: 'e,
    N::Link: 'e,
    N::Ports: 'e,
    ensures end { HasCause (N.ends net.old) (N.ends net.new) (result ≡ ServeEnd.Ended) }
    ensures no_end { StaysUnless (N.ends net.old) (N.ends net.new) (result ≡ ServeEnd.Ended) }
    ensures failed { HasCause (N.faults net.old) (N.faults net.new) (result ≡ ServeEnd.Fault) }
    ensures no_fault { StaysUnless (N.faults net.old) (N.faults net.new) (result ≡ ServeEnd.Fault) }
    ensures served { result ≢ ServeEnd.Memory }
{
    let mut links = WaitingLinks::new(shared.alloc);
    let mut clock = ThreadClock::new(&shared.rt, &shared.clock);
    for _ in shared.rt.forever() {
        match next_link(net) {
            Came::Link(link, ports) => {
                let came = clock.now();
                links.add(WaitingLink { came, link, ports });
            }
            Came::Quiet => {}
            Came::End => {
                seat_all(threads, shared, &mut links, &mut clock);
                return ServeEnd::Ended;
            }
            Came::Failed => return ServeEnd::Fault,
        }
        seat_links(threads, shared, &mut links, clock.now());
    }
    unreachable!()
}

// Takes links beside these workers, each with ports and on a thread of its own. Where no thread can be made, the worker's packets are
// carried here, behind the last link. In the end the workers are told to stop.
fn take_links_beside<
    's,
    'e,
    D: SharedDesk + Send + Sync,
    R: Threads + Wait + Drop + Send + Sync,
    N: Net + Drop,
    C: Clock + Drop + Send,
>(
    threads: &'s Scope<'s, &'e ()>,
    shared: &'e Shared<D, D::Pass, R, C, N::Link, N::Ports>,
    net: &mut N,
    workers: Vec<D::Worker>,
) -> ServeEnd
where
    D::Pass: 'e,
    D::Worker: 'e,
    N::Link: 'e,
    N::Ports: 'e,
    ensures end { HasCause (N.ends net.old) (N.ends net.new) (result ≡ ServeEnd.Ended) }
    ensures no_end { StaysUnless (N.ends net.old) (N.ends net.new) (result ≡ ServeEnd.Ended) }
    ensures failed { HasCause (N.faults net.old) (N.faults net.new) (result ≡ ServeEnd.Fault) }
    ensures no_fault { StaysUnless (N.faults net.old) (N.faults net.new) (result ≡ ServeEnd.Fault) }
    ensures served { result ≢ ServeEnd.Memory }
{
    let mut late = Vec::new(shared.alloc);
    for worker in workers {
        let Opened::Ports(ports) = net.ports() else {
            shared.stop.set();
            return ServeEnd::Fault;
        };
        let carrier = Carrier { worker, ports };
        match threads.spawn(move || carry_packets(shared, carrier)) {
            Ok(thread) => drop(thread),
            Err(refused) => {
                let _ = late.push(refused.value);
            }
        }
    }
    let end = take_links(threads, shared, net);
    shared.stop.set();
    for carry in late {
        carry();
    }
    end
}

/// Serves the links and ports of a net that listens, with these workers, until the net ends or fails and all threads have ended.
pub(crate) fn serve_net<
    'e,
    D: SharedDesk + Send + Sync,
    R: Threads + Wait + Drop + Send + Sync,
    N: Net + Drop,
    C: Clock + Drop + Send,
>(
    shared: &'e Shared<D, D::Pass, R, C, N::Link, N::Ports>,
    net: N,
    workers: Vec<D::Worker>,
) -> (N, ServeEnd)
where
    D::Pass: 'e,
    D::Worker: 'e,
    N::Link: 'e,
    N::Ports: 'e,
    ensures end { HasCause (N.ends net) (N.ends result.0) (result.1 ≡ ServeEnd.Ended) }
    ensures no_end { StaysUnless (N.ends net) (N.ends result.0) (result.1 ≡ ServeEnd.Ended) }
    ensures failed { HasCause (N.faults net) (N.faults result.0) (result.1 ≡ ServeEnd.Fault) }
    ensures no_fault { StaysUnless (N.faults net) (N.faults result.0) (result.1 ≡ ServeEnd.Fault) }
    ensures served { result.1 ≢ ServeEnd.Memory }
{
    scope(
        scope_env(),
        &shared.rt,
        move |threads| -> (N, ServeEnd)
            ensures end { HasCause (N.ends net) (N.ends result.0) (result.1 ≡ ServeEnd.Ended) }
            ensures no_end { StaysUnless (N.ends net) (N.ends result.0) (result.1 ≡ ServeEnd.Ended) }
            ensures failed { HasCause (N.faults net) (N.faults result.0) (result.1 ≡ ServeEnd.Fault) }
            ensures no_fault { StaysUnless (N.faults net) (N.faults result.0) (result.1 ≡ ServeEnd.Fault) }
            ensures served { result.1 ≢ ServeEnd.Memory }
        {
            let mut net = net;
            let end = take_links_beside(threads, shared, &mut net, workers);
            (net, end)
        },
    )
}
