//! What waits for a link.
ghost use Rattle.std.specs.Prelude.{◌≡◌, ◌≢◌, ◌<◌, ◌∷◌, [], Some};
ghost use Rattle.sw_edge.specs.Counts.{HasCause, StaysUnless};
ghost use Rattle.sw_edge.specs.Told.{Keeps};
ghost use Rattle.link_loop.specs.Doings.{Carries, more_behind, packet_given, turn_given};
ghost use Rattle.p4rt_service.specs.Turns.{Overflow};
ghost use Rattle.link_loop.specs.Steps.{DeliversOn, StepsOn, TakesOn};

use crate::ends::LinkEnd;
use crate::sending::push_served;
use crate::watch::Watch;
use p4_types::messages::StreamMessageResponse;
use p4_types::records::Output;
use p4rt_service::{Desk, Next, Service};
use std::alloc::Global;
use sw_edge::{Clock, Link, Ports};

fn more_behind(next: &Option<Next>, more: u16) -> u16
    ensures { result ≡ more_behind next.now more }
{
    match next {
        None => 0,
        Some(Next::Output(_)) => more,
        Some(Next::Message(_)) | Some(Next::Overflow) => more.saturating_sub(1),
    }
}

// Puts a packet; where the ports fail, it is lost.
fn put_output<P: Ports>(ports: &mut P, output: &Output)
    ensures put { Carries (P.sent ports.old) (P.sent ports.new) (P.faults ports.old) (P.faults ports.new) ((output.now.port, output.now.bytes) ∷ []) }
    ensures keeps_left { Keeps (P.left ports.old) (P.left ports.new) }
    ensures quiet { P.quiets ports.new ≡ P.quiets ports.old }
    ensures end { P.ends ports.new ≡ P.ends ports.old }
{
    let _sent = ports.put(output.port, output.bytes.as_slice());
}

// Sends a message for the channel.
fn deliver<L: Link>(
    alloc: Global,
    message: &StreamMessageResponse,
    link: &mut L,
    service: &mut Service,
) -> Option<LinkEnd>
    ensures takes { DeliversOn result (L.sent link.old) (L.sent link.new) service.old service.new message.now }
    ensures not_closed { result ≢ Some LinkEnd.Closed }
    ensures keeps_left { Keeps (L.left link.old) (L.left link.new) }
    ensures failed { HasCause (L.faults link.old) (L.faults link.new) (result ≡ Some LinkEnd.Fault) }
    ensures no_fault { StaysUnless (L.faults link.old) (L.faults link.new) (result ≡ Some LinkEnd.Fault) }
    ensures quiet { L.quiets link.new ≡ L.quiets link.old }
    ensures end { L.ends link.new ≡ L.ends link.old }
{
    let served = service.deliver(alloc, message);
    push_served(link, served)
}

// Closes the channel, behind which more waits than may.
fn close_channel<L: Link, D: Desk>(
    alloc: Global,
    link: &mut L,
    desk: &D,
    pass: &mut D::Pass,
    service: &mut Service,
) -> Option<LinkEnd>
    requires { D.is_of desk.now pass.old }
    ensures of { D.is_of desk.now pass.new }
    ensures takes { TakesOn D.answers result pass.old pass.new (L.sent link.old) (L.sent link.new) service.old service.new (Overflow ∷ []) }
    ensures not_closed { result ≢ Some LinkEnd.Closed }
    ensures keeps_left { Keeps (L.left link.old) (L.left link.new) }
    ensures failed { HasCause (L.faults link.old) (L.faults link.new) (result ≡ Some LinkEnd.Fault) }
    ensures no_fault { StaysUnless (L.faults link.old) (L.faults link.new) (result ≡ Some LinkEnd.Fault) }
    ensures quiet { L.quiets link.new ≡ L.quiets link.old }
    ensures end { L.ends link.new ≡ L.ends link.old }
{
    let served = service.overflow(alloc, desk, pass);
    push_served(link, served)
}

// Hands on what waited.
fn hand_on<L: Link, P: Ports, D: Desk>(
    alloc: Global,
    next: Option<Next>,
    link: &mut L,
    ports: &mut P,
    desk: &D,
    pass: &mut D::Pass,
    service: &mut Service,
) -> Option<LinkEnd>
    requires { D.is_of desk.now pass.old }
    ensures of { D.is_of desk.now pass.new }
    ensures takes { TakesOn D.answers result pass.old pass.new (L.sent link.old) (L.sent link.new) service.old service.new (turn_given next) }
    ensures not_closed { result ≢ Some LinkEnd.Closed }
    ensures put { Carries (P.sent ports.old) (P.sent ports.new) (P.faults ports.old) (P.faults ports.new) (packet_given next) }
    ensures keeps_ports { Keeps (P.left ports.old) (P.left ports.new) }
    ensures ports_quiet { P.quiets ports.new ≡ P.quiets ports.old }
    ensures ports_end { P.ends ports.new ≡ P.ends ports.old }
    ensures keeps_left { Keeps (L.left link.old) (L.left link.new) }
    ensures failed { HasCause (L.faults link.old) (L.faults link.new) (result ≡ Some LinkEnd.Fault) }
    ensures no_fault { StaysUnless (L.faults link.old) (L.faults link.new) (result ≡ Some LinkEnd.Fault) }
    ensures quiet { L.quiets link.new ≡ L.quiets link.old }
    ensures end { L.ends link.new ≡ L.ends link.old }
{
    match next {
        None => None,
        Some(Next::Output(output)) => {
            put_output(ports, &output);
            None
        }
        Some(Next::Message(message)) => deliver(alloc, &message, link, service),
        Some(Next::Overflow) => close_channel(alloc, link, desk, pass, service),
    }
}

/// Asks what waits, and hands it on.
pub(crate) fn give_next<L: Link, P: Ports, D: Desk, K: Clock>(
    alloc: Global,
    link: &mut L,
    ports: &mut P,
    desk: &D,
    pass: &mut D::Pass,
    clock: &mut K,
    service: &mut Service,
    more: &mut u16,
    watch: &mut Watch,
) -> Option<LinkEnd>
    requires of { D.is_of desk.now pass.old }
    requires asked { 0 < more.old }
    ensures of { D.is_of desk.now pass.new }
    ensures steps { StepsOn D.answers D.gives result
        (record { pass = pass.old; left = L.left link.old; quiets = L.quiets link.old; put = P.sent ports.old; faults = P.faults ports.old; moment = K.last clock.old })
        (record { pass = pass.new; left = L.left link.new; quiets = L.quiets link.new; put = P.sent ports.new; faults = P.faults ports.new; moment = K.last clock.new })
        (L.sent link.old) (L.sent link.new) service.old service.new more.old more.new watch.old watch.new }
    ensures keeps_ports { Keeps (P.left ports.old) (P.left ports.new) }
    ensures ports_quiet { P.quiets ports.new ≡ P.quiets ports.old }
    ensures ports_end { P.ends ports.new ≡ P.ends ports.old }
    ensures failed { HasCause (L.faults link.old) (L.faults link.new) (result ≡ Some LinkEnd.Fault) }
    ensures no_fault { StaysUnless (L.faults link.old) (L.faults link.new) (result ≡ Some LinkEnd.Fault) }
    ensures end { HasCause (L.ends link.old) (L.ends link.new) (result ≡ Some LinkEnd.Closed) }
    ensures no_end { StaysUnless (L.ends link.old) (L.ends link.new) (result ≡ Some LinkEnd.Closed) }
{
    let now = clock.now();
    watch.tell(now);
    let next = desk.next(alloc, pass, now);
    *more = more_behind(&next, *more);
    hand_on(alloc, next, link, ports, desk, pass, service)
}
