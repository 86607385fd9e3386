//! A link, from its first byte to its end.
ghost use Rattle.std.specs.Prelude.{◌≡◌, ◌<◌, ◌≤◌, true, length, Some, IfOk, IfSome, IsTrue};
ghost use Rattle.sw_edge.specs.Counts.{HasCause, StaysUnless};
ghost use Rattle.sw_edge.specs.Told.{Keeps};
ghost use Rattle.p4rt_service.specs.Turns.{opened, is_to_leave};
ghost use Rattle.p4rt_service.specs.declared.standing.Standing.TheVariants as standings;
ghost use Rattle.link_loop.specs.Courses.{IsServed, Leaves};
ghost use Rattle.link_loop.specs.Steps.{StepsOn, LastsOn, GreetsOn, is_given_up};

use crate::ends::LinkEnd;
use crate::giving::give_next;
use crate::pulling::{pull_once, serve_piece};
use crate::room::Room;
use crate::sending::say_goodbye;
use crate::watch::Watch;
use crate::{MOST_MESSAGES, PULL_BYTES};
use list_types::NoMemory;
use p4_types::calls::Call;
use p4rt_service::{Desk, Service};
use std::alloc::Global;
use std::sync::Wait;
use sw_edge::{Clock, Link, Ports};

// Asks what waits, as long as more is to be asked for, else pulls.
fn step<L: Link, P: Ports, D: Desk, K: Clock>(
    alloc: Global,
    link: &mut L,
    ports: &mut P,
    desk: &D,
    pass: &mut D::Pass,
    clock: &mut K,
    service: &mut Service,
    buffer: &mut [u8],
    more: &mut u16,
    watch: &mut Watch,
) -> Option<LinkEnd>
    requires of { D.is_of desk.now pass.old }
    requires room { 0 < length buffer.old }
    ensures of { D.is_of desk.now pass.new }
    ensures steps { StepsOn D.answers D.gives result
        (record { pass = pass.old; left = L.left link.old; quiets = L.quiets link.old; put = P.sent ports.old; faults = P.faults ports.old; moment = K.last clock.old })
        (record { pass = pass.new; left = L.left link.new; quiets = L.quiets link.new; put = P.sent ports.new; faults = P.faults ports.new; moment = K.last clock.new })
        (L.sent link.old) (L.sent link.new) service.old service.new more.old more.new watch.old watch.new }
    ensures keeps_ports { Keeps (P.left ports.old) (P.left ports.new) }
    ensures ports_quiet { P.quiets ports.new ≡ P.quiets ports.old }
    ensures ports_end { P.ends ports.new ≡ P.ends ports.old }
    ensures failed { HasCause (L.faults link.old) (L.faults link.new) (result ≡ Some LinkEnd.Fault) }
    ensures no_fault { StaysUnless (L.faults link.old) (L.faults link.new) (result ≡ Some LinkEnd.Fault) }
    ensures end { HasCause (L.ends link.old) (L.ends link.new) (result ≡ Some LinkEnd.Closed) }
    ensures no_end { StaysUnless (L.ends link.old) (L.ends link.new) (result ≡ Some LinkEnd.Closed) }
{
    if *more > 0 {
        return give_next(alloc, link, ports, desk, pass, clock, service, more, watch);
    }
    *more = MOST_MESSAGES;
    pull_once(alloc, link, desk, pass, service, buffer, watch)
}

// Since when nothing has come, if that is long and no channel is open.
fn quiet_since(watch: &Watch, service: &Service) -> Option<u64>
    ensures { IfSome result (λ since. is_given_up watch.now service.now ≡ true) }
{
    if watch.is_quiet() && !service.has_channel() {
        return watch.since;
    }
    None
}

// The time for what a client says first has passed, or it is long since anything came and there is to be room; and no channel is open.
fn is_given_up<O: Room>(watch: &Watch, service: &Service, room: &mut O) -> bool
    ensures { IsTrue result → is_given_up watch.now service.now ≡ true }
{
    let since = quiet_since(watch, service);
    let is_wanted = room.is_wanted(since);
    if since.is_some() && is_wanted {
        return true;
    }
    watch.is_unopened() && !service.has_channel()
}

// Step by step, to the end.
fn go_on<L: Link, P: Ports, D: Desk, K: Clock, O: Room, W: Wait>(
    rt: &W,
    alloc: Global,
    link: &mut L,
    ports: &mut P,
    desk: &D,
    pass: &mut D::Pass,
    clock: &mut K,
    room: &mut O,
    service: &mut Service,
    buffer: &mut [u8],
) -> LinkEnd
    requires of { D.is_of desk.now pass.old }
    requires room { 0 < length buffer.old }
    ensures of { D.is_of desk.now pass.new }
    ensures lasts { LastsOn D.answers D.gives result
        (record { pass = pass.old; left = L.left link.old; quiets = L.quiets link.old; put = P.sent ports.old; faults = P.faults ports.old; moment = K.last clock.old })
        (record { pass = pass.new; left = L.left link.new; quiets = L.quiets link.new; put = P.sent ports.new; faults = P.faults ports.new; moment = K.last clock.new })
        (L.sent link.old) (L.sent link.new) service.old service.new }
    ensures keeps_ports { Keeps (P.left ports.old) (P.left ports.new) }
    ensures ports_quiet { P.quiets ports.new ≡ P.quiets ports.old }
    ensures ports_end { P.ends ports.new ≡ P.ends ports.old }
    ensures failed { HasCause (L.faults link.old) (L.faults link.new) (result ≡ LinkEnd.Fault) }
    ensures no_fault { StaysUnless (L.faults link.old) (L.faults link.new) (result ≡ LinkEnd.Fault) }
    ensures end { HasCause (L.ends link.old) (L.ends link.new) (result ≡ LinkEnd.Closed) }
    ensures no_end { StaysUnless (L.ends link.old) (L.ends link.new) (result ≡ LinkEnd.Closed) }
{
    let mut more = MOST_MESSAGES;
    let mut watch = Watch::new();
    for _ in rt.forever() {
        match step(
            alloc, link, ports, desk, pass, clock, service, buffer, &mut more, &mut watch,
        ) {
            Some(end) => return end,
            None => {}
        }
        if is_given_up(&watch, service, room) {
            return say_goodbye(link);
        }
    }
    unreachable!()
}

// Sends what a server sends first, and goes on.
fn greet_and_go_on<L: Link, P: Ports, D: Desk, K: Clock, O: Room, W: Wait>(
    rt: &W,
    alloc: Global,
    link: &mut L,
    ports: &mut P,
    desk: &D,
    pass: &mut D::Pass,
    clock: &mut K,
    room: &mut O,
    service: &mut Service,
    buffer: &mut [u8],
) -> LinkEnd
    requires of { D.is_of desk.now pass.old }
    requires room { 0 < length buffer.old }
    ensures of { D.is_of desk.now pass.new }
    ensures lasts { GreetsOn D.answers D.gives result
        (record { pass = pass.old; left = L.left link.old; quiets = L.quiets link.old; put = P.sent ports.old; faults = P.faults ports.old; moment = K.last clock.old })
        (record { pass = pass.new; left = L.left link.new; quiets = L.quiets link.new; put = P.sent ports.new; faults = P.faults ports.new; moment = K.last clock.new })
        (L.sent link.old) (L.sent link.new) service.old service.new }
    ensures keeps_ports { Keeps (P.left ports.old) (P.left ports.new) }
    ensures ports_quiet { P.quiets ports.new ≡ P.quiets ports.old }
    ensures ports_end { P.ends ports.new ≡ P.ends ports.old }
    ensures failed { HasCause (L.faults link.old) (L.faults link.new) (result ≡ LinkEnd.Fault) }
    ensures no_fault { StaysUnless (L.faults link.old) (L.faults link.new) (result ≡ LinkEnd.Fault) }
    ensures end { HasCause (L.ends link.old) (L.ends link.new) (result ≡ LinkEnd.Closed) }
    ensures no_end { StaysUnless (L.ends link.old) (L.ends link.new) (result ≡ LinkEnd.Closed) }
{
    match serve_piece(alloc, &[], link, desk, pass, service) {
        Some(end) => end,
        None => go_on(
            rt, alloc, link, ports, desk, pass, clock, room, service, buffer,
        ),
    }
}

// The controller leaves, where it is still to.
fn leave<D: Desk>(alloc: Global, desk: &D, pass: &mut D::Pass, service: &Service)
    requires { D.is_of desk.now pass.old }
    ensures of { D.is_of desk.now pass.new }
    ensures leaves { Leaves D.answers (is_to_leave service.now) pass.old pass.new }
{
    if service.has_channel() {
        let _reply = desk.ask(alloc, pass, &Call::Leave);
    }
}

// The buffer that bytes are pulled into, and the service.
fn open<D: Desk>(alloc: Global, desk: &D, pass: &D::Pass) -> Result<(Vec<u8>, Service), NoMemory>
    ensures buffer { IfOk result (λ x. length x.0.items ≡ PULL_BYTES) }
    ensures service { IfOk result (λ x. x.1 ≡ standings.Serving (opened (D.lane_of pass.now))) }
{
    let buffer = vec![in alloc; 0u8; PULL_BYTES]?;
    let service = Service::open(alloc, desk, pass)?;
    Ok((buffer, service))
}

/// Serves a controller's connection to its end, by the calls of one pass of a desk, and tells how it ended. All that is
/// sent, asked and put is what the calls of the link, the desk, the ports and the clock make it, as the contract says. A
/// packet at which the ports fail is lost, and the link goes on. A client whose preface and first frame are not whole 10 seconds
/// behind the first moment that the clock told is sent GOAWAY, and its link ends; so is one from which nothing has come for 10 seconds
/// and that has no channel open, where it is to make room. Behind whatever end, the controller leaves where its
/// channel is open. A pull is of at most 16,384 bytes; the moments are nanoseconds.
pub fn serve_link<L: Link, P: Ports, D: Desk, K: Clock, O: Room, W: Wait>(
    rt: &W,
    alloc: Global,
    link: &mut L,
    ports: &mut P,
    desk: &D,
    pass: &mut D::Pass,
    clock: &mut K,
    room: &mut O,
) -> LinkEnd
    requires { D.is_of desk.now pass.old }
    ensures of { D.is_of desk.now pass.new }
    ensures served { IsServed D.answers D.gives (D.lane_of pass.old) result
        (record { pass = pass.old; left = L.left link.old; quiets = L.quiets link.old; put = P.sent ports.old; faults = P.faults ports.old; moment = K.last clock.old })
        (record { pass = pass.new; left = L.left link.new; quiets = L.quiets link.new; put = P.sent ports.new; faults = P.faults ports.new; moment = K.last clock.new })
        (L.sent link.old) (L.sent link.new) }
    ensures keeps_ports { Keeps (P.left ports.old) (P.left ports.new) }
    ensures ports_quiet { P.quiets ports.new ≡ P.quiets ports.old }
    ensures ports_end { P.ends ports.new ≡ P.ends ports.old }
    ensures failed { HasCause (L.faults link.old) (L.faults link.new) (result ≡ LinkEnd.Fault) }
    ensures no_fault { StaysUnless (L.faults link.old) (L.faults link.new) (result ≡ LinkEnd.Fault) }
    ensures end { HasCause (L.ends link.old) (L.ends link.new) (result ≡ LinkEnd.Closed) }
    ensures no_end { StaysUnless (L.ends link.old) (L.ends link.new) (result ≡ LinkEnd.Closed) }
{
    let Ok(opened) = open(alloc, desk, pass) else {
        return LinkEnd::Memory;
    };
    let (mut buffer, mut service) = opened;
    let end = greet_and_go_on(
        rt,
        alloc,
        link,
        ports,
        desk,
        pass,
        clock,
        room,
        &mut service,
        &mut buffer,
    );
    leave(alloc, desk, pass, &service);
    end
}
