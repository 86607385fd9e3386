//! What events of the connection do.
ghost use Rattle.std.specs.Prelude.{◌≡◌, ◌≤◌, ◌<◌, length, take, OnOk, IfOk};
ghost use Rattle.h2_conn.specs.Bytes.{run, AreQuietToLast};
ghost use Rattle.p4rt_service.specs.Dialogues.{each, Notes};
ghost use Rattle.p4rt_service.specs.Serving.{calls_after, given_by, event_taken};

use crate::answering::serve_events;
use crate::desk::Desk;
use crate::link::Link;
use grpc_streams::GrpcEvent;
use h2_conn::H2Event;
use list_types::{List, NoMemory};
use std::alloc::Global;

// What an event of the connection gives of calls.
fn give(alloc: Global, event: H2Event, link: &mut Link) -> Result<List<GrpcEvent>, NoMemory>
    ensures link { OnOk result (link.new ≡ record link.old { calls = calls_after event link.old.calls }) }
    ensures given { IfOk result (λ events. events ≡ given_by event link.old.calls) }
{
    link.calls.event(alloc, event)
}

fn take_event<D: Desk>(
    alloc: Global,
    event: H2Event,
    link: &mut Link,
    desk: &D,
    pass: &mut D::Pass,
    due: &mut bool,
) -> Result<(), NoMemory>
    requires { D.is_of desk.now pass.old }
    ensures of { D.is_of desk.now pass.new }
    ensures held { Notes D.answers pass.old pass.new due.old due.new result (event_taken event link.old) link.new }
{
    let events = give(alloc, event, link)?;
    serve_events(alloc, events, link, desk, pass, due)
}

/// What events of the connection do, one after another.
pub(crate) fn take_events<D: Desk>(
    alloc: Global,
    events: List<H2Event>,
    link: &mut Link,
    desk: &D,
    pass: &mut D::Pass,
    due: &mut bool,
) -> Result<(), NoMemory>
    requires { D.is_of desk.now pass.old }
    ensures of { D.is_of desk.now pass.new }
    ensures held { Notes D.answers pass.old pass.new due.old due.new result (each event_taken events link.old) link.new }
{
    for event in events.into_vec() {
        take_event(alloc, event, link, desk, pass, due)?;
    }
    Ok(())
}

/// What the next bytes of a piece give of the connection, and how many these are. Only the last of them
/// gives anything.
pub(crate) fn read_some(
    alloc: Global,
    piece: &[u8],
    link: &mut Link,
) -> Result<(usize, List<H2Event>), NoMemory>
    ensures within { IfOk result (λ x. (x.0 ≤ length piece.now) × (0 < length piece.now → 0 < x.0)) }
    ensures link { IfOk result (λ x. link.new ≡ record link.old { conn = (run link.old.conn (take x.0 piece.now)).0 }) }
    ensures given { IfOk result (λ x. x.1 ≡ (run link.old.conn (take x.0 piece.now)).1) }
    ensures quiet { IfOk result (λ x. AreQuietToLast link.old.conn (take x.0 piece.now)) }
{
    let (used, events, _) = link.conn.feed_some(alloc, piece)?;
    Ok((used, events))
}
