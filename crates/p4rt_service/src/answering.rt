//! What events of the calls ask of a desk, and how that is answered.
ghost use Rattle.std.specs.Prelude.{◌≡◌, ◌&&◌, not};
ghost use Rattle.grpc_streams.specs.Taking.{is_channel, is_this};
ghost use Rattle.grpc_streams.specs.Spelling.{channel_of};
ghost use Rattle.grpc_streams.specs.declared.event.GrpcEvent.TheVariants as events;
ghost use Rattle.p4v1_read.specs.Calls.{call_of};
ghost use Rattle.p4rt_service.specs.Dialogues.{each, Held, leaves_behind, noting, Notes};
ghost use Rattle.p4rt_service.specs.Serving.{is_open, left_where, asked, is_late, event_served};
ghost use Rattle.p4rt_service.specs.declared.link.Link as declared;

use crate::desk::Desk;
use crate::link::{Link, is_open, send_reply, spell_end, spell_refusal};
use grpc_streams::{GrpcEvent, GrpcRefusal};
use list_types::{List, NoMemory};
use p4_types::calls::{Call, Method, Reply};
use p4v1_wire::read_call;
use std::alloc::Global;

// Whether the controller is still to leave behind a call.
fn leaves_behind(call: &Call, before: bool) -> bool
    ensures { result ≡ leaves_behind call.now before }
{
    match call {
        Call::Leave => false,
        Call::Stream(_) => true,
        _ => before,
    }
}

// Makes a call, and notes whether the controller is still to leave behind it.
fn ask_noting<D: Desk>(
    alloc: Global,
    call: &Call,
    desk: &D,
    pass: &mut D::Pass,
    due: &mut bool,
) -> Reply
    requires { D.is_of desk.now pass.old }
    ensures of { D.is_of desk.now pass.new }
    ensures answered { noting D.answers (pass.old, due.old) call.now result (pass.new, due.new) }
{
    *due = leaves_behind(call, *due);
    desk.ask(alloc, pass, call)
}

fn has_left(was_open: bool, link: &Link) -> bool
    ensures { result ≡ (was_open && not (is_open link.now)) }
{
    was_open && !is_open(link)
}

/// Where the channel was open and is not any more, the controller leaves.
pub(crate) fn leave_where<D: Desk>(
    alloc: Global,
    was_open: bool,
    link: &Link,
    desk: &D,
    pass: &mut D::Pass,
    due: &mut bool,
)
    requires { D.is_of desk.now pass.old }
    ensures of { D.is_of desk.now pass.new }
    ensures held { Held (noting D.answers) (pass.old, due.old) (pass.new, due.new) (left_where was_open link.now) link.now }
{
    if has_left(was_open, link) {
        let _reply = ask_noting(alloc, &Call::Leave, desk, pass, due);
    }
}

// Makes a call, and answers it on its stream.
fn ask<D: Desk>(
    alloc: Global,
    stream: u32,
    call: &Call,
    link: &mut Link,
    desk: &D,
    pass: &mut D::Pass,
    due: &mut bool,
) -> Result<(), NoMemory>
    requires { D.is_of desk.now pass.old }
    ensures of { D.is_of desk.now pass.new }
    ensures held { Notes D.answers pass.old pass.new due.old due.new result (asked stream call.now link.old) link.new }
{
    let was_open = is_open(link);
    let reply = ask_noting(alloc, call, desk, pass, due);
    send_reply(alloc, link, stream, &reply)?;
    leave_where(alloc, was_open, link, desk, pass, due);
    Ok(())
}

fn is_late(stream: u32, method: Method, link: &Link) -> bool
    ensures { result ≡ is_late stream method link.now }
{
    match method {
        Method::StreamChannel => match link.calls.channel() {
            None => true,
            Some(channel) => channel != stream,
        },
        _ => false,
    }
}

#[tactic(auto, unfolding(crate::specs::Serving::event_served))]
fn take_message<D: Desk>(
    alloc: Global,
    stream: u32,
    method: Method,
    bytes: &[u8],
    link: &mut Link,
    desk: &D,
    pass: &mut D::Pass,
    due: &mut bool,
) -> Result<(), NoMemory>
    requires { D.is_of desk.now pass.old }
    ensures of { D.is_of desk.now pass.new }
    ensures held { Notes D.answers pass.old pass.new due.old due.new result (event_served (events.Message stream method bytes.now) link.old) link.new }
{
    if is_late(stream, method, link) {
        return Ok(());
    }
    let call = read_call(alloc, method, bytes)?;
    ask(alloc, stream, &call, link, desk, pass, due)
}

// The client has ended or reset the channel.
#[tactic(auto, unfolding(crate::specs::Serving::event_served))]
fn close<D: Desk>(
    alloc: Global,
    stream: u32,
    link: &mut Link,
    desk: &D,
    pass: &mut D::Pass,
    due: &mut bool,
) -> Result<(), NoMemory>
    requires { D.is_of desk.now pass.old }
    ensures of { D.is_of desk.now pass.new }
    ensures held { Notes D.answers pass.old pass.new due.old due.new result (event_served (events.Closed stream) link.old) link.new }
{
    let _reply = ask_noting(alloc, &Call::Leave, desk, pass, due);
    spell_end(alloc, link, stream)
}

#[tactic(auto, unfolding(crate::specs::Serving::event_served))]
fn refuse<D: Desk>(
    alloc: Global,
    stream: u32,
    refusal: GrpcRefusal,
    link: &mut Link,
    desk: &D,
    pass: &mut D::Pass,
    due: &mut bool,
) -> Result<(), NoMemory>
    requires { D.is_of desk.now pass.old }
    ensures of { D.is_of desk.now pass.new }
    ensures held { Notes D.answers pass.old pass.new due.old due.new result (event_served (events.Refused stream refusal) link.old) link.new }
{
    let was_open = is_open(link);
    spell_refusal(alloc, link, stream, refusal)?;
    leave_where(alloc, was_open, link, desk, pass, due);
    Ok(())
}

fn serve_event<D: Desk>(
    alloc: Global,
    event: GrpcEvent,
    link: &mut Link,
    desk: &D,
    pass: &mut D::Pass,
    due: &mut bool,
) -> Result<(), NoMemory>
    requires { D.is_of desk.now pass.old }
    ensures of { D.is_of desk.now pass.new }
    ensures held { Notes D.answers pass.old pass.new due.old due.new result (event_served event link.old) link.new }
{
    match event {
        GrpcEvent::Message {
            stream,
            method,
            bytes,
        } => take_message(
            alloc,
            stream,
            method,
            bytes.as_slice(),
            link,
            desk,
            pass,
            due,
        ),
        GrpcEvent::Closed { stream } => close(alloc, stream, link, desk, pass, due),
        GrpcEvent::Refused { stream, refusal } => {
            refuse(alloc, stream, refusal, link, desk, pass, due)
        }
    }
}

/// What events of the calls do, one after another.
pub(crate) fn serve_events<D: Desk>(
    alloc: Global,
    events: List<GrpcEvent>,
    link: &mut Link,
    desk: &D,
    pass: &mut D::Pass,
    due: &mut bool,
) -> Result<(), NoMemory>
    requires { D.is_of desk.now pass.old }
    ensures of { D.is_of desk.now pass.new }
    ensures held { Notes D.answers pass.old pass.new due.old due.new result (each event_served events link.old) link.new }
{
    for event in events.into_vec() {
        serve_event(alloc, event, link, desk, pass, due)?;
    }
    Ok(())
}
