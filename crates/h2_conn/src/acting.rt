//! What a whole frame does.
ghost use Rattle.std.specs.Prelude.{◌≡◌, ◌+◌, ◌≤◌, ◌||◌, OnOk, Ok, Err, length, take, drop};
ghost use Rattle.h2_frames.specs.Reading.{head_at};
ghost use Rattle.h2_streams.specs.Streams.{stream_at, received, changed, swept};
ghost use Rattle.h2_conn.specs.Frames.{Takes, given, window_given, data_of, reset_taken, acted, frame_taken};

use crate::event::{Given, H2Event, nothing};
use crate::headers::{continuation, given, headers};
use crate::placing::{is_misplaced, judged};
use crate::settings::{grant_connection, grant_stream, ping, settings};
use crate::state::{HeaderBlock, State};
use crate::unread::Unread;
use h2_frames::{Frame, H2Code, Head, ends_headers, read_payload};
use h2_streams::Outgoing;
use list_types::{ByteList, NoMemory, Refusal};
use std::alloc::Global;

#[tactic(auto, unfolding(crate::specs::Frames::window_given))]
fn give_window(
    alloc: Global,
    outgoing: &mut Outgoing,
    count: u32,
    stream: u32,
    has_ended: bool,
) -> Result<(), NoMemory>
    ensures { OnOk result (outgoing.new ≡ window_given count stream has_ended outgoing.old) }
{
    if count == 0 {
        return Ok(());
    }
    outgoing.send_window_update(alloc, 0, count)?;
    if has_ended {
        return Ok(());
    }
    outgoing.send_window_update(alloc, stream, count)
}

// DATA, whose payload has so many bytes.
#[tactic(auto, unfolding(crate::specs::Frames::data_of))]
fn data(
    alloc: Global,
    conn: &mut State,
    count: u32,
    number: u32,
    end_stream: bool,
    bytes: ByteList,
) -> Result<Given, Refusal<H2Code>>
    ensures { Takes result conn.old conn.new (data_of count number end_stream bytes conn.old (stream_at number conn.old.streams)) }
{
    let Some(stream) = conn.streams.get(number) else {
        return Err(Refusal::For(H2Code::StreamClosed));
    };
    if stream.peer_ended {
        return Err(Refusal::For(H2Code::StreamClosed));
    }
    if stream.receive_window < count {
        return Err(Refusal::For(H2Code::FlowControlError));
    }
    let ended = stream.ended;
    conn.streams.receive(number, count, end_stream);
    conn.streams.sweep();
    give_window(
        alloc,
        &mut conn.outgoing,
        count,
        number,
        end_stream || ended,
    )?;
    let event = H2Event::Data {
        stream: number,
        bytes,
    };
    Ok(given(ended, event, end_stream, number))
}

#[tactic(auto, unfolding(crate::specs::Frames::reset_taken))]
fn reset(conn: &mut State, number: u32) -> Given
    ensures { (conn.new, result) ≡ reset_taken number conn.old (stream_at number conn.old.streams) }
{
    let Some(stream) = conn.streams.get(number) else {
        return nothing();
    };
    let ended = stream.ended;
    conn.streams.reset(number);
    conn.streams.sweep();
    given(ended, H2Event::Reset { stream: number }, false, number)
}

#[tactic(auto, unfolding(crate::specs::Frames::acted))]
fn act(alloc: Global, conn: &mut State, count: u32, frame: Frame) -> Result<Given, Refusal<H2Code>>
    ensures { Takes result conn.old conn.new (acted count frame conn.old) }
{
    match frame {
        Frame::Data {
            stream,
            end_stream,
            data: bytes,
        } => data(alloc, conn, count, stream, end_stream, bytes),
        Frame::Headers {
            stream,
            end_stream,
            end_headers,
            priority: _,
            field_block_fragment,
        } => {
            let block = HeaderBlock {
                stream,
                end_stream,
                fragment: field_block_fragment,
            };
            headers(alloc, conn, end_headers, block)
        }
        Frame::RstStream { stream, .. } => Ok(reset(conn, stream)),
        Frame::Settings {
            ack,
            settings: list,
        } => settings(alloc, conn, ack, list.as_slice()),
        Frame::Ping { ack, opaque_data } => {
            ping(alloc, conn, ack, opaque_data)?;
            Ok(nothing())
        }
        Frame::WindowUpdate {
            stream,
            window_size_increment,
        } => {
            if stream == 0 {
                return grant_connection(alloc, conn, window_size_increment);
            }
            grant_stream(alloc, conn, stream, window_size_increment)
        }
        Frame::Continuation {
            end_headers,
            field_block_fragment,
            ..
        } => continuation(alloc, conn, end_headers, field_block_fragment.as_slice()),
        Frame::PushPromise { .. } => Err(Refusal::For(H2Code::ProtocolError)),
        Frame::Priority { .. } | Frame::GoAway { .. } | Frame::Unknown { .. } => Ok(nothing()),
    }
}

// CONTINUATION, whose payload goes to the end of the header block.
#[tactic(auto, using(crate::proofs::HeaderSteps::continuing))]
fn take_continuation(
    alloc: Global,
    conn: &mut State,
    head: &Head,
    payload: &[u8],
) -> Result<Given, Refusal<H2Code>>
    requires { head.now.kind ≡ 9 }
    ensures { Takes result conn.old conn.new (frame_taken head.now payload.now conn.old) }
{
    if is_misplaced(head, conn) || head.stream == 0 {
        return Err(Refusal::For(H2Code::ProtocolError));
    }
    continuation(alloc, conn, ends_headers(head), payload)
}

/// What a frame of this head and payload does. The payload is copied at most once.
#[tactic(auto, unfolding(crate::specs::Frames::frame_taken))]
pub(crate) fn take_frame(
    alloc: Global,
    conn: &mut State,
    head: &Head,
    payload: &[u8],
) -> Result<Given, Refusal<H2Code>>
    requires { length payload.now ≡ head.now.length }
    ensures { Takes result conn.old conn.new (frame_taken head.now payload.now conn.old) }
{
    if head.kind == 9 {
        return take_continuation(alloc, conn, head, payload);
    }
    let misplaced = is_misplaced(head, conn);
    let frame = judged(misplaced, read_payload(alloc, head, payload))?;
    act(alloc, conn, head.length, frame)
}

/// The same of a frame that came in pieces, the first of the bytes that are given away.
#[tactic(auto, unfolding(crate::specs::Frames::frame_taken))]
pub(crate) fn take_gathered_frame(
    alloc: Global,
    conn: &mut State,
    head: &Head,
    unread: Unread,
) -> Result<Given, Refusal<H2Code>>
    requires first { head.now ≡ head_at (take 9 unread) }
    requires whole { 9 + head.now.length ≤ length unread }
    ensures { Takes result conn.old conn.new (frame_taken head.now (take head.now.length (drop 9 unread)) conn.old) }
{
    let misplaced = is_misplaced(head, conn);
    let frame = judged(misplaced, unread.into_frame(alloc, head))?;
    act(alloc, conn, head.length, frame)
}
