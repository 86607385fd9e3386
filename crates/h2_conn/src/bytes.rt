//! Frames from bytes.
ghost use Rattle.std.specs.Prelude.{◌≡◌, ◌+◌, ◌≤◌, ◌<◌, ◌++◌, [], true, length, take, drop, MatchOption};
ghost use Rattle.h2_frames.specs.Reading.{head_at};
ghost use Rattle.h2_conn.specs.Frames.{frame_taken};
ghost use Rattle.h2_conn.specs.Bytes.{last_stream, settled_by, preface_taken, frame_bytes_taken, waiting_for_more, bytes_taken, Settles, Looks};

use crate::acting::{take_frame, take_gathered_frame};
use crate::breach::Breach;
use crate::event::{Given, nothing};
use crate::state::State;
use crate::unread::{Unread, head_of};
use h2_frames::{H2Code, Head};
use list_types::Refusal;
use std::alloc::Global;

// The bytes with which a client begins (RFC 9113, section 3.4).
const PREFACE: &[u8] = b"PRI * HTTP/2.0\r\n\r\nSM\r\n\r\n";

/// The longest payload, in bytes.
pub(crate) const MAX_LENGTH: u32 = 16_384;

// The bytes of the preface that have come.
#[tactic(auto, unfolding(crate::specs::Bytes::preface_taken))]
fn take_preface(alloc: Global, conn: &mut State) -> Result<Given, Refusal<Breach>>
    ensures { Settles result conn.old conn.new (preface_taken conn.old.unread conn.old) }
{
    let bytes = conn.unread.joined(alloc)?;
    if !PREFACE.starts_with(bytes.as_slice()) {
        return Err(Refusal::For(Breach {
            code: H2Code::ProtocolError,
            last_stream: conn.greatest,
        }));
    }
    if bytes.len() == 24 {
        conn.greeted = true;
        conn.unread = Unread::new(alloc);
    }
    Ok(nothing())
}

fn last_stream(head: &Head, conn: &State) -> u32
    ensures { result ≡ last_stream head.now conn.now }
{
    if head.kind == 1 {
        return conn.greatest.max(head.stream);
    }
    conn.greatest
}

// A frame of this head and payload.
fn take_whole(
    alloc: Global,
    conn: &mut State,
    head: &Head,
    payload: &[u8],
) -> Result<Given, Refusal<Breach>>
    requires { length payload.now ≡ head.now.length }
    ensures { Settles result conn.old conn.new (settled_by (last_stream head.now conn.old) (frame_taken head.now payload.now conn.old)) }
{
    let last_stream = last_stream(head, conn);
    match take_frame(alloc, conn, head, payload) {
        Ok(given) => Ok(given),
        Err(Refusal::NoMemory) => Err(Refusal::NoMemory),
        Err(Refusal::For(code)) => Err(Refusal::For(Breach { code, last_stream })),
    }
}

fn take_payload(
    alloc: Global,
    conn: &mut State,
    head: &Head,
    payload: &[u8],
) -> Result<Given, Refusal<Breach>>
    requires { length payload.now ≡ head.now.length }
    ensures { Settles result conn.old conn.new (settled_by (last_stream head.now conn.old) (frame_taken head.now payload.now (record conn.old { unread = [] }))) }
{
    conn.unread = Unread::new(alloc);
    take_whole(alloc, conn, head, payload)
}

// A frame at the front of bytes behind the preface, if it is whole.
#[tactic(auto, unfolding(crate::specs::Bytes::frame_bytes_taken))]
fn look(alloc: Global, conn: &mut State, bytes: &[u8]) -> Result<Option<Given>, Refusal<Breach>>
    ensures { Looks result conn.old conn.new bytes.now }
{
    let Some(head) = head_of(bytes) else {
        return Ok(None);
    };
    if head.length > MAX_LENGTH {
        return Err(Refusal::For(Breach {
            code: H2Code::FrameSizeError,
            last_stream: conn.greatest,
        }));
    }
    let length = head.length as usize;
    if bytes.len() < 9 + length {
        return Ok(None);
    }
    let (_, behind) = bytes.split_at(9);
    let (payload, _) = behind.split_at(length);
    Ok(Some(take_payload(alloc, conn, &head, payload)?))
}

// A frame that was gathered.
fn take_gathered(
    alloc: Global,
    conn: &mut State,
    head: &Head,
    unread: Unread,
) -> Result<Given, Refusal<Breach>>
    requires first { head.now ≡ head_at (take 9 unread) }
    requires whole { 9 + head.now.length ≤ length unread }
    ensures { Settles result conn.old conn.new (settled_by (last_stream head.now conn.old) (frame_taken head.now (take head.now.length (drop 9 unread)) conn.old)) }
{
    let last_stream = last_stream(head, conn);
    match take_gathered_frame(alloc, conn, head, unread) {
        Ok(given) => Ok(given),
        Err(Refusal::NoMemory) => Err(Refusal::NoMemory),
        Err(Refusal::For(code)) => Err(Refusal::For(Breach { code, last_stream })),
    }
}

// A frame behind the preface of which the bytes are kept, if it is whole.
#[tactic(auto, unfolding(crate::specs::Bytes::frame_bytes_taken))]
fn take_frame_kept(alloc: Global, conn: &mut State) -> Result<Given, Refusal<Breach>>
    ensures { Settles result conn.old conn.new (frame_bytes_taken conn.old.unread conn.old) }
{
    let Some(head) = conn.unread.head() else {
        return Ok(nothing());
    };
    if head.length > MAX_LENGTH {
        return Err(Refusal::For(Breach {
            code: H2Code::FrameSizeError,
            last_stream: conn.greatest,
        }));
    }
    let length = head.length as usize;
    if conn.unread.len() < 9 + length {
        return Ok(nothing());
    }
    let unread = std::mem::replace(&mut conn.unread, Unread::new(alloc));
    take_gathered(alloc, conn, &head, unread)
}

/// The bytes that are kept, once more of them have come.
pub(crate) fn take_kept(alloc: Global, conn: &mut State) -> Result<Given, Refusal<Breach>>
    ensures { Settles result conn.old conn.new (bytes_taken conn.old.unread conn.old) }
{
    if !conn.greeted {
        return take_preface(alloc, conn);
    }
    take_frame_kept(alloc, conn)
}

/// The front of a piece, where no bytes are kept. A frame that is whole in it is not kept.
pub(crate) fn take_alone(
    alloc: Global,
    conn: &mut State,
    front: &[u8],
) -> Result<Given, Refusal<Breach>>
    requires { (conn.old.greeted ≡ true) × (conn.old.unread ≡ []) }
    ensures { Settles result conn.old conn.new (bytes_taken front.now conn.old) }
{
    match look(alloc, conn, front)? {
        Some(given) => Ok(given),
        None => {
            conn.unread.extend_from_slice(front)?;
            Ok(nothing())
        }
    }
}
