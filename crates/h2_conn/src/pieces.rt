//! Pieces of the bytes that come, however they are cut.
ghost use Rattle.std.specs.Prelude.{◌≡◌, ◌≤◌, ◌<◌, ◌++◌, true, length, take, OnOk};
ghost use Rattle.h2_conn.specs.Bytes.{events_of, option_list, ends_of, run, IsTurn, span, Advances};
ghost use Rattle.h2_conn.specs.declared.phase.Phase.TheVariants as phases;

use crate::breach::Breach;
use crate::bytes::MAX_LENGTH;
use crate::event::{Given, H2Event};
use crate::receiver::Receiver;
use crate::unread::head_of;
use list_types::{List, NoMemory, Refusal};
use std::alloc::Global;

fn push_event(events: &mut List<H2Event>, event: Option<H2Event>) -> Result<(), NoMemory>
    ensures { OnOk result (events.new ≡ events.old ++ option_list event) }
{
    if let Some(event) = event {
        events.push(event)?;
    }
    Ok(())
}

fn push_end(events: &mut List<H2Event>, end_of: Option<u32>) -> Result<(), NoMemory>
    ensures { OnOk result (events.new ≡ events.old ++ ends_of end_of) }
{
    if let Some(stream) = end_of {
        events.push(H2Event::End { stream })?;
    }
    Ok(())
}

// What a frame gave, as events.
fn give(events: &mut List<H2Event>, given: Given) -> Result<(), NoMemory>
    ensures { OnOk result (events.new ≡ events.old ++ events_of given) }
{
    push_event(events, given.event)?;
    push_end(events, given.end_of)
}

// How many bytes of a piece are looked at together, where none are kept: a frame, if it is whole in the
// piece, and else its head.
fn count_alone(piece: &[u8]) -> usize
    requires { 0 < length piece.now }
    ensures { (0 < result) × (result ≤ length piece.now) × (length (take result piece.now) ≤ span (take result piece.now)) }
{
    let Some(head) = head_of(piece) else {
        return piece.len();
    };
    if head.length > MAX_LENGTH || piece.len() < 9 + head.length as usize {
        return 9;
    }
    9 + head.length as usize
}

// The same behind bytes that are kept.
fn count_behind(conn: &Receiver, piece: &[u8]) -> usize
    requires { 0 < length piece.now }
    ensures within { (0 < result) × (result ≤ length piece.now) }
    ensures turn { IsTurn true (conn.now.unread ++ take result piece.now) result }
{
    let kept = conn.unread_len();
    let Some(head) = conn.head() else {
        return piece.len().min(9 - kept);
    };
    if head.length > MAX_LENGTH || kept >= 9 + head.length as usize {
        return 1;
    }
    piece.len().min(9 + head.length as usize - kept)
}

/// How many bytes of a piece are looked at together.
pub(crate) fn count_of(conn: &Receiver, piece: &[u8]) -> usize
    requires { 0 < length piece.now }
    ensures within { (0 < result) × (result ≤ length piece.now) }
    ensures turn { IsTurn conn.now.greeted (conn.now.unread ++ take result piece.now) result }
{
    if !conn.greeted() {
        return 1;
    }
    if conn.unread_len() == 0 {
        return count_alone(piece);
    }
    count_behind(conn, piece)
}

/// A piece: what it makes of the connection, and the events that it gives.
pub(crate) fn advance(
    alloc: Global,
    conn: &mut Receiver,
    events: &mut List<H2Event>,
    piece: &[u8],
) -> Result<(), Refusal<Breach>>
    ensures { Advances result conn.new events.old events.new (run (phases.Open conn.old) piece.now) }
{
    let mut rest = piece;
    for _ in 0..piece.len() {
        if rest.is_empty() {
            return Ok(());
        }
        let count = count_of(conn, rest);
        let (front, after) = rest.split_at(count);
        match conn.take_front(alloc, front) {
            Ok(given) => give(events, given)?,
            Err(refusal) => return Err(refusal),
        }
        rest = after;
    }
    Ok(())
}
