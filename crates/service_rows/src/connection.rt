//! A row: what happens on a connection.
use crate::parts::{list_of, pair_of, refusal_of, reply_of, stream_of};
use crate::text::{push_events, push_hex};
use grpc_streams::Calls;
use h2_conn::Conn;
use row_lines::NoAnswer;
use std::alloc::Global;

// A connection, the calls on it, and what has come.
#[derive(Drop)]
struct Link {
    conn: Conn,
    calls: Calls,
}

fn feed(alloc: Global, link: &mut Link, piece: &[u8], out: &mut String) -> Result<(), NoAnswer> {
    let (events, code) = link.conn.feed(alloc, piece)?;
    for event in events.into_vec() {
        let given = link.calls.event(alloc, event)?;
        push_events(alloc, out, given.as_slice())?;
    }
    if let Some(code) = code {
        let number = code.number();
        write!(out, "code:{number} ")?;
    }
    Ok(())
}

fn feed_each(
    alloc: Global,
    link: &mut Link,
    bytes: &[u8],
    out: &mut String,
) -> Result<(), NoAnswer> {
    for byte in bytes {
        feed(alloc, link, &[*byte], out)?;
    }
    Ok(())
}

fn reply(alloc: Global, link: &mut Link, word: &str) -> Result<(), NoAnswer> {
    let (stream, rest) = pair_of(word)?;
    let stream = stream_of(stream)?;
    let reply = reply_of(alloc, rest)?;
    link.calls
        .spell_reply(alloc, stream, &reply, &mut link.conn)?;
    Ok(())
}

fn refuse(alloc: Global, link: &mut Link, word: &str) -> Result<(), NoAnswer> {
    let (stream, refusal) = pair_of(word)?;
    let stream = stream_of(stream)?;
    let refusal = refusal_of(refusal)?;
    link.calls
        .spell_refusal(alloc, stream, refusal, &mut link.conn)?;
    Ok(())
}

fn end(alloc: Global, link: &mut Link, word: &str) -> Result<(), NoAnswer> {
    let stream = stream_of(word)?;
    link.calls.spell_end(alloc, stream, &mut link.conn)?;
    Ok(())
}

fn send(alloc: Global, link: &mut Link, word: &str) -> Result<(), NoAnswer> {
    let message = list_of(alloc, word)?;
    link.calls.spell_message(alloc, message, &mut link.conn)?;
    Ok(())
}

fn step(alloc: Global, link: &mut Link, word: &str, out: &mut String) -> Result<(), NoAnswer> {
    let Some((verb, rest)) = word.split_once('=') else {
        return Err(NoAnswer);
    };
    match verb {
        "feed" => {
            let bytes = list_of(alloc, rest)?;
            feed(alloc, link, bytes.as_slice(), out)
        }
        "each" => {
            let bytes = list_of(alloc, rest)?;
            feed_each(alloc, link, bytes.as_slice(), out)
        }
        "reply" => reply(alloc, link, rest),
        "refuse" => refuse(alloc, link, rest),
        "end" => end(alloc, link, rest),
        "message" => send(alloc, link, rest),
        _ => Err(NoAnswer),
    }
}

fn push_channel(out: &mut String, channel: Option<u32>) -> Result<(), NoAnswer> {
    match channel {
        None => out.push_str("channel=- sent=")?,
        Some(stream) => write!(out, "channel={stream} sent=")?,
    }
    Ok(())
}

/// What comes and what is sent on the connection of a row.
pub fn answer(alloc: Global, steps: &str, out: &mut String) -> Result<(), NoAnswer> {
    let mut link = Link {
        conn: Conn::new(alloc)?,
        calls: Calls::new(alloc),
    };
    for word in steps.split(' ') {
        step(alloc, &mut link, word, out)?;
    }
    push_channel(out, link.calls.channel())?;
    let sent = link.conn.take_output(alloc);
    push_hex(alloc, out, sent.as_slice())?;
    Ok(())
}
