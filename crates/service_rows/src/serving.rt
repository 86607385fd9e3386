//! A row: what happens on a link.
use crate::desk::{RowDesk, RowPass};
use crate::parts::{list_of, packet_of, reply_of};
use list_types::ByteList;
use p4rt_service::Service;
use row_lines::{NoAnswer, say, tell_hex};
use std::alloc::Global;
use std::collections::VecDeque;

// Tells the calls that were made since, of which `-` are none, and what was sent.
fn tell_sent(alloc: Global, pass: &mut RowPass, sent: &ByteList, out: &mut String) {
    if pass.told.is_empty() {
        say(out, "-");
    } else {
        say(out, &pass.told);
    }
    pass.told = String::new(alloc);
    tell_hex(alloc, out, sent.as_slice());
}

fn feed(
    alloc: Global,
    service: &mut Service,
    pass: &mut RowPass,
    piece: &[u8],
    out: &mut String,
) -> Result<(), NoAnswer> {
    let (sent, code) = service.feed(alloc, &RowDesk, pass, piece)?;
    tell_sent(alloc, pass, &sent, out);
    if let Some(code) = code {
        let number = code.number();
        write!(out, " code:{number}")?;
    }
    Ok(())
}

// Byte by byte, with all that is sent together.
fn feed_each(
    alloc: Global,
    service: &mut Service,
    pass: &mut RowPass,
    bytes: &[u8],
    out: &mut String,
) -> Result<(), NoAnswer> {
    let mut all = ByteList::new(alloc);
    for byte in bytes {
        let (sent, _) = service.feed(alloc, &RowDesk, pass, &[*byte])?;
        all.extend_from_slice(sent.as_slice())?;
    }
    tell_sent(alloc, pass, &all, out);
    Ok(())
}

fn push_reply(alloc: Global, pass: &mut RowPass, word: &str) -> Result<(), NoAnswer> {
    let reply = reply_of(alloc, word)?;
    pass.replies.push_back(reply)?;
    Ok(())
}

fn deliver(
    alloc: Global,
    service: &mut Service,
    pass: &mut RowPass,
    word: &str,
    out: &mut String,
) -> Result<(), NoAnswer> {
    let message = packet_of(alloc, word)?;
    let sent = service.deliver(alloc, &message)?;
    tell_sent(alloc, pass, &sent, out);
    Ok(())
}

fn step(
    alloc: Global,
    service: &mut Service,
    pass: &mut RowPass,
    word: &str,
    out: &mut String,
) -> Result<(), NoAnswer> {
    match word.split_once('=') {
        None => {
            let sent = service.overflow(alloc, &RowDesk, pass)?;
            tell_sent(alloc, pass, &sent, out);
            Ok(())
        }
        Some(("feed", rest)) => {
            let bytes = list_of(alloc, rest)?;
            feed(alloc, service, pass, bytes.as_slice(), out)
        }
        Some(("each", rest)) => {
            let bytes = list_of(alloc, rest)?;
            feed_each(alloc, service, pass, bytes.as_slice(), out)
        }
        Some(("reply", rest)) => push_reply(alloc, pass, rest),
        Some(("packet", rest)) => deliver(alloc, service, pass, rest, out),
        Some(_) => Err(NoAnswer),
    }
}

/// The calls and the bytes of a row.
pub fn answer(alloc: Global, steps: &str, out: &mut String) -> Result<(), NoAnswer> {
    let mut pass = RowPass {
        replies: VecDeque::new(alloc),
        told: String::new(alloc),
    };
    let mut service = Service::open(alloc, &RowDesk, &pass)?;
    for word in steps.split(' ') {
        step(alloc, &mut service, &mut pass, word, out)?;
    }
    if service.has_channel() {
        say(out, "open");
    }
    Ok(())
}
