//! What a desk gives, in words.
use list_types::ByteList;
use mail_room::Next;
use p4_types::calls::Reply;
use p4_types::messages::StreamMessageResponse;
use p4_types::records::Fate;
use p4v1_wire::write_message;
use pkt_worker::Verdict;
use row_lines::{NoAnswer, say, tell_hex};
use std::alloc::Global;

/// Tells a number behind a word.
pub fn tell_number(word: &str, number: u64, told: &mut String) -> Result<(), NoAnswer> {
    write!(told, " {word} {number}")?;
    Ok(())
}

fn tell_message(
    alloc: Global,
    message: &StreamMessageResponse,
    told: &mut String,
) -> Result<(), NoAnswer> {
    let bytes = write_message(alloc, message)?;
    tell_hex(alloc, told, bytes.as_slice());
    Ok(())
}

/// Tells what leaves at a port.
pub fn tell_output(
    alloc: Global,
    port: u16,
    bytes: &[u8],
    told: &mut String,
) -> Result<(), NoAnswer> {
    tell_number("output", u64::from(port), told)?;
    tell_hex(alloc, told, bytes);
    Ok(())
}

fn tell_bytes(alloc: Global, word: &str, bytes: &ByteList, told: &mut String) {
    say(told, word);
    tell_hex(alloc, told, bytes.as_slice());
}

/// Tells a reply as its caller gets it.
pub fn tell_reply(alloc: Global, reply: &Reply, told: &mut String) -> Result<(), NoAnswer> {
    tell_number("code", u64::from(reply.code.number()), told)?;
    for message in reply.messages.as_slice() {
        tell_bytes(alloc, "message", message, told);
    }
    for notice in reply.notices.as_slice() {
        tell_number("notice", u64::from(notice.lane), told)?;
        tell_message(alloc, &notice.message, told)?;
    }
    if let Some(packet) = &reply.packet {
        tell_bytes(alloc, "enters", packet, told);
    }
    Ok(())
}

/// Tells what a lane is given, or that there is nothing.
pub fn tell_next(alloc: Global, next: &Option<Next>, told: &mut String) -> Result<(), NoAnswer> {
    match next {
        None => say(told, "nothing"),
        Some(Next::Overflow) => say(told, "overflow"),
        Some(Next::Message(message)) => {
            say(told, "message");
            tell_message(alloc, message, told)?;
        }
        Some(Next::Output(output)) => {
            tell_output(alloc, output.port, output.bytes.as_slice(), told)?;
        }
    }
    Ok(())
}

/// After how many steps a worker's last packet was run, and the lane of the primary of role 0 then.
#[derive(Clone, Copy)]
pub struct LastRun {
    pub steps: u64,
    pub primary: Option<u16>,
}

/// Tells after what a packet was run.
pub fn tell_run(run: LastRun, told: &mut String) -> Result<(), NoAnswer> {
    tell_number("after", run.steps, told)?;
    match run.primary {
        None => say(told, "primary -"),
        Some(lane) => tell_number("primary", u64::from(lane), told)?,
    }
    Ok(())
}

/// Tells what became of a packet.
pub fn tell_verdict(alloc: Global, verdict: &Verdict, told: &mut String) -> Result<(), NoAnswer> {
    match verdict.fate() {
        Fate::Sent => say(told, "sent"),
        Fate::Dropped(reason) => {
            let number = reason as u8;
            write!(told, " drop{number}")?;
        }
    }
    if let Some((port, bytes)) = verdict.output(0) {
        tell_output(alloc, port, bytes, told)?;
    }
    Ok(())
}
