//! What stands in a step.
use grpc_streams::GrpcRefusal;
use list_types::{ByteList, List};
use p4_types::calls::{Notice, Reply};
use p4_types::code::Code;
use p4_types::messages::{PacketIn, StreamMessageResponse};
use row_lines::{NoAnswer, bytes};
use std::alloc::Global;

fn code_of(word: &str) -> Result<Code, NoAnswer> {
    match word.parse::<u8>()? {
        0 => Ok(Code::Ok),
        2 => Ok(Code::Unknown),
        3 => Ok(Code::InvalidArgument),
        5 => Ok(Code::NotFound),
        8 => Ok(Code::ResourceExhausted),
        9 => Ok(Code::FailedPrecondition),
        12 => Ok(Code::Unimplemented),
        14 => Ok(Code::Unavailable),
        _ => Err(NoAnswer),
    }
}

/// A refusal by its number: a code, or 415.
pub fn refusal_of(word: &str) -> Result<GrpcRefusal, NoAnswer> {
    if word == "415" {
        return Ok(GrpcRefusal::NotGrpc);
    }
    Ok(GrpcRefusal::Status(code_of(word)?))
}

/// The number of a stream.
pub fn stream_of(word: &str) -> Result<u32, NoAnswer> {
    Ok(word.parse::<u32>()?)
}

/// Two words with a colon between them.
pub fn pair_of(word: &str) -> Result<(&str, &str), NoAnswer> {
    word.split_once(':').ok_or(NoAnswer)
}

/// Bytes in hex.
pub fn list_of(alloc: Global, word: &str) -> Result<ByteList, NoAnswer> {
    Ok(ByteList::from_vec(bytes(alloc, word)?))
}

/// A PacketIn of this payload.
pub fn packet_of(alloc: Global, word: &str) -> Result<StreamMessageResponse, NoAnswer> {
    let payload = list_of(alloc, word)?;
    Ok(StreamMessageResponse::Packet(PacketIn {
        payload,
        metadata: List::new(alloc),
    }))
}

fn notice_of(alloc: Global, word: &str) -> Result<Notice, NoAnswer> {
    let (lane, payload) = word.split_once('+').ok_or(NoAnswer)?;
    let lane = lane.parse::<u16>()?;
    let message = packet_of(alloc, payload)?;
    Ok(Notice { lane, message })
}

fn messages_of(alloc: Global, word: &str) -> Result<List<ByteList>, NoAnswer> {
    let mut messages = List::new(alloc);
    if word == "-" {
        return Ok(messages);
    }
    for part in word.split(',') {
        let message = list_of(alloc, part)?;
        messages.push(message)?;
    }
    Ok(messages)
}

fn notices_of(alloc: Global, word: &str) -> Result<List<Notice>, NoAnswer> {
    let mut notices = List::new(alloc);
    if word == "-" {
        return Ok(notices);
    }
    for part in word.split(',') {
        let notice = notice_of(alloc, part)?;
        notices.push(notice)?;
    }
    Ok(notices)
}

/// A reply: its code, its messages and, behind these, the notices that it has.
pub fn reply_of(alloc: Global, word: &str) -> Result<Reply, NoAnswer> {
    let (code, rest) = pair_of(word)?;
    let code = code_of(code)?;
    let (messages, notices) = rest.split_once(':').unwrap_or((rest, "-"));
    let messages = messages_of(alloc, messages)?;
    let notices = notices_of(alloc, notices)?;
    Ok(Reply {
        code,
        messages,
        notices,
        steps: 0,
        packet: None,
    })
}
