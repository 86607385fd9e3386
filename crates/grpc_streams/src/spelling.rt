//! What answers make a connection send.
ghost use Rattle.std.specs.Prelude.{◌≡◌, OnOk, IfOk};
ghost use Rattle.std.specs.Option.{option_map};
ghost use Rattle.grpc_streams.specs.Answers.{explained};
ghost use Rattle.grpc_streams.specs.Taking.{stream_at};
ghost use Rattle.grpc_streams.specs.Spelling.{unsent, begun, messages_sent, completed, failed, delivered, was_begun, answered, reply_spelled, refusal_spelled, end_spelled, message_spelled, is_on_channel, is_ok, marked};

use crate::answers::{push_explained, push_status, response_headers, unsupported};
use crate::event::GrpcRefusal;
use crate::splitting::framed;
use crate::table::OpenCalls;
use crate::taking::{end_call, is_channel};
use h2_conn::Conn;
use hpack_tables::Header;
use list_types::{ByteList, List, NoMemory};
use p4_types::code::Code;
use std::alloc::Global;

// The headers of an answer, unless they were sent.
fn begin(alloc: Global, number: u32, was_begun: bool, conn: &mut Conn) -> Result<(), NoMemory>
    ensures { OnOk result (conn.new ≡ begun number was_begun conn.old) }
{
    if was_begun {
        return Ok(());
    }
    let headers = response_headers(alloc)?;
    conn.send_headers(alloc, number, headers.as_slice(), false)
}

fn unsent(alloc: Global, was_begun: bool) -> Result<List<Header>, NoMemory>
    ensures { IfOk result (λ headers. headers ≡ unsent was_begun) }
{
    if was_begun {
        return Ok(List::new(alloc));
    }
    response_headers(alloc)
}

fn send_messages(
    alloc: Global,
    number: u32,
    messages: &[ByteList],
    conn: &mut Conn,
) -> Result<(), NoMemory>
    ensures { OnOk result (conn.new ≡ messages_sent number messages.now conn.old) }
{
    for message in messages {
        let bytes = framed(alloc, message.as_slice())?;
        conn.send_data(alloc, number, bytes)?;
    }
    Ok(())
}

// An answer to its end.
fn complete(
    alloc: Global,
    number: u32,
    was_begun: bool,
    messages: &[ByteList],
    conn: &mut Conn,
) -> Result<(), NoMemory>
    ensures { OnOk result (conn.new ≡ completed number was_begun messages.now conn.old) }
{
    begin(alloc, number, was_begun, conn)?;
    send_messages(alloc, number, messages, conn)?;
    let mut trailers = List::new(alloc);
    push_status(alloc, &mut trailers, Code::Ok)?;
    conn.send_headers(alloc, number, trailers.as_slice(), true)
}

// A failure, of which these messages tell more.
fn fail(
    alloc: Global,
    number: u32,
    was_begun: bool,
    code: Code,
    messages: &[ByteList],
    conn: &mut Conn,
) -> Result<(), NoMemory>
    ensures { OnOk result (conn.new ≡ failed number was_begun code (explained messages.now) conn.old) }
{
    let mut headers = unsent(alloc, was_begun)?;
    push_status(alloc, &mut headers, code)?;
    push_explained(alloc, &mut headers, messages)?;
    conn.send_headers(alloc, number, headers.as_slice(), true)
}

// Messages of a channel.
fn deliver(
    alloc: Global,
    number: u32,
    was_begun: bool,
    messages: &[ByteList],
    conn: &mut Conn,
) -> Result<(), NoMemory>
    ensures { OnOk result (conn.new ≡ delivered number was_begun messages.now conn.old) }
{
    if messages.is_empty() {
        return Ok(());
    }
    begin(alloc, number, was_begun, conn)?;
    send_messages(alloc, number, messages, conn)
}

// Whether the headers of an answer were sent, where a call is open.
fn begun_on(calls: &OpenCalls, number: u32) -> Option<bool>
    ensures { result ≡ option_map (λ stream. stream.begun) (stream_at number calls.now.streams) }
{
    match calls.streams.get(number) {
        None => None,
        Some(stream) => Some(stream.begun),
    }
}

fn was_begun(calls: &OpenCalls, number: u32) -> bool
    ensures { result ≡ was_begun (stream_at number calls.now.streams) }
{
    match calls.streams.get(number) {
        None => false,
        Some(stream) => stream.begun,
    }
}

// The stream is a channel's.
fn is_on_channel(calls: &OpenCalls, number: u32) -> bool
    ensures { result ≡ is_on_channel (stream_at number calls.now.streams) }
{
    match calls.streams.get(number) {
        None => false,
        Some(stream) => is_channel(stream.method),
    }
}

fn is_ok(code: Code) -> bool
    ensures { result ≡ is_ok code }
{
    match code {
        Code::Ok => true,
        _ => false,
    }
}

// Messages are sent on a channel.
fn mark(calls: &mut OpenCalls, number: u32, messages: &[ByteList]) -> Result<(), NoMemory>
    ensures { OnOk result (calls.new ≡ marked number messages.now (stream_at number calls.old.streams) calls.old) }
{
    let Some(mut stream) = calls.streams.take(number) else {
        return Ok(());
    };
    stream.begun = stream.begun || !messages.is_empty();
    calls.streams.push(stream)
}

// An answer of OK.
fn answer(
    alloc: Global,
    calls: &mut OpenCalls,
    number: u32,
    messages: &[ByteList],
    conn: &mut Conn,
) -> Result<(), NoMemory>
    ensures { OnOk result ((calls.new, conn.new) ≡ answered number messages.now (stream_at number calls.old.streams) calls.old conn.old) }
{
    let was_begun = was_begun(calls, number);
    if is_on_channel(calls, number) {
        mark(calls, number, messages)?;
        return deliver(alloc, number, was_begun, messages, conn);
    }
    end_call(calls, number);
    complete(alloc, number, was_begun, messages, conn)
}

/// What a reply makes the connection send.
#[tactic(auto, unfolding(crate::specs::Spelling::reply_spelled))]
pub(crate) fn spell_reply(
    alloc: Global,
    calls: &mut OpenCalls,
    number: u32,
    code: Code,
    messages: &[ByteList],
    conn: &mut Conn,
) -> Result<(), NoMemory>
    ensures { OnOk result ((calls.new, conn.new) ≡ reply_spelled number code messages.now calls.old conn.old) }
{
    if is_ok(code) {
        return answer(alloc, calls, number, messages, conn);
    }
    let was_begun = was_begun(calls, number);
    end_call(calls, number);
    fail(alloc, number, was_begun, code, messages, conn)
}

/// What a refusal makes the connection send.
#[tactic(auto, unfolding(crate::specs::Spelling::refusal_spelled))]
pub(crate) fn spell_refusal(
    alloc: Global,
    calls: &mut OpenCalls,
    number: u32,
    refusal: GrpcRefusal,
    conn: &mut Conn,
) -> Result<(), NoMemory>
    ensures { OnOk result ((calls.new, conn.new) ≡ refusal_spelled number refusal calls.old conn.old) }
{
    let was_begun = was_begun(calls, number);
    end_call(calls, number);
    match refusal {
        GrpcRefusal::NotGrpc => {
            let headers = unsupported(alloc)?;
            conn.send_headers(alloc, number, headers.as_slice(), true)
        }
        GrpcRefusal::Status(code) => fail(alloc, number, was_begun, code, &[], conn),
    }
}

/// What the end of a channel makes the connection send.
pub(crate) fn spell_end(
    alloc: Global,
    calls: &mut OpenCalls,
    number: u32,
    conn: &mut Conn,
) -> Result<(), NoMemory>
    ensures { OnOk result ((calls.new, conn.new) ≡ end_spelled number calls.old conn.old) }
{
    let was_begun = was_begun(calls, number);
    end_call(calls, number);
    complete(alloc, number, was_begun, &[], conn)
}

/// What a message on the open channel makes the connection send.
#[tactic(auto, unfolding(crate::specs::Spelling::message_spelled))]
pub(crate) fn spell_message(
    alloc: Global,
    calls: &mut OpenCalls,
    message: ByteList,
    conn: &mut Conn,
) -> Result<(), NoMemory>
    ensures { OnOk result ((calls.new, conn.new) ≡ message_spelled message calls.old conn.old) }
{
    let Some(number) = calls.channel else {
        return Ok(());
    };
    let Some(was_begun) = begun_on(calls, number) else {
        return Ok(());
    };
    let messages = [message];
    mark(calls, number, &messages)?;
    deliver(alloc, number, was_begun, &messages, conn)
}
