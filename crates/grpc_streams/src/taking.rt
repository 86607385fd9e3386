//! What the events of a connection make of the calls on it.
ghost use Rattle.std.specs.Prelude.{◌≡◌, ◌++◌, ◌∷◌, [], map, OnOk, IfOk, if◌then◌else◌, Some};
ghost use Rattle.std.specs.Result.{is_err};
ghost use Rattle.grpc_streams.specs.Taking.{stream_at, still_read, opened, is_channel, is_this, channel_without, over, headers_taken, one_more, with_messages, kept, refusal_of, read_on, read_events, data_taken, closing, whole_call, finished, end_taken, reset_taken, taken, TakesRead};
ghost use Rattle.grpc_streams.specs.declared.event.GrpcEvent.TheVariants as events;

use crate::event::{GrpcEvent, GrpcRefusal};
use crate::requests::judged;
use crate::splitting::{Split, split_bytes};
use crate::stream::{CallStream, Received};
use crate::table::OpenCalls;
use h2_conn::H2Event;
use hpack_tables::Header;
use list_types::{ByteList, List, NoMemory};
use p4_types::calls::Method;
use p4_types::code::Code;
use std::alloc::Global;

fn opened(alloc: Global, number: u32, method: Method) -> CallStream
    ensures { result ≡ opened number method }
{
    CallStream {
        number,
        method,
        unread: ByteList::new(alloc),
        received: Received::Nothing,
        finished: false,
        begun: false,
    }
}

/// The method is the stream channel.
pub(crate) fn is_channel(method: Method) -> bool
    ensures { result ≡ is_channel method }
{
    match method {
        Method::StreamChannel => true,
        _ => false,
    }
}

fn is_this(number: u32, channel: Option<u32>) -> bool
    ensures { result ≡ is_this number channel }
{
    match channel {
        None => false,
        Some(channel) => channel == number,
    }
}

// The channel is not open any more, if it is this one.
fn close_channel(calls: &mut OpenCalls, number: u32)
    ensures { calls.new ≡ record calls.old { channel = channel_without number calls.old.channel } }
{
    if is_this(number, calls.channel) {
        calls.channel = None;
    }
}

/// The call on a stream is over.
pub(crate) fn end_call(calls: &mut OpenCalls, number: u32)
    ensures { calls.new ≡ over number calls.old }
{
    close_channel(calls, number);
    let _stream = calls.streams.take(number);
}

fn one(alloc: Global, event: GrpcEvent) -> Result<List<GrpcEvent>, NoMemory>
    ensures { IfOk result (λ list. list ≡ event ∷ []) }
{
    let mut list = List::new(alloc);
    list.push(event)?;
    Ok(list)
}

// A method is asked for.
fn open_call(
    alloc: Global,
    calls: &mut OpenCalls,
    number: u32,
    method: Method,
) -> Result<(), NoMemory>
    ensures { OnOk result (calls.new ≡ record calls.old { channel = if is_channel method then Some number else calls.old.channel; streams = calls.old.streams ++ opened number method ∷ [] }) }
{
    if is_channel(method) {
        calls.channel = Some(number);
    }
    calls.streams.push(opened(alloc, number, method))
}

#[tactic(auto, unfolding(crate::specs::Taking::headers_taken))]
fn headers(
    alloc: Global,
    calls: &mut OpenCalls,
    number: u32,
    headers: &[Header],
) -> Result<List<GrpcEvent>, NoMemory>
    ensures { IfOk result (λ given. (calls.new, given) ≡ headers_taken number headers.now calls.old) }
{
    if number <= calls.greatest {
        return Ok(List::new(alloc));
    }
    calls.greatest = number;
    match judged(calls.channel, headers) {
        Err(refusal) => one(
            alloc,
            GrpcEvent::Refused {
                stream: number,
                refusal,
            },
        ),
        Ok(method) => {
            open_call(alloc, calls, number, method)?;
            Ok(List::new(alloc))
        }
    }
}

// Takes a stream out on which something more is read.
fn take_read(calls: &mut OpenCalls, number: u32) -> Option<CallStream>
    ensures { TakesRead number result calls.old calls.new }
{
    if calls.streams.get(number)?.finished {
        return None;
    }
    calls.streams.take(number)
}

fn one_more(received: Received, message: ByteList) -> Received
    ensures { result ≡ one_more received message }
{
    match received {
        Received::Nothing => Received::One(message),
        Received::One(_) | Received::More => Received::More,
    }
}

fn with_messages(received: Received, messages: List<ByteList>) -> Received
    ensures { result ≡ with_messages received messages }
{
    let mut received = received;
    for message in messages.into_vec() {
        received = one_more(received, message);
    }
    received
}

fn message_events(
    alloc: Global,
    number: u32,
    method: Method,
    messages: List<ByteList>,
) -> Result<List<GrpcEvent>, NoMemory>
    ensures { IfOk result (λ list. list ≡ map (λ message. events.Message number method message) messages) }
{
    let mut list = List::new(alloc);
    for bytes in messages.into_vec() {
        list.push(GrpcEvent::Message {
            stream: number,
            method,
            bytes,
        })?;
    }
    Ok(list)
}

// Whole messages came on a stream.
fn take_messages(
    alloc: Global,
    stream: &mut CallStream,
    number: u32,
    messages: List<ByteList>,
) -> Result<List<GrpcEvent>, NoMemory>
    ensures stream { OnOk result (stream.new ≡ record stream.old { received = if is_channel stream.old.method then stream.old.received else with_messages stream.old.received messages }) }
    ensures given { IfOk result (λ list. list ≡ (if is_channel stream.old.method then map (λ message. events.Message number stream.old.method message) messages else [])) }
{
    if is_channel(stream.method) {
        return message_events(alloc, number, stream.method, messages);
    }
    let received = std::mem::replace(&mut stream.received, Received::Nothing);
    stream.received = with_messages(received, messages);
    Ok(List::new(alloc))
}

// What is behind whole messages is kept, or refused.
fn keep(
    alloc: Global,
    stream: &mut CallStream,
    events: &mut List<GrpcEvent>,
    number: u32,
    rest: Result<ByteList, Code>,
) -> Result<(), NoMemory>
    ensures stream { OnOk result (stream.new ≡ record stream.old { unread = kept rest; finished = is_err rest }) }
    ensures events { OnOk result (events.new ≡ events.old ++ refusal_of number rest) }
{
    match rest {
        Ok(rest) => {
            stream.unread = rest;
            stream.finished = false;
            Ok(())
        }
        Err(code) => {
            stream.unread = ByteList::new(alloc);
            stream.finished = true;
            events.push(GrpcEvent::Refused {
                stream: number,
                refusal: GrpcRefusal::Status(code),
            })?;
            Ok(())
        }
    }
}

fn read(
    alloc: Global,
    stream: &mut CallStream,
    number: u32,
    split: Split,
) -> Result<List<GrpcEvent>, NoMemory>
    ensures stream { OnOk result (stream.new ≡ read_on stream.old split) }
    ensures given { IfOk result (λ list. list ≡ read_events number stream.old.method split) }
{
    let Split { messages, rest } = split;
    let mut events = take_messages(alloc, stream, number, messages)?;
    keep(alloc, stream, &mut events, number, rest)?;
    Ok(events)
}

// Takes what is kept of a stream, with these bytes behind it.
fn take_unread(
    alloc: Global,
    stream: &mut CallStream,
    bytes: ByteList,
) -> Result<ByteList, NoMemory>
    ensures bytes { IfOk result (λ list. list ≡ stream.old.unread ++ bytes) }
    ensures stream { OnOk result (stream.new ≡ record stream.old { unread = [] }) }
{
    if stream.unread.is_empty() {
        return Ok(bytes);
    }
    let mut unread = std::mem::replace(&mut stream.unread, ByteList::new(alloc));
    unread.extend_from_slice(bytes.as_slice())?;
    Ok(unread)
}

#[tactic(auto, unfolding(crate::specs::Taking::data_taken))]
fn data(
    alloc: Global,
    calls: &mut OpenCalls,
    number: u32,
    bytes: ByteList,
) -> Result<List<GrpcEvent>, NoMemory>
    ensures { IfOk result (λ given. (calls.new, given) ≡ data_taken number bytes calls.old (still_read (stream_at number calls.old.streams))) }
{
    let Some(mut stream) = take_read(calls, number) else {
        return Ok(List::new(alloc));
    };
    let unread = take_unread(alloc, &mut stream, bytes)?;
    let split = split_bytes(alloc, unread)?;
    let events = read(alloc, &mut stream, number, split)?;
    calls.streams.push(stream)?;
    Ok(events)
}

// The peer closes the channel, if it is this one.
fn closing(alloc: Global, calls: &OpenCalls, number: u32) -> Result<List<GrpcEvent>, NoMemory>
    ensures { IfOk result (λ list. list ≡ closing number calls.now) }
{
    if is_this(number, calls.channel) {
        return one(alloc, GrpcEvent::Closed { stream: number });
    }
    Ok(List::new(alloc))
}

fn whole_call(number: u32, method: Method, unread: &[u8], received: Received) -> GrpcEvent
    ensures { result ≡ whole_call number method unread.now received }
{
    match (unread, received) {
        ([], Received::One(bytes)) => GrpcEvent::Message {
            stream: number,
            method,
            bytes,
        },
        _ => GrpcEvent::Refused {
            stream: number,
            refusal: GrpcRefusal::Status(Code::InvalidArgument),
        },
    }
}

// Nothing more is read on a stream: gives what was not read as a message, and the messages.
fn finish(alloc: Global, stream: &mut CallStream) -> (ByteList, Received)
    ensures given { (result.0 ≡ stream.old.unread) × (result.1 ≡ stream.old.received) }
    ensures stream { stream.new ≡ finished stream.old }
{
    stream.finished = true;
    let unread = std::mem::replace(&mut stream.unread, ByteList::new(alloc));
    let received = std::mem::replace(&mut stream.received, Received::Nothing);
    (unread, received)
}

#[tactic(auto, unfolding(crate::specs::Taking::end_taken))]
fn end(alloc: Global, calls: &mut OpenCalls, number: u32) -> Result<List<GrpcEvent>, NoMemory>
    ensures { IfOk result (λ given. (calls.new, given) ≡ end_taken number calls.old (still_read (stream_at number calls.old.streams))) }
{
    let Some(mut stream) = take_read(calls, number) else {
        return Ok(List::new(alloc));
    };
    let method = stream.method;
    let (unread, received) = finish(alloc, &mut stream);
    let events = if is_channel(method) {
        closing(alloc, calls, number)?
    } else {
        one(
            alloc,
            whole_call(number, method, unread.as_slice(), received),
        )?
    };
    close_channel(calls, number);
    calls.streams.push(stream)?;
    Ok(events)
}

fn reset(alloc: Global, calls: &mut OpenCalls, number: u32) -> Result<List<GrpcEvent>, NoMemory>
    ensures { IfOk result (λ given. (calls.new, given) ≡ reset_taken number calls.old) }
{
    let events = closing(alloc, calls, number)?;
    end_call(calls, number);
    Ok(events)
}

/// What an event of the connection makes of the calls, and what it gives.
pub(crate) fn take_event(
    alloc: Global,
    calls: &mut OpenCalls,
    event: H2Event,
) -> Result<List<GrpcEvent>, NoMemory>
    ensures { IfOk result (λ given. (calls.new, given) ≡ taken event calls.old) }
{
    match event {
        H2Event::Headers {
            stream,
            headers: list,
        } => headers(alloc, calls, stream, list.as_slice()),
        H2Event::Data { stream, bytes } => data(alloc, calls, stream, bytes),
        H2Event::End { stream } => end(alloc, calls, stream),
        H2Event::Reset { stream } => reset(alloc, calls, stream),
    }
}
