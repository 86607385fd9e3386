//! What waits on streams goes out.
ghost use Rattle.std.specs.Prelude.{◌≡◌, ◌+◌, ◌-◌, ◌≤◌, ◌<◌, ◌^◌, ℕ, List, [], ◌∷◌, ◌++◌, true, false, min, nat_lt, length, take, drop, OnOk, IfOk, Some, None, if◌then◌else◌, MatchOption};
ghost use Rattle.h2_streams.specs.Streams.{window_of, spent};
ghost use Rattle.h2_streams.specs.Sending.{with_data, with_block, allowance, ended_if, drained_from, drained, flushed, GoesOut};
ghost use Rattle.h2_streams.specs.declared.stream.Waiting.TheVariants as waitings;

use crate::outgoing::Outgoing;
use crate::stream::{Message, Stream, Waiting};
use list_types::NoMemory;
use std::alloc::Global;

fn allowance(outgoing: &Outgoing, stream: &Stream) -> usize
    ensures { result ≡ allowance outgoing.now stream.now }
{
    let window = stream.window(outgoing.initial_window());
    u64::from(outgoing.window()).min(window) as usize
}

// Sends the first bytes of a message.
fn send_front(
    alloc: Global,
    outgoing: &mut Outgoing,
    stream: &mut Stream,
    message: &Message,
    count: usize,
) -> Result<(), NoMemory>
    requires { (count ≤ length message.now) × (count ≤ allowance outgoing.old stream.old) }
    ensures { OnOk result ((outgoing.new ≡ with_data stream.old.number (take count message.now) outgoing.old) × (stream.new ≡ spent count stream.old)) }
{
    let _window = outgoing.window();
    stream.spend(outgoing.initial_window(), count as u32);
    outgoing.send_data(alloc, stream.number, message.front(count))
}

// Sends a message as far as the windows allow, and gives what is left of it.
fn send_message(
    alloc: Global,
    outgoing: &mut Outgoing,
    stream: &mut Stream,
    message: Message,
) -> Result<Option<Waiting>, NoMemory>
    ensures { IfOk result (λ rest. GoesOut (waitings.Data message) outgoing.old stream.old outgoing.new stream.new rest) }
{
    let allowance = allowance(outgoing, stream);
    if allowance < message.len() {
        let mut message = message;
        send_front(alloc, outgoing, stream, &message, allowance)?;
        message.advance(allowance);
        return Ok(Some(Waiting::Data(message)));
    }
    let count = message.len();
    send_front(alloc, outgoing, stream, &message, count)?;
    Ok(None)
}

fn end_if(stream: &mut Stream, end_stream: bool)
    ensures { stream.new ≡ ended_if end_stream stream.old }
{
    if end_stream {
        stream.ended = true;
    }
}

// Sends what waits first, and gives what is left of it.
fn send_first(
    alloc: Global,
    outgoing: &mut Outgoing,
    stream: &mut Stream,
    first: Waiting,
) -> Result<Option<Waiting>, NoMemory>
    ensures { IfOk result (λ rest. GoesOut first outgoing.old stream.old outgoing.new stream.new rest) }
{
    match first {
        Waiting::Data(message) => send_message(alloc, outgoing, stream, message),
        Waiting::Headers { block, end_stream } => {
            outgoing.send_block(alloc, stream.number, end_stream, block.as_slice())?;
            end_if(stream, end_stream);
            Ok(None)
        }
    }
}

/// Sends what waits on a stream, in its order, as far as the windows allow.
pub fn drain(alloc: Global, outgoing: &mut Outgoing, stream: &mut Stream) -> Result<(), NoMemory>
    ensures { OnOk result ((outgoing.new, stream.new) ≡ drained outgoing.old stream.old) }
{
    for _ in 0..stream.waiting.len() {
        let Some(first) = stream.waiting.next() else {
            return Ok(());
        };
        let rest = send_first(alloc, outgoing, stream, first)?;
        if let Some(rest) = rest {
            return stream.waiting.put_back(rest);
        }
    }
    Ok(())
}

/// Sends what waits on the streams, by their order, as far as the windows allow.
pub fn flush(
    alloc: Global,
    outgoing: &mut Outgoing,
    streams: &mut Vec<Stream>,
) -> Result<(), NoMemory>
    ensures { OnOk result ((outgoing.new, streams.new.items) ≡ flushed outgoing.old streams.old.items) }
{
    for place in 0..streams.len() {
        drain(alloc, outgoing, &mut streams[place])?;
    }
    Ok(())
}
