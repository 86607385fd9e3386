//! HEADERS and CONTINUATION.
ghost use Rattle.std.specs.Prelude.{◌≡◌, ◌+◌, ◌-◌, ◌++◌, ◌<◌, ◌^◌, [], Some, None, Ok, Err, IfOk, OnOk};
ghost use Rattle.std.specs.Option.{option_map};
ghost use Rattle.list_types.specs.Results.{Gives};
ghost use Rattle.h2_streams.specs.declared.stream.Stream.{Stream};
ghost use Rattle.hpack_tables.specs.Blocks.{block_at};
ghost use Rattle.h2_streams.specs.Streams.{stream_at};
ghost use Rattle.h2_conn.specs.Frames.{Takes, given, decoded, headers_of, block_taken, fragment_taken, next_number, skipped_before, is_crowded, headers_taken, continuation_taken};

use crate::decoder::BlockDecoder;
use crate::event::{Given, H2Event, nothing};
use crate::state::{HeaderBlock, Skipped, State};
use h2_frames::H2Code;
use h2_streams::Stream;
use hpack_tables::{Header, HpackFault};
use list_types::{List, NoMemory, Refusal};
use std::alloc::Global;

// The number of REFUSED_STREAM.
const REFUSED_STREAM: u32 = 7;

// More open streams than this are refused.
const MAX_OPEN: usize = 100;

// A longer header block is refused, in bytes.
const MAX_BLOCK: usize = 262_144;

// So many streams are kept at most, and so many skipped runs of numbers.
const MAX_KEPT: usize = 1_000;

/// A frame gives this event and, where it ends the stream, the end; nothing where it is passed over.
pub(crate) fn given(is_passed: bool, event: H2Event, end_stream: bool, stream: u32) -> Given
    ensures { result ≡ given is_passed event end_stream stream }
{
    if is_passed {
        return nothing();
    }
    if end_stream {
        return Given {
            event: Some(event),
            end_of: Some(stream),
        };
    }
    Given {
        event: Some(event),
        end_of: None,
    }
}

#[tactic(auto, unfolding(crate::specs::Frames::decoded))]
fn code_of(fault: HpackFault) -> H2Code
    ensures { decoded (Err fault) ≡ Err result }
{
    match fault {
        HpackFault::ListTooLong => H2Code::EnhanceYourCalm,
        _ => H2Code::CompressionError,
    }
}

#[tactic(auto, unfolding(crate::specs::Frames::decoded))]
fn decode(
    alloc: Global,
    decoder: &mut BlockDecoder,
    fragment: &[u8],
) -> Result<List<Header>, Refusal<H2Code>>
    ensures { Gives (λ headers. (headers, decoder.new)) result (decoded (block_at decoder.old fragment.now)) }
{
    match decoder.block(alloc, fragment) {
        Ok(headers) => Ok(headers),
        Err(Refusal::NoMemory) => Err(Refusal::NoMemory),
        Err(Refusal::For(fault)) => Err(Refusal::For(code_of(fault))),
    }
}

// The headers of a stream that is kept.
#[tactic(auto, unfolding(crate::specs::Frames::headers_of))]
fn further_headers(
    conn: &mut State,
    block: HeaderBlock,
    headers: List<Header>,
    is_passed: bool,
) -> Given
    ensures { (stream : Stream) → is_passed ≡ stream.ended → (conn.new, result) ≡ headers_of block headers conn.old (Some stream) }
{
    conn.streams.end_by_peer(block.stream, block.end_stream);
    conn.streams.sweep();
    let event = H2Event::Headers {
        stream: block.stream,
        headers,
    };
    given(is_passed, event, block.end_stream, block.stream)
}

// The headers of a new stream.
#[tactic(auto, unfolding(crate::specs::Frames::headers_of))]
fn first_headers(
    alloc: Global,
    conn: &mut State,
    block: HeaderBlock,
    headers: List<Header>,
) -> Result<Given, NoMemory>
    ensures { IfOk result (λ given. (conn.new, given) ≡ headers_of block headers conn.old None) }
{
    let number = block.stream;
    if conn.streams.open_count() >= MAX_OPEN {
        conn.streams
            .push(Stream::open(alloc, number, block.end_stream, true))?;
        conn.streams.sweep();
        conn.outgoing.send_reset(alloc, number, REFUSED_STREAM)?;
        return Ok(nothing());
    }
    conn.streams
        .push(Stream::open(alloc, number, block.end_stream, false))?;
    let event = H2Event::Headers {
        stream: number,
        headers,
    };
    Ok(given(false, event, block.end_stream, number))
}

fn is_passed(conn: &State, number: u32) -> Option<bool>
    ensures { result ≡ option_map (λ stream. stream.ended) (stream_at number conn.now.streams) }
{
    match conn.streams.get(number) {
        Some(stream) => Some(stream.ended),
        None => None,
    }
}

// A header block that is whole.
#[tactic(auto, unfolding(crate::specs::Frames::block_taken))]
fn take_block(alloc: Global, conn: &mut State, block: HeaderBlock) -> Result<Given, Refusal<H2Code>>
    ensures { Takes result conn.old conn.new (block_taken block conn.old) }
{
    let headers = decode(alloc, &mut conn.decoder, block.fragment.as_slice())?;
    conn.block = None;
    match is_passed(conn, block.stream) {
        Some(is_passed) => Ok(further_headers(conn, block, headers, is_passed)),
        None => Ok(first_headers(alloc, conn, block, headers)?),
    }
}

/// A header block so far.
#[tactic(auto, unfolding(crate::specs::Frames::fragment_taken))]
pub(crate) fn take_fragment(
    alloc: Global,
    conn: &mut State,
    end_headers: bool,
    block: HeaderBlock,
) -> Result<Given, Refusal<H2Code>>
    ensures { Takes result conn.old conn.new (fragment_taken end_headers block conn.old) }
{
    if block.fragment.len() > MAX_BLOCK {
        return Err(Refusal::For(H2Code::EnhanceYourCalm));
    }
    if end_headers {
        return take_block(alloc, conn, block);
    }
    conn.block = Some(block);
    Ok(nothing())
}

fn is_crowded(conn: &State) -> bool
    ensures { result ≡ is_crowded conn.now }
{
    conn.streams.len() >= MAX_KEPT || conn.skipped.len() >= MAX_KEPT
}

fn next_number(greatest: u32) -> u64
    ensures { result ≡ next_number greatest }
{
    if greatest == 0 {
        return 1;
    }
    u64::from(greatest) + 2
}

// The peer opens a stream of this number.
fn open(conn: &mut State, number: u32) -> Result<(), NoMemory>
    ensures { OnOk result (conn.new ≡ record conn.old { greatest = number; skipped = skipped_before number conn.old }) }
{
    let next = next_number(conn.greatest);
    if next < u64::from(number) {
        conn.skipped.push(Skipped {
            first: next as u32,
            last: number - 2,
        })?;
    }
    conn.greatest = number;
    Ok(())
}

/// HEADERS.
#[tactic(auto, unfolding(crate::specs::Frames::headers_taken))]
pub(crate) fn headers(
    alloc: Global,
    conn: &mut State,
    end_headers: bool,
    block: HeaderBlock,
) -> Result<Given, Refusal<H2Code>>
    ensures { Takes result conn.old conn.new (headers_taken end_headers block conn.old (stream_at block.stream conn.old.streams)) }
{
    if let Some(stream) = conn.streams.get(block.stream) {
        if stream.peer_ended {
            return Err(Refusal::For(H2Code::StreamClosed));
        }
        return take_fragment(alloc, conn, end_headers, block);
    }
    if block.stream <= conn.greatest {
        return Err(Refusal::For(H2Code::StreamClosed));
    }
    if is_crowded(conn) {
        return Err(Refusal::For(H2Code::EnhanceYourCalm));
    }
    open(conn, block.stream)?;
    take_fragment(alloc, conn, end_headers, block)
}

/// CONTINUATION.
#[tactic(auto, unfolding(crate::specs::Frames::continuation_taken))]
pub(crate) fn continuation(
    alloc: Global,
    conn: &mut State,
    end_headers: bool,
    fragment: &[u8],
) -> Result<Given, Refusal<H2Code>>
    ensures { Takes result conn.old conn.new (continuation_taken end_headers fragment.now conn.old conn.old.block) }
{
    let Some(mut block) = conn.block.take() else {
        return Err(Refusal::For(H2Code::ProtocolError));
    };
    block.fragment.extend_from_slice(fragment)?;
    take_fragment(alloc, conn, end_headers, block)
}
