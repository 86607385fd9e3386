//! Messages of the stream channel, each read by its fields.
ghost use Rattle.std.specs.Prelude.{◌≡◌, [], ◌∷◌};
ghost use Rattle.p4v1_read.specs.Nested.{all_at, member_at};
ghost use Rattle.p4v1_read.specs.Stream.{metadata_of, packet_out_of, digest_ack_of};
ghost use Rattle.p4v1_wire.specs.ServerMessages.{packet_in_of, idle_timeout_of, bitstring_of, p4data_by, p4data_of, digest_list_of, packet_out_error_of, digest_ack_error_of, details_by, details_of, stream_error_of, stream_response_by, stream_response_of};
ghost use Rattle.wire_messages.specs.Answers.{ReadsInMemory};

use crate::reading;
use crate::reading::Readable;
use list_types::{ByteList, List, Refusal};
use p4_types::messages::{
    DigestList, DigestListAck, IdleTimeoutNotification, P4Data, PacketIn, PacketMetadata,
    PacketOut, StreamError, StreamErrorDetails, StreamMessageResponse,
};
use std::alloc::Global;
use wire_messages::{Message, Unreadable};

impl Readable for PacketMetadata {
    ghost meaning = { metadata_of };

    #[tactic(auto, unfolding(p4v1_read::specs::Stream::metadata_of))]
    fn read(alloc: Global, bytes: &[u8]) -> Result<PacketMetadata, Refusal<Unreadable>> {
        let message = reading::fields(bytes)?;
        let metadata_id = message.uint32(1)?;
        let value = reading::bytes(alloc, &message, 2)?;
        Ok(PacketMetadata { metadata_id, value })
    }
}

impl Readable for PacketIn {
    ghost meaning = { packet_in_of };

    #[tactic(auto, unfolding(p4v1_wire::specs::ServerMessages::packet_in_of))]
    fn read(alloc: Global, bytes: &[u8]) -> Result<PacketIn, Refusal<Unreadable>> {
        let message = reading::fields(bytes)?;
        let payload = reading::bytes(alloc, &message, 1)?;
        let metadata = reading::all(alloc, &message, 2)?;
        Ok(PacketIn { payload, metadata })
    }
}

impl Readable for PacketOut {
    ghost meaning = { packet_out_of };

    #[tactic(auto, unfolding(p4v1_read::specs::Stream::packet_out_of))]
    fn read(alloc: Global, bytes: &[u8]) -> Result<PacketOut, Refusal<Unreadable>> {
        let message = reading::fields(bytes)?;
        let payload = reading::bytes(alloc, &message, 1)?;
        let metadata = reading::all(alloc, &message, 2)?;
        Ok(PacketOut { payload, metadata })
    }
}

impl Readable for DigestListAck {
    ghost meaning = { digest_ack_of };

    #[tactic(auto, unfolding(p4v1_read::specs::Stream::digest_ack_of))]
    fn read(_alloc: Global, bytes: &[u8]) -> Result<DigestListAck, Refusal<Unreadable>> {
        let message = reading::fields(bytes)?;
        let digest_id = message.uint32(1)?;
        let list_id = message.uint64(2)?;
        Ok(DigestListAck { digest_id, list_id })
    }
}

impl Readable for IdleTimeoutNotification {
    ghost meaning = { idle_timeout_of };

    #[tactic(auto, unfolding(p4v1_wire::specs::ServerMessages::idle_timeout_of))]
    fn read(alloc: Global, bytes: &[u8]) -> Result<IdleTimeoutNotification, Refusal<Unreadable>> {
        let message = reading::fields(bytes)?;
        let table_entry = reading::all(alloc, &message, 1)?;
        let timestamp = message.int64(2)?;
        Ok(IdleTimeoutNotification {
            table_entry,
            timestamp,
        })
    }
}

// A bitstring, as P4Data.
impl Readable for ByteList {
    ghost meaning = { bitstring_of };

    #[tactic(auto, unfolding(p4v1_wire::specs::ServerMessages::bitstring_of))]
    fn read(alloc: Global, bytes: &[u8]) -> Result<ByteList, Refusal<Unreadable>> {
        let message = reading::fields(bytes)?;
        match message.choice(&[1, 5])? {
            Some(1) => reading::bytes(alloc, &message, 1),
            _ => Err(Refusal::For(Unreadable)),
        }
    }
}

// The members of a struct, as P4StructLike.
impl Readable for List<ByteList> {
    ghost meaning = { all_at bitstring_of 1 };

    fn read(alloc: Global, bytes: &[u8]) -> Result<List<ByteList>, Refusal<Unreadable>> {
        let message = reading::fields(bytes)?;
        reading::all(alloc, &message, 1)
    }
}

#[tactic(auto, unfolding(p4v1_wire::specs::ServerMessages::p4data_by))]
fn p4data(alloc: Global, message: &Message<'_>, member: u32) -> Result<P4Data, Refusal<Unreadable>>
    ensures { ReadsInMemory (λ x. x) result (p4data_by message.now member) }
{
    match member {
        1 => Ok(P4Data::Bitstring(reading::bytes(alloc, message, 1)?)),
        5 => Ok(P4Data::Struct(reading::member(alloc, message, 5)?)),
        _ => Err(Refusal::For(Unreadable)),
    }
}

impl Readable for P4Data {
    ghost meaning = { p4data_of };

    #[tactic(auto, unfolding(p4v1_wire::specs::ServerMessages::p4data_of))]
    fn read(alloc: Global, bytes: &[u8]) -> Result<P4Data, Refusal<Unreadable>> {
        let message = reading::fields(bytes)?;
        match message.choice(&[1, 5])? {
            Some(member) => p4data(alloc, &message, member),
            None => Err(Refusal::For(Unreadable)),
        }
    }
}

impl Readable for DigestList {
    ghost meaning = { digest_list_of };

    #[tactic(auto, unfolding(p4v1_wire::specs::ServerMessages::digest_list_of))]
    fn read(alloc: Global, bytes: &[u8]) -> Result<DigestList, Refusal<Unreadable>> {
        let message = reading::fields(bytes)?;
        let digest_id = message.uint32(1)?;
        let list_id = message.uint64(2)?;
        let timestamp = message.int64(4)?;
        let content = reading::all(alloc, &message, 3)?;
        Ok(DigestList {
            digest_id,
            list_id,
            content,
            timestamp,
        })
    }
}

#[tactic(auto, unfolding(p4v1_read::specs::Nested::member_at, p4v1_wire::specs::ServerMessages::packet_out_error_of))]
fn packet_out_error(alloc: Global, message: &Message<'_>) -> Result<PacketOut, Refusal<Unreadable>>
    ensures { ReadsInMemory (λ x. x) result (member_at packet_out_error_of 5 message.now) }
{
    let inside = reading::inside(message, 5)?;
    match reading::one(alloc, &inside, 1)? {
        Some(packet) => Ok(packet),
        None => Ok(PacketOut {
            payload: List::new(alloc),
            metadata: List::new(alloc),
        }),
    }
}

const NO_DIGEST_ACK: DigestListAck = DigestListAck {
    digest_id: 0,
    list_id: 0,
};

#[tactic(auto, unfolding(p4v1_read::specs::Nested::member_at, p4v1_wire::specs::ServerMessages::digest_ack_error_of))]
fn digest_ack_error(
    alloc: Global,
    message: &Message<'_>,
) -> Result<DigestListAck, Refusal<Unreadable>>
    ensures { ReadsInMemory (λ x. x) result (member_at digest_ack_error_of 6 message.now) }
{
    let inside = reading::inside(message, 6)?;
    Ok(reading::one(alloc, &inside, 1)?.unwrap_or(NO_DIGEST_ACK))
}

#[tactic(auto, unfolding(p4v1_wire::specs::ServerMessages::details_by))]
fn details(
    alloc: Global,
    message: &Message<'_>,
    member: u32,
) -> Result<StreamErrorDetails, Refusal<Unreadable>>
    ensures { ReadsInMemory (λ x. x) result (details_by message.now member) }
{
    match member {
        5 => Ok(StreamErrorDetails::PacketOut(packet_out_error(alloc, message)?)),
        6 => Ok(StreamErrorDetails::DigestListAck(digest_ack_error(alloc, message)?)),
        7 => Ok(StreamErrorDetails::Other(reading::member(alloc, message, 7)?)),
        _ => Err(Refusal::For(Unreadable)),
    }
}

#[tactic(auto, unfolding(p4v1_wire::specs::ServerMessages::details_of))]
fn details_choice(
    alloc: Global,
    message: &Message<'_>,
) -> Result<Option<StreamErrorDetails>, Refusal<Unreadable>>
    ensures { ReadsInMemory (λ x. x) result (details_of message.now) }
{
    match message.choice(&[5, 6, 7])? {
        Some(member) => Ok(Some(details(alloc, message, member)?)),
        None => Ok(None),
    }
}

impl Readable for StreamError {
    ghost meaning = { stream_error_of };

    #[tactic(auto, unfolding(p4v1_wire::specs::ServerMessages::stream_error_of))]
    fn read(alloc: Global, bytes: &[u8]) -> Result<StreamError, Refusal<Unreadable>> {
        let message = reading::fields(bytes)?;
        let canonical_code = message.int32(1)?;
        let code = message.int32(4)?;
        let text = reading::text(alloc, &message, 2)?;
        let space = reading::text(alloc, &message, 3)?;
        let details = details_choice(alloc, &message)?;
        Ok(StreamError {
            canonical_code,
            message: text,
            space,
            code,
            details,
        })
    }
}

#[tactic(auto, unfolding(p4v1_wire::specs::ServerMessages::stream_response_by))]
fn response(
    alloc: Global,
    message: &Message<'_>,
    member: u32,
) -> Result<StreamMessageResponse, Refusal<Unreadable>>
    ensures { ReadsInMemory (λ x. x) result (stream_response_by message.now member) }
{
    match member {
        1 => Ok(StreamMessageResponse::Arbitration(reading::member(alloc, message, 1)?)),
        2 => Ok(StreamMessageResponse::Packet(reading::member(alloc, message, 2)?)),
        3 => Ok(StreamMessageResponse::Digest(reading::member(alloc, message, 3)?)),
        4 => Ok(StreamMessageResponse::IdleTimeoutNotification(reading::member(
            alloc, message, 4,
        )?)),
        5 => Ok(StreamMessageResponse::Other(reading::member(alloc, message, 5)?)),
        6 => Ok(StreamMessageResponse::Error(reading::member(alloc, message, 6)?)),
        _ => Err(Refusal::For(Unreadable)),
    }
}

impl Readable for Option<StreamMessageResponse> {
    ghost meaning = { stream_response_of };

    #[tactic(auto, unfolding(p4v1_wire::specs::ServerMessages::stream_response_of))]
    fn read(
        alloc: Global,
        bytes: &[u8],
    ) -> Result<Option<StreamMessageResponse>, Refusal<Unreadable>> {
        let message = reading::fields(bytes)?;
        match message.choice(&[1, 2, 3, 4, 5, 6])? {
            Some(member) => Ok(Some(response(alloc, &message, member)?)),
            None => Ok(None),
        }
    }
}
