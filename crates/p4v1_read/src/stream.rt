//! Messages of the stream channel, each read by its fields.
ghost use Rattle.std.specs.Prelude.{◌≡◌, [], ◌∷◌};
ghost use Rattle.p4v1_read.specs.Stream.{any_of, status_of, role_of, arbitration_of, metadata_of, packet_out_of, digest_ack_of, stream_by, stream_of};
ghost use Rattle.wire_messages.specs.Answers.{ReadsInMemory};

use crate::reading;
use crate::reading::Readable;
use crate::requests::election_id;
use list_types::Refusal;
use p4_types::messages::{
    Any, DigestListAck, MasterArbitrationUpdate, PacketMetadata, PacketOut, Role, Status,
    StreamMessageRequest,
};
use std::alloc::Global;
use wire_messages::{Message, Unreadable};

impl Readable for Any {
    ghost meaning = { any_of };

    #[tactic(auto, unfolding(crate::specs::Stream::any_of))]
    fn read(alloc: Global, message: &Message<'_>) -> Result<Any, Refusal<Unreadable>> {
        let type_url = reading::text(alloc, message, 1)?;
        let value = reading::bytes(alloc, message, 2)?;
        Ok(Any { type_url, value })
    }
}

impl Readable for Status {
    ghost meaning = { status_of };

    #[tactic(auto, unfolding(crate::specs::Stream::status_of))]
    fn read(alloc: Global, message: &Message<'_>) -> Result<Status, Refusal<Unreadable>> {
        let code = message.int32(1)?;
        let text = reading::text(alloc, message, 2)?;
        let details = reading::all(alloc, message, 3)?;
        Ok(Status {
            code,
            message: text,
            details,
        })
    }
}

impl Readable for Role {
    ghost meaning = { role_of };

    #[tactic(auto, unfolding(crate::specs::Stream::role_of))]
    fn read(alloc: Global, message: &Message<'_>) -> Result<Role, Refusal<Unreadable>> {
        if !message.has_only(&[1, 2]) {
            return Err(Refusal::For(Unreadable));
        }
        let id = message.uint64(1)?;
        let config = reading::one(alloc, message, 2)?;
        Ok(Role { id, config })
    }
}

impl Readable for MasterArbitrationUpdate {
    ghost meaning = { arbitration_of };

    #[tactic(auto, unfolding(crate::specs::Stream::arbitration_of))]
    fn read(
        alloc: Global,
        message: &Message<'_>,
    ) -> Result<MasterArbitrationUpdate, Refusal<Unreadable>> {
        let device_id = message.uint64(1)?;
        let role = reading::one(alloc, message, 2)?;
        let election_id = election_id(alloc, message, 3)?;
        let status = reading::one(alloc, message, 4)?;
        Ok(MasterArbitrationUpdate {
            device_id,
            role,
            election_id,
            status,
        })
    }
}

impl Readable for PacketMetadata {
    ghost meaning = { metadata_of };

    #[tactic(auto, unfolding(crate::specs::Stream::metadata_of))]
    fn read(alloc: Global, message: &Message<'_>) -> Result<PacketMetadata, Refusal<Unreadable>> {
        let metadata_id = message.uint32(1)?;
        let value = reading::bytes(alloc, message, 2)?;
        Ok(PacketMetadata { metadata_id, value })
    }
}

impl Readable for PacketOut {
    ghost meaning = { packet_out_of };

    #[tactic(auto, unfolding(crate::specs::Stream::packet_out_of))]
    fn read(alloc: Global, message: &Message<'_>) -> Result<PacketOut, Refusal<Unreadable>> {
        let payload = reading::bytes(alloc, message, 1)?;
        let metadata = reading::all(alloc, message, 2)?;
        Ok(PacketOut { payload, metadata })
    }
}

impl Readable for DigestListAck {
    ghost meaning = { digest_ack_of };

    #[tactic(auto, unfolding(crate::specs::Stream::digest_ack_of))]
    fn read(alloc: Global, message: &Message<'_>) -> Result<DigestListAck, Refusal<Unreadable>> {
        let digest_id = message.uint32(1)?;
        let list_id = message.uint64(2)?;
        Ok(DigestListAck { digest_id, list_id })
    }
}

#[tactic(auto, unfolding(crate::specs::Stream::stream_by))]
fn stream_member(
    alloc: Global,
    message: &Message<'_>,
    member: u32,
) -> Result<StreamMessageRequest, Refusal<Unreadable>>
    ensures { ReadsInMemory (λ x. x) result (stream_by message.now member) }
{
    match member {
        1 => Ok(StreamMessageRequest::Arbitration(reading::member(alloc, message, 1)?)),
        2 => Ok(StreamMessageRequest::Packet(reading::member(alloc, message, 2)?)),
        3 => Ok(StreamMessageRequest::DigestAck(reading::member(alloc, message, 3)?)),
        4 => Ok(StreamMessageRequest::Other(reading::member(alloc, message, 4)?)),
        _ => Err(Refusal::For(Unreadable)),
    }
}

impl Readable for Option<StreamMessageRequest> {
    ghost meaning = { stream_of };

    #[tactic(auto, unfolding(crate::specs::Stream::stream_of))]
    fn read(
        alloc: Global,
        message: &Message<'_>,
    ) -> Result<Option<StreamMessageRequest>, Refusal<Unreadable>> {
        match message.choice(&[1, 2, 3, 4])? {
            Some(member) => Ok(Some(stream_member(alloc, message, member)?)),
            None => Ok(None),
        }
    }
}
