//! Messages of the stream channel, each written by the rows of its message.
ghost use Rattle.std.specs.Prelude.{◌≡◌};
ghost use Rattle.p4v1_wire.specs.StreamRows.{ArbitrationInRange, DetailsChoiceInRange, DigestAckInRange, DigestListInRange, IdleTimeoutInRange, MetadataInRange, P4dataInRange, PacketInInRange, PacketOutInRange, RoleInRange, StreamErrorInRange, StreamInRange, Uint128InRange, arbitration_rows, bitstring_rows, details_choice_rows, digest_ack_rows, digest_list_rows, idle_timeout_rows, metadata_rows, p4data_rows, packet_in_rows, packet_out_rows, role_rows, stream_error_rows, stream_rows, struct_rows, uint128_rows};
ghost use Rattle.std.specs.Prelude.{OnOk};
ghost use Rattle.wire_messages.specs.Written.{with_rows};

use crate::writing;
use crate::writing::Writable;
use list_types::{ByteList, List, NoMemory};
use p4_types::messages::{
    DigestList, DigestListAck, IdleTimeoutNotification, MasterArbitrationUpdate, P4Data, PacketIn,
    PacketMetadata, PacketOut, Role, StreamError, StreamErrorDetails, StreamMessageResponse,
    Uint128,
};
use std::alloc::Global;
use wire_fields::Writer;
use wire_messages::write;

impl Writable for Uint128 {
    ghost rows = { uint128_rows };

    ghost in_range = { Uint128InRange };

    #[tactic(auto, unfolding(crate::specs::StreamRows::uint128_rows, crate::specs::StreamRows::Uint128InRange))]
    fn write(&self, alloc: Global, writer: &mut Writer) -> Result<(), NoMemory> {
        write::uint64(writer, 1, self.high)?;
        write::uint64(writer, 2, self.low)?;
        Ok(())
    }
}

impl Writable for Role {
    ghost rows = { role_rows };

    ghost in_range = { RoleInRange };

    #[tactic(auto, unfolding(crate::specs::StreamRows::role_rows, crate::specs::StreamRows::RoleInRange))]
    fn write(&self, alloc: Global, writer: &mut Writer) -> Result<(), NoMemory> {
        write::uint64(writer, 1, self.id)?;
        writing::optional(alloc, writer, 2, &self.config)?;
        Ok(())
    }
}

impl Writable for MasterArbitrationUpdate {
    ghost rows = { arbitration_rows };

    ghost in_range = { ArbitrationInRange };

    #[tactic(auto, unfolding(crate::specs::StreamRows::arbitration_rows, crate::specs::StreamRows::ArbitrationInRange))]
    fn write(&self, alloc: Global, writer: &mut Writer) -> Result<(), NoMemory> {
        write::uint64(writer, 1, self.device_id)?;
        writing::optional(alloc, writer, 2, &self.role)?;
        writing::message(alloc, writer, 3, &self.election_id)?;
        writing::present(alloc, writer, 4, &self.status)?;
        Ok(())
    }
}

impl Writable for PacketMetadata {
    ghost rows = { metadata_rows };

    ghost in_range = { MetadataInRange };

    #[tactic(auto, unfolding(crate::specs::StreamRows::metadata_rows, crate::specs::StreamRows::MetadataInRange))]
    fn write(&self, alloc: Global, writer: &mut Writer) -> Result<(), NoMemory> {
        write::uint32(writer, 1, self.metadata_id)?;
        write::bytes(writer, 2, self.value.as_slice())?;
        Ok(())
    }
}

impl Writable for PacketIn {
    ghost rows = { packet_in_rows };

    ghost in_range = { PacketInInRange };

    #[tactic(auto, unfolding(crate::specs::StreamRows::packet_in_rows, crate::specs::StreamRows::PacketInInRange))]
    fn write(&self, alloc: Global, writer: &mut Writer) -> Result<(), NoMemory> {
        write::bytes(writer, 1, self.payload.as_slice())?;
        writing::messages(alloc, writer, 2, self.metadata.as_slice())?;
        Ok(())
    }
}

impl Writable for PacketOut {
    ghost rows = { packet_out_rows };

    ghost in_range = { PacketOutInRange };

    #[tactic(auto, unfolding(crate::specs::StreamRows::packet_out_rows, crate::specs::StreamRows::PacketOutInRange))]
    fn write(&self, alloc: Global, writer: &mut Writer) -> Result<(), NoMemory> {
        write::bytes(writer, 1, self.payload.as_slice())?;
        writing::messages(alloc, writer, 2, self.metadata.as_slice())?;
        Ok(())
    }
}

impl Writable for DigestListAck {
    ghost rows = { digest_ack_rows };

    ghost in_range = { DigestAckInRange };

    #[tactic(auto, unfolding(crate::specs::StreamRows::digest_ack_rows, crate::specs::StreamRows::DigestAckInRange))]
    fn write(&self, alloc: Global, writer: &mut Writer) -> Result<(), NoMemory> {
        write::uint32(writer, 1, self.digest_id)?;
        write::uint64(writer, 2, self.list_id)?;
        Ok(())
    }
}

// A bitstring, as P4Data.
impl Writable for ByteList {
    ghost rows = { bitstring_rows };

    ghost in_range = { λ _. Unit {0} };

    fn write(&self, _alloc: Global, writer: &mut Writer) -> Result<(), NoMemory> {
        write::chosen_bytes(writer, 1, self.as_slice())
    }
}

// The members of a struct, as P4StructLike.
impl Writable for List<ByteList> {
    ghost rows = { struct_rows };

    ghost in_range = { λ _. Unit {0} };

    fn write(&self, alloc: Global, writer: &mut Writer) -> Result<(), NoMemory> {
        writing::messages(alloc, writer, 1, self.as_slice())
    }
}

impl Writable for P4Data {
    ghost rows = { p4data_rows };

    ghost in_range = { P4dataInRange };

    #[tactic(auto, unfolding(crate::specs::StreamRows::p4data_rows))]
    fn write(&self, alloc: Global, writer: &mut Writer) -> Result<(), NoMemory> {
        match self {
            P4Data::Bitstring(bytes) => bytes.write(alloc, writer),
            P4Data::Struct(members) => writing::member(alloc, writer, 5, members),
        }
    }
}

impl Writable for DigestList {
    ghost rows = { digest_list_rows };

    ghost in_range = { DigestListInRange };

    #[tactic(auto, unfolding(crate::specs::StreamRows::digest_list_rows, crate::specs::StreamRows::DigestListInRange))]
    fn write(&self, alloc: Global, writer: &mut Writer) -> Result<(), NoMemory> {
        write::uint32(writer, 1, self.digest_id)?;
        write::uint64(writer, 2, self.list_id)?;
        writing::messages(alloc, writer, 3, self.content.as_slice())?;
        write::int64(writer, 4, self.timestamp)?;
        Ok(())
    }
}

impl Writable for IdleTimeoutNotification {
    ghost rows = { idle_timeout_rows };

    ghost in_range = { IdleTimeoutInRange };

    #[tactic(auto, unfolding(crate::specs::StreamRows::idle_timeout_rows, crate::specs::StreamRows::IdleTimeoutInRange))]
    fn write(&self, alloc: Global, writer: &mut Writer) -> Result<(), NoMemory> {
        writing::messages(alloc, writer, 1, self.table_entry.as_slice())?;
        write::int64(writer, 2, self.timestamp)?;
        Ok(())
    }
}

#[tactic(auto, unfolding(crate::specs::StreamRows::details_choice_rows, crate::specs::StreamRows::DetailsChoiceInRange))]
fn details_choice(
    alloc: Global,
    writer: &mut Writer,
    details: &Option<StreamErrorDetails>,
) -> Result<(), NoMemory>
    ensures ok { OnOk result (writer.new ≡ with_rows writer.old (details_choice_rows details.now)) }
    ensures in_range { OnOk result (DetailsChoiceInRange details.now) }
{
    match details {
        None => Ok(()),
        Some(StreamErrorDetails::PacketOut(packet)) => {
            writing::wrapped(alloc, writer, 5, packet)
        }
        Some(StreamErrorDetails::DigestListAck(ack)) => writing::wrapped(alloc, writer, 6, ack),
        Some(StreamErrorDetails::Other(other)) => writing::member(alloc, writer, 7, other),
    }
}

impl Writable for StreamError {
    ghost rows = { stream_error_rows };

    ghost in_range = { StreamErrorInRange };

    #[tactic(auto, unfolding(crate::specs::StreamRows::stream_error_rows, crate::specs::StreamRows::StreamErrorInRange))]
    fn write(&self, alloc: Global, writer: &mut Writer) -> Result<(), NoMemory> {
        write::int32(writer, 1, self.canonical_code)?;
        write::text(writer, 2, self.message.as_str())?;
        write::text(writer, 3, self.space.as_str())?;
        write::int32(writer, 4, self.code)?;
        details_choice(alloc, writer, &self.details)?;
        Ok(())
    }
}

impl Writable for StreamMessageResponse {
    ghost rows = { stream_rows };

    ghost in_range = { StreamInRange };

    #[tactic(auto, unfolding(crate::specs::StreamRows::stream_rows, crate::specs::StreamRows::StreamInRange))]
    fn write(&self, alloc: Global, writer: &mut Writer) -> Result<(), NoMemory> {
        match self {
            StreamMessageResponse::Arbitration(m) => writing::member(alloc, writer, 1, m),
            StreamMessageResponse::Packet(m) => writing::member(alloc, writer, 2, m),
            StreamMessageResponse::Digest(m) => writing::member(alloc, writer, 3, m),
            StreamMessageResponse::IdleTimeoutNotification(m) => {
                writing::member(alloc, writer, 4, m)
            }
            StreamMessageResponse::Other(m) => writing::member(alloc, writer, 5, m),
            StreamMessageResponse::Error(m) => writing::member(alloc, writer, 6, m),
        }
    }
}
