//! Messages of the stream channel, and the notices that bear them.
ghost use Rattle.std.specs.Prelude.{◌≡◌, IfOk};

use crate::bytes::{
    copied_any, copied_any_if, copied_anys, copied_bytes, copied_each, copied_metadata, copied_text,
};
use crate::entries::copied_entries;
use list_types::{List, NoMemory};
use p4_types::calls::Notice;
use p4_types::messages::{
    DigestList, IdleTimeoutNotification, MasterArbitrationUpdate, P4Data, PacketIn, PacketOut,
    Role, Status, StreamError, StreamErrorDetails, StreamMessageResponse,
};
use std::alloc::Global;

fn copied_role(alloc: Global, role: &Option<Role>) -> Result<Option<Role>, NoMemory>
    ensures { IfOk result (λ copy. copy ≡ role.now) }
{
    match role {
        None => Ok(None),
        Some(role) => Ok(Some(Role {
            id: role.id,
            config: copied_any_if(alloc, &role.config)?,
        })),
    }
}

fn copied_status(alloc: Global, status: &Option<Status>) -> Result<Option<Status>, NoMemory>
    ensures { IfOk result (λ copy. copy ≡ status.now) }
{
    match status {
        None => Ok(None),
        Some(status) => Ok(Some(Status {
            code: status.code,
            message: copied_text(alloc, &status.message)?,
            details: copied_anys(alloc, &status.details)?,
        })),
    }
}

fn copied_arbitration(
    alloc: Global,
    update: &MasterArbitrationUpdate,
) -> Result<MasterArbitrationUpdate, NoMemory>
    ensures { IfOk result (λ copy. copy ≡ update.now) }
{
    Ok(MasterArbitrationUpdate {
        device_id: update.device_id,
        role: copied_role(alloc, &update.role)?,
        election_id: update.election_id,
        status: copied_status(alloc, &update.status)?,
    })
}

fn copied_packet_in(alloc: Global, packet: &PacketIn) -> Result<PacketIn, NoMemory>
    ensures { IfOk result (λ copy. copy ≡ packet.now) }
{
    Ok(PacketIn {
        payload: copied_bytes(alloc, &packet.payload)?,
        metadata: copied_metadata(alloc, &packet.metadata)?,
    })
}

fn copied_packet_out(alloc: Global, packet: &PacketOut) -> Result<PacketOut, NoMemory>
    ensures { IfOk result (λ copy. copy ≡ packet.now) }
{
    Ok(PacketOut {
        payload: copied_bytes(alloc, &packet.payload)?,
        metadata: copied_metadata(alloc, &packet.metadata)?,
    })
}

fn copied_data(alloc: Global, data: &P4Data) -> Result<P4Data, NoMemory>
    ensures { IfOk result (λ copy. copy ≡ data.now) }
{
    match data {
        P4Data::Bitstring(bytes) => Ok(P4Data::Bitstring(copied_bytes(alloc, bytes)?)),
        P4Data::Struct(parts) => Ok(P4Data::Struct(copied_each(alloc, parts)?)),
    }
}

fn copied_digest(alloc: Global, digest: &DigestList) -> Result<DigestList, NoMemory>
    ensures { IfOk result (λ copy. copy ≡ digest.now) }
{
    let mut content = List::new(alloc);
    for data in digest.content.as_slice() {
        content.push(copied_data(alloc, data)?)?;
    }
    Ok(DigestList {
        digest_id: digest.digest_id,
        list_id: digest.list_id,
        content,
        timestamp: digest.timestamp,
    })
}

fn copied_details(
    alloc: Global,
    details: &Option<StreamErrorDetails>,
) -> Result<Option<StreamErrorDetails>, NoMemory>
    ensures { IfOk result (λ copy. copy ≡ details.now) }
{
    match details {
        None => Ok(None),
        Some(StreamErrorDetails::PacketOut(packet)) => Ok(Some(StreamErrorDetails::PacketOut(
            copied_packet_out(alloc, packet)?,
        ))),
        Some(StreamErrorDetails::DigestListAck(ack)) => {
            Ok(Some(StreamErrorDetails::DigestListAck(*ack)))
        }
        Some(StreamErrorDetails::Other(any)) => {
            Ok(Some(StreamErrorDetails::Other(copied_any(alloc, any)?)))
        }
    }
}

fn copied_error(alloc: Global, error: &StreamError) -> Result<StreamError, NoMemory>
    ensures { IfOk result (λ copy. copy ≡ error.now) }
{
    Ok(StreamError {
        canonical_code: error.canonical_code,
        message: copied_text(alloc, &error.message)?,
        space: copied_text(alloc, &error.space)?,
        code: error.code,
        details: copied_details(alloc, &error.details)?,
    })
}

fn copied_message(
    alloc: Global,
    message: &StreamMessageResponse,
) -> Result<StreamMessageResponse, NoMemory>
    ensures { IfOk result (λ copy. copy ≡ message.now) }
{
    match message {
        StreamMessageResponse::Arbitration(update) => Ok(StreamMessageResponse::Arbitration(
            copied_arbitration(alloc, update)?,
        )),
        StreamMessageResponse::Packet(packet) => Ok(StreamMessageResponse::Packet(copied_packet_in(
            alloc, packet,
        )?)),
        StreamMessageResponse::Digest(digest) => {
            Ok(StreamMessageResponse::Digest(copied_digest(alloc, digest)?))
        }
        StreamMessageResponse::IdleTimeoutNotification(notification) => {
            Ok(StreamMessageResponse::IdleTimeoutNotification(IdleTimeoutNotification {
                table_entry: copied_entries(alloc, &notification.table_entry)?,
                timestamp: notification.timestamp,
            }))
        }
        StreamMessageResponse::Other(any) => {
            Ok(StreamMessageResponse::Other(copied_any(alloc, any)?))
        }
        StreamMessageResponse::Error(error) => {
            Ok(StreamMessageResponse::Error(copied_error(alloc, error)?))
        }
    }
}

pub(crate) fn copied_notices(alloc: Global, list: &List<Notice>) -> Result<List<Notice>, NoMemory>
    ensures { IfOk result (λ copy. copy ≡ list.now) }
{
    let mut copy = List::new(alloc);
    for notice in list.as_slice() {
        copy.push(Notice {
            lane: notice.lane,
            message: copied_message(alloc, &notice.message)?,
        })?;
    }
    Ok(copy)
}
