//! Replies to packets that controllers send.
ghost use Rattle.std.specs.Prelude.{◌≡◌, [], pos, IfOk};
ghost use Rattle.switch_spec.specs.Answer.{packet_reply};
ghost use Rattle.switch_spec.specs.PacketsOut.{packet_code, packet_number, packet_error};
ghost use Rattle.call_outcomes.specs.Prepared.{IsPrepared};

use crate::lists::{copied, only};
use crate::messages;
use crate::prepared::Prepared;
use list_types::{ByteList, List, NoMemory};
use p4_types::calls::Notice;
use p4_types::code::Code;
use p4_types::messages::{
    PacketMetadata, PacketOut, StreamError, StreamErrorDetails, StreamMessageResponse,
};
use packet_out::PacketRule;
use std::alloc::Global;

fn code_of(rule: PacketRule) -> Code
    ensures { result ≡ packet_code rule }
{
    match rule {
        PacketRule::P1 => Code::PermissionDenied,
        PacketRule::P2 => Code::FailedPrecondition,
        PacketRule::P3 | PacketRule::P4 => Code::InvalidArgument,
    }
}

fn number_of(rule: PacketRule) -> i32
    ensures { result ≡ pos (packet_number rule) }
{
    match rule {
        PacketRule::P1 => 1,
        PacketRule::P2 => 2,
        PacketRule::P3 => 3,
        PacketRule::P4 => 4,
    }
}

fn metadata_copied(
    alloc: Global,
    metadata: &[PacketMetadata],
) -> Result<List<PacketMetadata>, NoMemory>
    ensures { IfOk result (λ copy. copy ≡ metadata.now) }
{
    let mut copy = List::new(alloc);
    for given in metadata {
        let value = copied(alloc, given.value.as_slice())?;
        copy.push(PacketMetadata {
            metadata_id: given.metadata_id,
            value,
        })?;
    }
    Ok(copy)
}

fn packet_copied(alloc: Global, packet: &PacketOut) -> Result<PacketOut, NoMemory>
    ensures { IfOk result (λ copy. copy ≡ packet.now) }
{
    let payload = copied(alloc, packet.payload.as_slice())?;
    let metadata = metadata_copied(alloc, packet.metadata.as_slice())?;
    Ok(PacketOut { payload, metadata })
}

// The error that answers a packet which is refused.
fn error_of(alloc: Global, rule: PacketRule, packet: &PacketOut) -> Result<StreamError, NoMemory>
    ensures { IfOk result (λ error. error ≡ packet_error rule packet.now) }
{
    let details = StreamErrorDetails::PacketOut(packet_copied(alloc, packet)?);
    Ok(StreamError {
        canonical_code: i32::from(code_of(rule).number()),
        message: messages::empty_text(alloc),
        space: messages::space(alloc)?,
        code: number_of(rule),
        details: Some(details),
    })
}

/// The bytes of a lane's packet enter, or the lane is told by which rule it is refused.
pub fn packet_reply(
    alloc: Global,
    lane: u16,
    packet: &PacketOut,
    answer: Result<ByteList, PacketRule>,
) -> Result<Prepared, NoMemory>
    ensures answer { IfOk result (λ p. IsPrepared (packet_reply lane packet.now answer) p) }
    ensures nothing { IfOk result (λ p. p.events ≡ []) }
{
    match answer {
        Ok(bytes) => Ok(Prepared {
            code: Code::Ok,
            messages: List::new(alloc),
            notices: List::new(alloc),
            events: List::new(alloc),
            packet: Some(bytes),
        }),
        Err(rule) => {
            let message = StreamMessageResponse::Error(error_of(alloc, rule, packet)?);
            Ok(Prepared {
                code: Code::Ok,
                messages: List::new(alloc),
                notices: only(alloc, Notice { lane, message })?,
                events: List::new(alloc),
                packet: None,
            })
        }
    }
}
