//! The bytes that enter.
ghost use Rattle.std.specs.Prelude.{◌≡◌, ◌≤◌, Ok, IfOk, length};
ghost use Rattle.packet_out.specs.Entering as spec;

use crate::header::{header_of, packet_out_fields};
use crate::metadata::are_known;
use crate::rule::PacketRule;
use list_types::{ByteList, NoMemory};
use p4_types::messages::PacketOut;
use p4info_model::P4Info;
use std::alloc::Global;

/// How many bytes a packet that enters may have.
const LONGEST: usize = 9_216;

/// The bytes that enter of a packet that a controller sends to a pipeline with this P4Info: the fields of the controller
/// header `packet_out` in the order of the P4Info, most significant bit first, then the payload; at most 9,216 bytes. Or
/// the first of the rules P3 and P4 that it breaks (P4Runtime 1.3.0, "Packet I/O"). A P4Info without that header has no
/// metadata.
pub fn entering(
    alloc: Global,
    info: &P4Info,
    packet: &PacketOut,
) -> Result<Result<ByteList, PacketRule>, NoMemory>
    ensures { IfOk result (λ answer. answer ≡ spec.entering (spec.packet_out_fields info.now) packet.now) }
{
    let fields = packet_out_fields(info);
    let metadata = packet.metadata.as_slice();
    if !are_known(fields, metadata) {
        return Ok(Err(PacketRule::P3));
    }
    let Some(mut bytes) = header_of(alloc, fields, metadata)? else {
        return Ok(Err(PacketRule::P3));
    };
    let payload = packet.payload.as_slice();
    if payload.len() > LONGEST || bytes.len() + payload.len() > LONGEST {
        return Ok(Err(PacketRule::P4));
    }
    bytes.extend_from_slice(payload)?;
    Ok(Ok(bytes))
}
