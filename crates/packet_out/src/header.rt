//! The header that stands before a packet of a controller.
ghost use Rattle.std.specs.Prelude.{◌≡◌, ◌*◌, IfOk, length, sum_by};
ghost use Rattle.std.specs.Bool.{OnTrue};
ghost use Rattle.program_spec.specs.Numbers.{bytes_of};
ghost use Rattle.packet_out.specs.Entering as spec;
ghost use Rattle.packet_out.specs.Given.{IsHeaderOf, are_given, header_bits, header_given};

use crate::metadata::number_for;
use list_types::{ByteList, NoMemory};
use p4_types::info::HeaderField;
use p4_types::messages::PacketMetadata;
use p4info_model::P4Info;
use std::alloc::Global;

/// The fields of the header before a packet of a controller.
pub(crate) fn packet_out_fields(info: &P4Info) -> &[HeaderField]
    ensures fields { result.now ≡ spec.packet_out_fields info.now }
    ensures header { IsHeaderOf result.now }
{
    match info.controller_header("packet_out") {
        None => &[],
        Some(header) => header.fields.as_slice(),
    }
}

// How many bits the fields take together.
fn bits_in(fields: &[HeaderField]) -> usize
    requires header { IsHeaderOf fields.now }
    ensures { result ≡ sum_by (λ field. field.bitwidth) fields.now }
{
    let mut bits = 0;
    for field in fields {
        bits += field.bitwidth as usize;
    }
    bits
}

// Writes the numbers that metadata give into a header, which its fields fill, if there is one for each field.
fn write_fields(fields: &[HeaderField], metadata: &[PacketMetadata], header: &mut [u8]) -> bool
    requires header { IsHeaderOf fields.now }
    requires filled { sum_by (λ field. field.bitwidth) fields.now ≡ 8 * length header.old }
    ensures given { result ≡ are_given fields.now metadata.now }
    ensures written { OnTrue result (header.new ≡ bytes_of (header_bits fields.now metadata.now)) }
{
    let mut bit = 0;
    for field in fields {
        match number_for(field, metadata) {
            None => return false,
            Some(number) => pkt_bits::put(header, bit, field.bitwidth, number),
        }
        bit += field.bitwidth as usize;
    }
    true
}

/// The bytes of the header, if metadata give one value for each of its fields.
pub(crate) fn header_of(
    alloc: Global,
    fields: &[HeaderField],
    metadata: &[PacketMetadata],
) -> Result<Option<ByteList>, NoMemory>
    requires header { IsHeaderOf fields.now }
    ensures { IfOk result (λ header. header ≡ header_given fields.now metadata.now) }
{
    let mut header = vec![in alloc; 0u8; bits_in(fields) / 8]?;
    if !write_fields(fields, metadata, &mut header) {
        return Ok(None);
    }
    Ok(Some(ByteList::from_vec(header)))
}
