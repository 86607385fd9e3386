//! The header that stands before a packet to a controller.
ghost use Rattle.std.specs.Prelude.{◌≡◌, ℕ, ◌+◌, ◌*◌, ◌%◌, ◌≤◌, All, List, length, map, nat_lt, Option, vec_capacity};
ghost use Rattle.std.specs.List.{sum_by};
ghost use Rattle.bm_pipeline.specs.Validity.{IsWidth};
ghost use Rattle.canon_bytes.specs.Bits.{bits};
ghost use Rattle.p4_types.specs.declared.records.HitMark.{HitMark};
ghost use Rattle.p4_types.specs.declared.records.Sample.{Sample};
ghost use Rattle.packet_spec.specs.Meaning as spec;
ghost use Rattle.program_spec.specs.Numbers.{runs};
ghost use Rattle.pkt_worker.specs.Headers.{IsHeaderOf};
ghost use Rattle.pkt_worker.specs.Verdicts.{carried, verdict_by, numbers_room};

use crate::ending::{Datum, Ending};
use crate::lists::add;
use p4_types::info::HeaderField;
use p4_types::records::DropReason;
use p4info_model::P4Info;
use pkt_bits::take;

/// The fields of the header that stands before a packet to a controller.
pub(crate) fn packet_in_fields(info: &P4Info) -> &[HeaderField]
    ensures fields { result.now ≡ spec.packet_in_fields info.now }
    ensures header { IsHeaderOf result.now }
{
    match info.controller_header("packet_in") {
        None => &[],
        Some(header) => header.fields.as_slice(),
    }
}

// How many bits the fields take together.
fn bits_in(fields: &[HeaderField]) -> usize
    requires header { IsHeaderOf fields.now }
    ensures { result ≡ sum_by (λ field. field.bitwidth) fields.now }
{
    let mut bits = 0;
    for field in fields {
        bits += field.bitwidth as usize;
    }
    bits
}

// Reads the numbers of a header's fields from the first bits of these bytes.
fn read_metadata(fields: &[HeaderField], bytes: &[u8], metadata: &mut Vec<Datum>)
    requires header { IsHeaderOf fields.now }
    requires long { sum_by (λ field. field.bitwidth) fields.now ≤ 8 * length bytes.now }
    requires room { numbers_room ≤ vec_capacity metadata.old }
    ensures read { map carried metadata.new.items ≡ spec.metadata_of fields.now (runs (spec.widths_of fields.now) (bits bytes.now)) }
    ensures few { length metadata.new.items ≤ numbers_room }
    ensures room { numbers_room ≤ vec_capacity metadata.new }
{
    metadata.clear();
    let mut bit = 0;
    for field in fields {
        let number = take(bytes, bit, field.bitwidth);
        add(
            metadata,
            Datum {
                id: field.id,
                number,
            },
        );
        bit += field.bitwidth as usize;
    }
}

/// Takes the header from the front of a packet to a controller, where it is not too short for it. The payload begins
/// behind it.
pub(crate) fn to_controller(
    fields: &[HeaderField],
    bytes: &[u8],
    payload: &mut usize,
    metadata: &mut Vec<Datum>,
) -> Ending
    requires header { IsHeaderOf fields.now }
    requires payload { payload.old ≤ length bytes.now }
    requires few { length metadata.old.items ≤ numbers_room }
    requires room { numbers_room ≤ vec_capacity metadata.old }
    ensures told { (sample : Option Sample) (hits : List HitMark) → verdict_by result bytes.now payload.new metadata.new.items sample hits ≡ spec.to_controller fields.now sample hits bytes.now }
    ensures payload { payload.new ≤ length bytes.now }
    ensures few { length metadata.new.items ≤ numbers_room }
    ensures room { numbers_room ≤ vec_capacity metadata.new }
{
    let size = bits_in(fields) / 8;
    if bytes.len() < size {
        return Ending::Dropped(DropReason::TooShortForController);
    }
    read_metadata(fields, bytes, metadata);
    *payload = size;
    Ending::ToController
}
