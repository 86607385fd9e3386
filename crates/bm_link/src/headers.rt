//! The headers of a program.
ghost use Rattle.std.specs.Prelude.{◌≡◌, ◌+◌, ◌^◌, ◌<◌, ◌≤◌, length, map, take, slice_get, sum, option_copied, IfOk, IfErr, OnOk};
ghost use Rattle.bm_rules.specs.Fields.{fields_in};
ghost use Rattle.bm_values.specs.Literals.{width_bits};
ghost use Rattle.link_spec.specs.Fields.{header_of, headers_from, fields_before, standard_field, standard_metadata_of};

use crate::fields::{self, Fields};
use bm_expr::{FieldPlace, HeaderPlace};
use bm_pipeline::headers::{Header, StandardMetadata};
use bm_records::raw::{self, HeaderType, TypeField};
use bm_values::literals::width_bits;
use list_types::{List, NoMemory};
use std::alloc::Global;

fn widths_of(alloc: Global, fields: &[TypeField]) -> Result<List<u32>, NoMemory>
    ensures { IfOk result (λ widths. widths ≡ map (λ field. width_bits field.width) fields.now) }
{
    let mut widths = List::new(alloc);
    for field in fields {
        widths.push(width_bits(&field.width))?;
    }
    Ok(widths)
}

// Bits that no number counts have no memory either.
#[tactic(auto, using(crate::proofs::Sums::exceeded))]
fn bits_in(widths: &[u32]) -> Result<usize, NoMemory>
    ensures bits { IfOk result (λ bits. bits ≡ sum widths.now) }
    ensures refused { IfErr result (λ _. 2 ^ 64 ≤ sum widths.now) }
{
    let mut bits: usize = 0;
    for width in widths {
        bits = bits.checked_add(*width as usize).ok_or(NoMemory)?;
    }
    Ok(bits)
}

fn widths_in(alloc: Global, found: Option<&HeaderType>) -> Result<List<u32>, NoMemory>
    ensures { IfOk result (λ widths. widths ≡ map (λ field. width_bits field.width) (fields_in (option_copied found.entry))) }
{
    match found {
        Some(header_type) => widths_of(alloc, header_type.fields.as_slice()),
        None => Ok(List::new(alloc)),
    }
}

fn header_of(
    alloc: Global,
    fields: &Fields,
    place: usize,
    header: &raw::Header,
) -> Result<Header, NoMemory>
    requires { place < length fields.now.raw.now.headers }
    ensures { IfOk result (λ linked. linked ≡ header_of fields.now.raw.now place (fields_before fields.now.raw.now place) header.now) }
{
    let found = fields::type_of(fields.raw, &fields.types, header);
    let widths = widths_in(alloc, found)?;
    let bits = bits_in(widths.as_slice())?;
    Ok(Header {
        place: HeaderPlace {
            header: place,
            first: fields.firsts[place],
            count: fields::count_of(found),
        },
        metadata: header.metadata,
        widths,
        bits,
    })
}

fn push_header(
    alloc: Global,
    headers: &mut List<Header>,
    fields: &Fields,
    place: usize,
    header: &raw::Header,
) -> Result<(), NoMemory>
    requires at { slice_get fields.now.raw.now.headers place ≡ Some header.now }
    requires inside { place < length fields.now.raw.now.headers }
    requires before { headers.old ≡ headers_from fields.now.raw.now 0 0 (take place fields.now.raw.now.headers) }
    ensures { OnOk result (headers.new ≡ headers_from fields.now.raw.now 0 0 (take (place + 1) fields.now.raw.now.headers)) }
{
    let linked = header_of(alloc, fields, place, header)?;
    headers.push(linked)?;
    Ok(())
}

/// The headers, one behind the other.
pub(crate) fn headers_of(alloc: Global, fields: &Fields) -> Result<List<Header>, NoMemory>
    ensures { IfOk result (λ headers. headers ≡ headers_from fields.now.raw.now 0 0 fields.now.raw.now.headers) }
{
    let mut headers = List::new(alloc);
    let raw_headers = fields.raw.headers.as_slice();
    for place in 0..raw_headers.len() {
        push_header(alloc, &mut headers, fields, place, &raw_headers[place])?;
    }
    Ok(headers)
}

fn standard_field(fields: &Fields, name: &str) -> Option<FieldPlace>
    ensures { result ≡ standard_field fields.now.raw.now name.now }
{
    if fields::has_field(fields, "standard_metadata", name) {
        Some(fields::field_by(fields, "standard_metadata", name))
    } else {
        None
    }
}

/// The fields of `standard_metadata`.
pub(crate) fn standard_metadata_of(fields: &Fields) -> StandardMetadata
    ensures { result ≡ standard_metadata_of fields.now.raw.now }
{
    StandardMetadata {
        ingress_port: standard_field(fields, "ingress_port"),
        packet_length: standard_field(fields, "packet_length"),
        egress_spec: fields::field_by(fields, "standard_metadata", "egress_spec"),
        egress_port: standard_field(fields, "egress_port"),
        egress_rid: standard_field(fields, "egress_rid"),
        mcast_grp: standard_field(fields, "mcast_grp"),
        parser_error: standard_field(fields, "parser_error"),
        checksum_error: standard_field(fields, "checksum_error"),
    }
}
