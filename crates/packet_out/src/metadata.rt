//! What metadata give for the fields of a header.
ghost use Rattle.std.specs.Prelude.{◌≡◌, ◌==◌, ◌^◌, ◌<◌, IfSome, option_copied};
ghost use Rattle.std.specs.List.{list_any};
ghost use Rattle.bm_pipeline.specs.Validity.{IsWidth};
ghost use Rattle.packet_out.specs.Entering.{given_for};
ghost use Rattle.packet_out.specs.Given.{are_known, sole, sole_number};

use p4_types::info::HeaderField;
use p4_types::messages::PacketMetadata;

// Whether a field has this id.
fn is_field(fields: &[HeaderField], id: u32) -> bool
    ensures { result ≡ list_any (λ field. field.id == id) fields.now }
{
    fields.iter().any(|field| field.id == id)
}

/// Whether metadata are for these fields alone.
pub(crate) fn are_known(fields: &[HeaderField], metadata: &[PacketMetadata]) -> bool
    ensures { result ≡ are_known fields.now metadata.now }
{
    metadata
        .iter()
        .all(|given| is_field(fields, given.metadata_id))
}

// The value for the field of this id, if one alone is given.
fn sole_value(id: u32, metadata: &[PacketMetadata]) -> Option<&[u8]>
    ensures { option_copied result ≡ sole (given_for id metadata.now) }
{
    let mut found: Option<&[u8]> = None;
    for given in metadata {
        if given.metadata_id == id {
            if found.is_some() {
                return None;
            }
            found = Some(given.value.as_slice());
        }
    }
    found
}

/// The number for a field, if one value alone is given, with a byte at least, and no wider than the field.
pub(crate) fn number_for(field: &HeaderField, metadata: &[PacketMetadata]) -> Option<u128>
    requires width { IsWidth field.now.bitwidth }
    ensures number { result ≡ sole_number field.now.bitwidth (given_for field.now.id metadata.now) }
    ensures fits { IfSome result (λ number. number < 2 ^ field.now.bitwidth) }
{
    let value = sole_value(field.id, metadata)?;
    canon_bytes::read(value, field.bitwidth).ok()
}
