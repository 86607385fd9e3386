//! The hash by which a member is chosen: 32-bit FNV-1a of the fields of a selector, each in whole bytes.
ghost use Rattle.std.specs.Prelude.{◌≡◌, ◌*◌, ◌≤◌, All};
ghost use Rattle.std.specs.List.{fold};
ghost use Rattle.bm_pipeline.specs.Places.{width_of, whole_bytes};
ghost use Rattle.packet_spec.specs.Choosing as spec;
ghost use Rattle.pkt_bits.specs.Field.{number_bits};
ghost use Rattle.pkt_codec.specs.Room.{IsInStore};
ghost use Rattle.program_spec.specs.Numbers.{bytes_of};

use bm_expr::Store;
use bm_pipeline::headers::FieldRef;

/// The hash of no bytes.
const START: u32 = 2_166_136_261;

fn hash_byte(hash: u32, byte: u8) -> u32
    ensures { result ≡ spec.hashed hash byte }
{
    (hash ^ u32::from(byte)).wrapping_mul(16_777_619)
}

// Hashes so many of a number's lowest bytes, the most significant first.
fn hash_number(hash: u32, number: u128, bytes: u32) -> u32
    requires few { bytes ≤ 16 }
    ensures { result ≡ fold spec.hashed hash (bytes_of (number_bits (8 * bytes) number)) }
{
    let mut hash = hash;
    for behind in (0..bytes).rev() {
        hash = hash_byte(hash, ((number >> (8 * behind)) % 256) as u8);
    }
    hash
}

// How many whole bytes a field takes.
fn bytes_in(field: FieldRef) -> u32
    requires width { width_of field ≤ 128 }
    ensures { result ≡ whole_bytes (width_of field) }
{
    match field {
        FieldRef::Field(place) => place.width.div_ceil(8),
        FieldRef::Valid(_) => 1,
    }
}

fn hash_field(hash: u32, field: FieldRef, store: &Store) -> u32
    requires in_store { IsInStore store.now field }
    ensures { result ≡ fold spec.hashed hash (spec.field_bytes store.now field) }
{
    hash_number(hash, pkt_codec::read(store, field), bytes_in(field))
}

/// The hash of these fields.
#[tactic(auto, unfolding(packet_spec::specs::Choosing::fnv, packet_spec::specs::Choosing::selector_bytes))]
pub(crate) fn hash_of(fields: &[FieldRef], store: &Store) -> u32
    requires in_store { All (IsInStore store.now) fields.now }
    ensures { result ≡ spec.fnv (spec.selector_bytes store.now fields.now) }
{
    let mut hash = START;
    for field in fields {
        hash = hash_field(hash, *field, store);
    }
    hash
}
