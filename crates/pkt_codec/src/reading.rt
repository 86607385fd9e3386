//! What is read of a store, and the keys of a parser's states.
ghost use Rattle.std.specs.Prelude.{◌≡◌, ℕ, ◌+◌, ◌*◌, ◌%◌, ◌^◌, ◌≤◌, All, bit_and};
ghost use Rattle.bm_pipeline.specs.Places.{width_of, whole_bytes};
ghost use Rattle.program_spec.specs.Parsing as parsing;
ghost use Rattle.program_spec.specs.Parsing.{key_passes};
ghost use Rattle.program_spec.specs.Stores as stores;
ghost use Rattle.pkt_codec.specs.Room.{IsInStore};

use bm_expr::Store;
use bm_pipeline::headers::FieldRef;
use bm_pipeline::parser::{KeyTest, ParseState, Transition};

/// What is read as a field: its number, 0 where its header is invalid; of `$valid$` 1 where the header is valid, else 0.
pub fn read(store: &Store, field: FieldRef) -> u128
    requires in_store { IsInStore store.now field }
    ensures { result ≡ stores.read store.now field }
{
    match field {
        FieldRef::Field(place) => store.field(place),
        FieldRef::Valid(header) => u128::from(store.is_valid(header)),
    }
}

/// The width in bits of what is read as a field.
pub(crate) fn width(field: FieldRef) -> u32
    ensures { result ≡ width_of field }
{
    match field {
        FieldRef::Field(place) => place.width,
        FieldRef::Valid(_) => 1,
    }
}

// A number in whole bytes behind others, of which 16 bytes are kept.
fn behind(key: u128, width: u32, number: u128) -> u128
    requires { width ≤ 128 }
    ensures { result ≡ (key * 2 ^ (8 * whole_bytes width) + number) % 2 ^ 128 }
{
    let shift = width.div_ceil(8) * 8;
    if shift < 128 {
        (key << shift).wrapping_add(number)
    } else {
        number
    }
}

// The fields of a key laid end to end, each in whole bytes, of which 16 bytes are kept.
fn joined(store: &Store, fields: &[FieldRef]) -> u128
    requires in_store { All (IsInStore store.now) fields.now }
    ensures { result ≡ stores.joined store.now fields.now % 2 ^ 128 }
{
    let mut key = 0;
    for field in fields {
        key = behind(key, width(*field), read(store, *field));
    }
    key
}

// The bits of a number with these lowest 16 bytes that a mask has.
fn masked(key: u128, mask: u128) -> u128
    ensures { (whole : ℕ) → key ≡ whole % 2 ^ 128 → result ≡ bit_and whole mask }
{
    key & mask
}

// Whether a key of these lowest 16 bytes passes a test.
fn passes(test: KeyTest, key: u128) -> bool
    ensures { (whole : ℕ) → key ≡ whole % 2 ^ 128 → result ≡ key_passes test whole }
{
    match test {
        KeyTest::Default => true,
        KeyTest::Masked { value, mask } => masked(key, mask) == value & mask,
    }
}

/// The first transition that a state's key takes.
pub(crate) fn taken(state: &ParseState, store: &Store) -> Option<Transition>
    requires in_store { All (IsInStore store.now) state.now.transition_key }
    ensures { result ≡ parsing.taken state.now store.now }
{
    let key = joined(store, state.transition_key.as_slice());
    for transition in state.transitions.as_slice() {
        if passes(transition.test, key) {
            return Some(*transition);
        }
    }
    None
}
