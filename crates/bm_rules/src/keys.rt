//! The widths of the keys of transitions.
ghost use Rattle.std.specs.Prelude.{◌≡◌};
ghost use Rattle.std.specs.List.{list_any};
ghost use Rattle.bm_rules.specs.Fields.{part_width, part_bytes, exceeds};
ghost use Rattle.bm_rules.specs.Flaw.{keys_exceed};

use crate::fields;
use crate::scope::Scope;
use bm_records::raw::{ParseState, Part, RawField};

fn part_width(scope: &Scope, field: &RawField) -> u32
    ensures { result ≡ part_width scope.now.raw.now field.now }
{
    match field {
        Part::Served(field) => fields::read_width(scope, field),
        Part::LeftOut => 0,
    }
}

fn part_bytes(scope: &Scope, field: &RawField) -> u64
    ensures { result ≡ part_bytes scope.now.raw.now field.now }
{
    (u64::from(part_width(scope, field)) + 7) / 8
}

#[tactic(auto, using(bm_records::proofs::Together::exceeds_most))]
fn key_exceeds(scope: &Scope, fields: &[RawField]) -> bool
    ensures { result ≡ exceeds 16 scope.now.raw.now fields.now }
{
    let mut room = 16;
    for field in fields {
        let bytes = part_bytes(scope, field);
        if bytes > room {
            return true;
        }
        room -= bytes;
    }
    false
}

fn any_exceeds(scope: &Scope, states: &[ParseState]) -> bool
    ensures { result ≡ list_any (λ state. exceeds 16 scope.now.raw.now state.transition_key) states.now }
{
    states.iter().any(|state| key_exceeds(scope, state.transition_key.as_slice()))
}

/// Whether the key of a state's transitions takes more than 16 bytes.
#[tactic(auto, unfolding(crate::specs::Flaw::keys_exceed))]
pub(crate) fn keys_exceed(scope: &Scope) -> bool
    ensures { result ≡ keys_exceed scope.now.raw.now }
{
    any_exceeds(scope, scope.raw.parser.parse_states.as_slice())
}
