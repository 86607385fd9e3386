//! Headers and fields by their names.
ghost use Rattle.std.specs.Prelude.{◌≡◌, ◌+◌, ◌*◌, ◌/◌, ℕ, map, nat_lt, option_copied, option_and_then, sum_by};
ghost use Rattle.bm_rules.specs.Fields.{header_named, has_header, type_of, field_by_names, field_named, is_validity, is_readable, is_writable, is_part, bits_of_names, read_width, part_width};

use crate::names;
use crate::scope::Scope;
use bm_records::raw::{FieldName, Header, HeaderType, Part, RawField, TypeField};
use bm_values::literals::width_bits;
use name_index::Name;

pub(crate) fn header_named<'p, 'a>(scope: &Scope<'p, 'a>, name: &str) -> Option<&'p Header<'a>>
    ensures { option_copied result ≡ header_named scope.now.raw.now name.now }
{
    names::named(scope.raw.headers.as_slice(), name)
}

/// Whether there is a header of a name.
pub(crate) fn has_header(scope: &Scope, name: &str) -> bool
    ensures { result ≡ has_header scope.now.raw.now name.now }
{
    header_named(scope, name).is_some()
}

/// Whether a header that is served is there.
pub(crate) fn is_header(scope: &Scope, name: &Part<Name>) -> bool
    ensures { result ≡ is_part (has_header scope.now.raw.now) name.now }
{
    match name {
        Part::Served(name) => has_header(scope, name.as_str()),
        Part::LeftOut => true,
    }
}

/// The type of the header of a name.
fn type_of<'p, 'a>(scope: &Scope<'p, 'a>, name: &str) -> Option<&'p HeaderType<'a>>
    ensures { option_copied result ≡ option_and_then (type_of scope.now.raw.now) (header_named scope.now.raw.now name.now) }
{
    match header_named(scope, name) {
        None => None,
        Some(header) => scope.types.named(&header.header_type),
    }
}

#[tactic(auto, using(crate::proofs::Laid::field_by_type))]
fn field_by_names<'p, 'a>(
    scope: &Scope<'p, 'a>,
    header: &str,
    field: &str,
) -> Option<&'p TypeField<'a>>
    ensures { option_copied result ≡ field_by_names scope.now.raw.now header.now field.now }
{
    match type_of(scope, header) {
        None => None,
        Some(header_type) => names::named(header_type.fields.as_slice(), field),
    }
}

fn field_named<'p, 'a>(scope: &Scope<'p, 'a>, name: &FieldName) -> Option<&'p TypeField<'a>>
    ensures { option_copied result ≡ field_named scope.now.raw.now name.now }
{
    field_by_names(scope, name.header.as_str(), name.field.as_str())
}

/// Whether a name stands for whether its header is valid.
pub fn is_validity(name: &FieldName) -> bool
    ensures { result ≡ is_validity name.now }
{
    name.field.as_str() == "$valid$"
}

/// Whether a name that is read stands for a field or the validity of a header.
pub(crate) fn is_readable(scope: &Scope, name: &FieldName) -> bool
    ensures { result ≡ is_readable scope.now.raw.now name.now }
{
    if is_validity(name) {
        has_header(scope, name.header.as_str())
    } else {
        field_named(scope, name).is_some()
    }
}

/// Whether a name that is written stands for a field.
pub(crate) fn is_writable(scope: &Scope, name: &FieldName) -> bool
    ensures { result ≡ is_writable scope.now.raw.now name.now }
{
    !is_validity(name) && field_named(scope, name).is_some()
}

/// The same of a name that is served and is read.
pub(crate) fn is_read(scope: &Scope, name: &RawField) -> bool
    ensures { result ≡ is_part (is_readable scope.now.raw.now) name.now }
{
    match name {
        Part::Served(name) => is_readable(scope, name),
        Part::LeftOut => true,
    }
}

/// The same of one that is written.
pub(crate) fn is_target(scope: &Scope, name: &RawField) -> bool
    ensures { result ≡ is_part (is_writable scope.now.raw.now) name.now }
{
    match name {
        Part::Served(name) => is_writable(scope, name),
        Part::LeftOut => true,
    }
}

/// The bits of the field of these names, 0 where there is none.
pub(crate) fn bits_of_names(scope: &Scope, header: &str, field: &str) -> u32
    ensures { result ≡ bits_of_names scope.now.raw.now header.now field.now }
{
    match field_by_names(scope, header, field) {
        None => 0,
        Some(field) => width_bits(&field.width),
    }
}

/// The width in bits of what is read as a field: one bit where it is a validity.
pub(crate) fn read_width(scope: &Scope, name: &FieldName) -> u32
    ensures { result ≡ read_width scope.now.raw.now name.now }
{
    if is_validity(name) {
        1
    } else {
        bits_of_names(scope, name.header.as_str(), name.field.as_str())
    }
}
