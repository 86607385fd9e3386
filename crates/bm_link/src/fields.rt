//! Headers and fields by their places.
ghost use Rattle.std.specs.Prelude.{◌≡◌, ◌≤◌, ◌<◌, ◌+◌, ◌^◌, length, is_some, option_copied, IfOk, IfSome};
ghost use Rattle.bm_rules.specs.Names.{named, place_of as names_place};
ghost use Rattle.bm_rules.specs.Fields.{fields_in, type_of, field_bits, field_by_names};
ghost use Rattle.link_spec.specs.Fields.{at, header_at, fields_named, fields_before, header_place, field_by, field_at, field_ref, target_at, part_ref};
ghost use Rattle.bm_link.specs.Places.{AreFirsts};

use bm_expr::{FieldPlace, HeaderPlace};
use bm_pipeline::headers::FieldRef;
use bm_records::raw::{FieldName, Header, HeaderType, Part, RawField, RawProgram, TypeField};
use bm_rules::fields::is_validity;
use bm_rules::names;
use bm_values::literals::width_bits;
use list_types::NoMemory;
use name_index::{Index, Name};
use std::alloc::Global;

/// The headers of a program and their types, by their names.
#[derive(Drop)]
pub(crate) struct Fields<'p, 'a> {
    pub raw: &'p RawProgram<'a>,
    pub types: Index<'p, HeaderType<'a>>,
    pub headers: Index<'p, Header<'a>>,
    /// How many fields stand before each header, and all.
    pub firsts: Vec<usize>,
    ghost of_types: { types ≡ raw.now.header_types },
    ghost of_headers: { headers ≡ raw.now.headers },
    ghost counted: { AreFirsts raw.now (length raw.now.headers) firsts.items },
    ghost room: { fields_before raw.now (length raw.now.headers) < 2 ^ 64 },
}

/// The type of a header.
pub(crate) fn type_of<'p, 'a>(
    raw: &'p RawProgram<'a>,
    types: &Index<'p, HeaderType<'a>>,
    header: &Header,
) -> Option<&'p HeaderType<'a>>
    requires { types.now ≡ raw.now.header_types }
    ensures { option_copied result ≡ type_of raw.now header.now }
{
    types.named(&header.header_type)
}

/// How many fields a type has, if there is one.
pub(crate) fn count_of(found: Option<&HeaderType>) -> usize
    ensures { result ≡ length (fields_in (option_copied found.entry)) }
{
    match found {
        Some(header_type) => header_type.fields.len(),
        None => 0,
    }
}

fn field_in<'p, 'a>(found: Option<&'p HeaderType<'a>>, name: &str) -> Option<&'p TypeField<'a>>
    ensures { option_copied result ≡ named (λ field. field.name) name.now (fields_in (option_copied found.entry)) }
{
    match found {
        Some(header_type) => names::named(header_type.fields.as_slice(), name),
        None => None,
    }
}

fn place_in(found: Option<&HeaderType>, name: &str) -> Option<usize>
    ensures place { result ≡ names_place (λ field. field.name) name.now (fields_in (option_copied found.entry)) }
    ensures inside { IfSome result (λ place. place < length (fields_in (option_copied found.entry))) }
{
    match found {
        Some(header_type) => names::place_of(header_type.fields.as_slice(), name),
        None => None,
    }
}

// What is counted by a number of the machine is below its limit.
fn room(raw: &RawProgram, all: usize)
    requires { all ≡ fields_before raw.now (length raw.now.headers) }
    ensures { fields_before raw.now (length raw.now.headers) < 2 ^ 64 }
{}

// Fields that no number counts have no memory either.
fn firsts_of<'p, 'a>(
    alloc: Global,
    raw: &'p RawProgram<'a>,
    types: &Index<'p, HeaderType<'a>>,
) -> Result<Vec<usize>, NoMemory>
    requires { types.now ≡ raw.now.header_types }
    ensures counted { IfOk result (λ firsts. AreFirsts raw.now (length raw.now.headers) firsts.items) }
    ensures room { IfOk result (λ _. fields_before raw.now (length raw.now.headers) < 2 ^ 64) }
{
    let mut firsts = Vec::new(alloc);
    let mut first: usize = 0;
    firsts.push(first)?;
    for header in raw.headers.as_slice() {
        let count = count_of(type_of(raw, types, header));
        first = first.checked_add(count).ok_or(NoMemory)?;
        firsts.push(first)?;
    }
    room(raw, first);
    Ok(firsts)
}

impl<'p, 'a> Fields<'p, 'a> {
    pub(crate) fn of(alloc: Global, raw: &'p RawProgram<'a>) -> Result<Fields<'p, 'a>, NoMemory>
        ensures { IfOk result (λ fields. fields.raw.now ≡ raw.now) }
    {
        let types = Index::of(alloc, raw.header_types.as_slice())?;
        let headers = Index::of(alloc, raw.headers.as_slice())?;
        let firsts = firsts_of(alloc, raw, &types)?;
        Ok(Fields {
            raw,
            types,
            headers,
            firsts,
        })
    }
}

/// The place of the header of a name.
pub(crate) fn header_at(fields: &Fields, name: &str) -> usize
    ensures place { result ≡ header_at fields.now.raw.now name.now }
    ensures inside { result ≤ length fields.now.raw.now.headers }
{
    match fields.headers.place_at(name) {
        Some(place) => place,
        None => 0,
    }
}

/// The place of the header of a name in the program.
pub(crate) fn header_of(fields: &Fields, name: &Name) -> usize
    ensures { result ≡ header_at fields.now.raw.now name.now }
{
    header_at(fields, name.as_str())
}

/// The type of the header of a name.
fn type_named<'p, 'a>(fields: &Fields<'p, 'a>, name: &str) -> Option<&'p HeaderType<'a>>
    ensures { fields_in (option_copied result) ≡ fields_named fields.now.raw.now name.now }
{
    match fields.headers.named_at(name) {
        Some(header) => type_of(fields.raw, &fields.types, header),
        None => None,
    }
}

/// Where the fields of the header of a name stand.
pub(crate) fn header_place(fields: &Fields, name: &str) -> HeaderPlace
    ensures { result ≡ header_place fields.now.raw.now name.now }
{
    let header = header_at(fields, name);
    HeaderPlace {
        header,
        first: fields.firsts[header],
        count: count_of(type_named(fields, name)),
    }
}

/// The same of a name in the program.
pub(crate) fn place_of(fields: &Fields, name: &Name) -> HeaderPlace
    ensures { result ≡ header_place fields.now.raw.now name.now }
{
    header_place(fields, name.as_str())
}

fn bits_of(field: Option<&TypeField>) -> u32
    ensures { result ≡ field_bits (option_copied field.entry) }
{
    match field {
        Some(field) => width_bits(&field.width),
        None => 0,
    }
}

// The place of a field behind the first of its header.
fn place_behind(fields: &Fields, header: &str, first: usize, place: usize) -> usize
    requires first { first ≡ fields_before fields.now.raw.now (header_at fields.now.raw.now header.now) }
    requires place { place < length (fields_named fields.now.raw.now header.now) }
    ensures { result ≡ first + place }
{
    first + place
}

fn index_of(fields: &Fields, header: &str, field: &str) -> usize
    ensures { result ≡ fields_before fields.now.raw.now (header_at fields.now.raw.now header.now) + at (λ field. field.name) field.now (fields_named fields.now.raw.now header.now) }
{
    let first = fields.firsts[header_at(fields, header)];
    match place_in(type_named(fields, header), field) {
        Some(place) => place_behind(fields, header, first, place),
        None => first,
    }
}

/// The place of the field of the names of its header and of itself.
#[tactic(auto, using(crate::proofs::Standing::bits_named))]
pub(crate) fn field_by(fields: &Fields, header: &str, field: &str) -> FieldPlace
    ensures { result ≡ field_by fields.now.raw.now header.now field.now }
{
    FieldPlace {
        index: index_of(fields, header, field),
        header: header_at(fields, header),
        width: bits_of(field_in(type_named(fields, header), field)),
    }
}

/// Whether there is a field of the names of its header and of itself.
#[tactic(auto, using(crate::proofs::Standing::field_named))]
pub(crate) fn has_field(fields: &Fields, header: &str, field: &str) -> bool
    ensures { result ≡ is_some (field_by_names fields.now.raw.now header.now field.now) }
{
    field_in(type_named(fields, header), field).is_some()
}

/// The place of the field of both names together.
pub(crate) fn field_at(fields: &Fields, name: &FieldName) -> FieldPlace
    ensures { result ≡ field_at fields.now.raw.now name.now }
{
    field_by(fields, name.header.as_str(), name.field.as_str())
}

/// What is read as a field.
pub(crate) fn field_ref(fields: &Fields, name: &FieldName) -> FieldRef
    ensures { result ≡ field_ref fields.now.raw.now name.now }
{
    if is_validity(name) {
        FieldRef::Valid(header_of(fields, &name.header))
    } else {
        FieldRef::Field(field_at(fields, name))
    }
}

/// The place of a field that is written.
pub(crate) fn target_at(fields: &Fields, name: &RawField) -> FieldPlace
    ensures { result ≡ target_at fields.now.raw.now name.now }
{
    match name {
        Part::Served(name) => field_at(fields, name),
        Part::LeftOut => FieldPlace {
            index: 0,
            header: 0,
            width: 0,
        },
    }
}

/// What is read as a field, of a name that is served.
pub(crate) fn part_ref(fields: &Fields, name: &RawField) -> FieldRef
    ensures { result ≡ part_ref fields.now.raw.now name.now }
{
    match name {
        Part::Served(name) => field_ref(fields, name),
        Part::LeftOut => FieldRef::Valid(0),
    }
}
