//! The match of an entry against its table's key.
ghost use Rattle.std.specs.Prelude.{◌≡◌, ◌==◌, ◌&&◌, ◌<◌, ◌≤◌, ◌-◌, ◌%◌, ◌^◌, not, IfSome, map};
ghost use Rattle.std.specs.Option.{option_map};
ghost use Rattle.std.specs.List.{list_any, list_all};
ghost use Rattle.plane_spec.specs.Objects.{field_of};
ghost use Rattle.plane_spec.specs.UpdateRules.{is_prefix_length, all_zero, is_formed, is_formed_in, matched, fits, fits_in, natural, is_canonical, is_canonical_in, repeats, asked_of, test_by, is_exact};
ghost use Rattle.p4info_model.specs.Valid.{IsWidth};
ghost use Rattle.write_rules.specs.Widths.{HasWidths};

use crate::numbers;
use p4_types::info::{MatchField, MatchKind, Table};
use p4_types::keys::FieldTest;
use p4_types::messages::{FieldMatch, FieldMatchKind};

/// The field of the table's key with this id.
pub(crate) fn field(table: &Table, id: u32) -> Option<&MatchField>
    ensures found { option_map (λ field. field.now) result ≡ field_of id table.now }
    ensures width { HasWidths table.now → IfSome result (λ field. IsWidth field.now.bitwidth) }
{
    for field in table.match_fields.as_slice() {
        if field.id == id {
            return Some(field);
        }
    }
    None
}

fn is_prefix_length(width: u32, length: i32) -> bool
    ensures { result ≡ is_prefix_length width length }
{
    length >= 1 && length as u32 <= width
}

pub(crate) fn all_zero(bytes: &[u8]) -> bool
    ensures { result ≡ all_zero bytes.now }
{
    for byte in bytes {
        if *byte != 0 {
            return false;
        }
    }
    true
}

fn is_formed(field: &MatchField, kind: &FieldMatchKind) -> bool
    ensures { result ≡ is_formed field.now kind.now }
{
    match (field.kind, kind) {
        (MatchKind::Exact, FieldMatchKind::Exact { value }) => !value.is_empty(),
        (MatchKind::Ternary, FieldMatchKind::Ternary { value, mask }) => {
            !value.is_empty() && !mask.is_empty() && !all_zero(mask.as_slice())
        }
        (MatchKind::Lpm, FieldMatchKind::Lpm { value, prefix_len }) => {
            !value.is_empty() && is_prefix_length(field.bitwidth, *prefix_len)
        }
        (MatchKind::Range, FieldMatchKind::Range { low, high }) => {
            !low.is_empty() && !high.is_empty()
        }
        (MatchKind::Optional, FieldMatchKind::Optional { value }) => !value.is_empty(),
        _ => false,
    }
}

fn is_formed_in(table: &Table, asked: &FieldMatch) -> bool
    ensures { result ≡ is_formed_in (matched table.now asked.now) }
{
    match (field(table, asked.field_id), &asked.kind) {
        (Some(field), Some(kind)) => is_formed(field, kind),
        _ => false,
    }
}

/// Whether each match has the form of its field.
pub(crate) fn all_formed(table: &Table, matches: &[FieldMatch]) -> bool
    ensures { result ≡ list_all (λ asked. is_formed_in (matched table.now asked)) matches.now }
{
    for asked in matches {
        if !is_formed_in(table, asked) {
            return false;
        }
    }
    true
}

/// Whether a match names the field.
pub(crate) fn names(matches: &[FieldMatch], id: u32) -> bool
    ensures { result ≡ list_any (λ given. given == id) (map (λ asked. asked.field_id) matches.now) }
{
    for asked in matches {
        if asked.field_id == id {
            return true;
        }
    }
    false
}

/// Whether two matches name one field.
pub(crate) fn name_twice(matches: &[FieldMatch]) -> bool
    ensures { result ≡ repeats (map (λ asked. asked.field_id) matches.now) }
{
    match matches {
        [] => false,
        [first, others @ ..] => names(others, first.field_id) || name_twice(others),
    }
}

/// Whether an exact field of the key is named by no match.
pub(crate) fn miss_exact(table: &Table, matches: &[FieldMatch]) -> bool
    ensures { result ≡ list_any (λ field. is_exact field.kind && not (list_any (λ id. id == field.id) (map (λ asked. asked.field_id) matches.now))) table.now.match_fields }
{
    for field in table.match_fields.as_slice() {
        if matches!(field.kind, MatchKind::Exact) && !names(matches, field.id) {
            return true;
        }
    }
    false
}

fn fits(width: u32, kind: &FieldMatchKind) -> bool
    requires { IsWidth width }
    ensures { result ≡ fits width kind.now }
{
    match kind {
        FieldMatchKind::Exact { value } => numbers::fits(value.as_slice(), width),
        FieldMatchKind::Ternary { value, mask } => {
            numbers::fits(value.as_slice(), width) && numbers::fits(mask.as_slice(), width)
        }
        FieldMatchKind::Lpm { value, .. } => numbers::fits(value.as_slice(), width),
        FieldMatchKind::Range { low, high } => {
            numbers::fits(low.as_slice(), width) && numbers::fits(high.as_slice(), width)
        }
        FieldMatchKind::Optional { value } => numbers::fits(value.as_slice(), width),
    }
}

fn fits_in(table: &Table, asked: &FieldMatch) -> bool
    requires { HasWidths table.now }
    ensures { result ≡ fits_in (matched table.now asked.now) }
{
    match (field(table, asked.field_id), &asked.kind) {
        (Some(field), Some(kind)) => fits(field.bitwidth, kind),
        _ => true,
    }
}

/// Whether each match is of numbers within the width of its field.
pub(crate) fn all_fit(table: &Table, matches: &[FieldMatch]) -> bool
    requires { HasWidths table.now }
    ensures { result ≡ list_all (λ asked. fits_in (matched table.now asked)) matches.now }
{
    for asked in matches {
        if !fits_in(table, asked) {
            return false;
        }
    }
    true
}

// A prefix length as a number; what is below 0 counts as 0.
fn natural(length: i32) -> u32
    ensures { result ≡ natural length }
{
    if length < 0 { 0 } else { length as u32 }
}

// Whether the bits of a number behind the first `length` of `width` are 0.
fn ends_in_zeros(value: u128, width: u32, length: u32) -> bool
    requires in_range { width ≤ 128 }
    requires value { value < 2 ^ 128 }
    ensures { result ≡ (value % 2 ^ (width - length) == 0) }
{
    let behind = width.saturating_sub(length);
    if behind == 128 {
        value == 0
    } else {
        value % (1 << behind) == 0
    }
}

fn is_canonical(width: u32, kind: &FieldMatchKind) -> bool
    requires { IsWidth width }
    ensures { result ≡ is_canonical width kind.now }
{
    match kind {
        FieldMatchKind::Ternary { value, mask } => {
            let value = numbers::number(value.as_slice(), width);
            value & numbers::number(mask.as_slice(), width) == value
        }
        FieldMatchKind::Lpm { value, prefix_len } => ends_in_zeros(
            numbers::number(value.as_slice(), width),
            width,
            natural(*prefix_len),
        ),
        FieldMatchKind::Range { low, high } => {
            let low = numbers::number(low.as_slice(), width);
            let high = numbers::number(high.as_slice(), width);
            low <= high && !(low == 0 && high == numbers::greatest(width))
        }
        FieldMatchKind::Exact { .. } => true,
        FieldMatchKind::Optional { .. } => true,
    }
}

fn is_canonical_in(table: &Table, asked: &FieldMatch) -> bool
    requires { HasWidths table.now }
    ensures { result ≡ is_canonical_in (matched table.now asked.now) }
{
    match (field(table, asked.field_id), &asked.kind) {
        (Some(field), Some(kind)) => is_canonical(field.bitwidth, kind),
        _ => true,
    }
}

/// Whether each match is the canonical one of what it asks.
pub(crate) fn all_canonical(table: &Table, matches: &[FieldMatch]) -> bool
    requires { HasWidths table.now }
    ensures { result ≡ list_all (λ asked. is_canonical_in (matched table.now asked)) matches.now }
{
    for asked in matches {
        if !is_canonical_in(table, asked) {
            return false;
        }
    }
    true
}

fn asked_of(matches: &[FieldMatch], id: u32) -> Option<&FieldMatchKind>
    ensures { option_map (λ kind. kind.now) result ≡ asked_of id matches.now }
{
    for asked in matches {
        if asked.field_id == id {
            return asked.kind.as_ref();
        }
    }
    None
}

fn test_by(width: u32, kind: Option<&FieldMatchKind>) -> FieldTest
    requires { IsWidth width }
    ensures { result ≡ test_by width (option_map (λ kind. kind.now) kind.entry) }
{
    match kind {
        None => FieldTest::Any,
        Some(FieldMatchKind::Exact { value }) => {
            FieldTest::Equal(numbers::number(value.as_slice(), width))
        }
        Some(FieldMatchKind::Ternary { value, mask }) => FieldTest::Masked {
            value: numbers::number(value.as_slice(), width),
            mask: numbers::number(mask.as_slice(), width),
        },
        Some(FieldMatchKind::Lpm { value, prefix_len }) => FieldTest::Prefix {
            value: numbers::number(value.as_slice(), width),
            length: natural(*prefix_len),
            width,
        },
        Some(FieldMatchKind::Range { low, high }) => FieldTest::Between {
            low: numbers::number(low.as_slice(), width),
            high: numbers::number(high.as_slice(), width),
        },
        Some(FieldMatchKind::Optional { value }) => {
            FieldTest::Equal(numbers::number(value.as_slice(), width))
        }
    }
}

/// What the matches ask of a field of the key.
pub(crate) fn test_of(field: &MatchField, matches: &[FieldMatch]) -> FieldTest
    requires { IsWidth field.now.bitwidth }
    ensures { result ≡ test_by field.now.bitwidth (asked_of field.now.id matches.now) }
{
    test_by(field.bitwidth, asked_of(matches, field.id))
}
