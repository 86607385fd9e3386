//! One field more of a scan, from what the fields before gave.
ghost use Rattle.std.specs.Prelude.{◌≡◌, [], ◌∷◌, true, is_some, Err};
ghost use Rattle.std.specs.Option.{option_map};
ghost use Rattle.wire_fields.specs.Field.{field_of};
ghost use Rattle.wire_messages.specs.Answers.{Reads, ReadsInMemory, first_is_read, packed_first, first_number_is_read};
ghost use Rattle.wire_messages.specs.Message.{bytes_of, given, number_at};
ghost use Rattle.wire_messages.specs.Numbers.{as_uint32, as_uint64, as_int32, as_int64, as_bool};
ghost use Rattle.wire_messages.specs.Scans.{text_of, last_from, all_from, one_from, packed_from, numbers_from};

use crate::errors::Unreadable;
use crate::values;
use list_types::Refusal;
use text_lists::TextList;
use wire_fields::{Field, varint};

#[tactic(auto, unfolding(crate::specs::Message::number_at))]
pub(crate) fn next_uint32(before: u32, field: Field<'_>, number: u32) -> Result<u32, Unreadable>
    ensures { Reads (λ x. x) result (number_at as_uint32 before number (field_of field.entry ∷ [])) }
{
    if values::number_of(field) != number {
        return Ok(before);
    }
    values::uint32(values::varint(field)?)
}

#[tactic(auto, unfolding(crate::specs::Message::number_at))]
pub(crate) fn next_uint64(before: u64, field: Field<'_>, number: u32) -> Result<u64, Unreadable>
    ensures { Reads (λ x. x) result (number_at as_uint64 before number (field_of field.entry ∷ [])) }
{
    if values::number_of(field) != number {
        return Ok(before);
    }
    values::uint64(values::varint(field)?)
}

#[tactic(auto, unfolding(crate::specs::Message::number_at))]
pub(crate) fn next_int32(before: i32, field: Field<'_>, number: u32) -> Result<i32, Unreadable>
    ensures { Reads (λ x. x) result (number_at as_int32 before number (field_of field.entry ∷ [])) }
{
    if values::number_of(field) != number {
        return Ok(before);
    }
    values::int32(values::varint(field)?)
}

#[tactic(auto, unfolding(crate::specs::Message::number_at))]
pub(crate) fn next_int64(before: i64, field: Field<'_>, number: u32) -> Result<i64, Unreadable>
    ensures { Reads (λ x. x) result (number_at as_int64 before number (field_of field.entry ∷ [])) }
{
    if values::number_of(field) != number {
        return Ok(before);
    }
    values::int64(values::varint(field)?)
}

#[tactic(auto, unfolding(crate::specs::Message::number_at))]
pub(crate) fn next_boolean(before: bool, field: Field<'_>, number: u32) -> Result<bool, Unreadable>
    ensures { Reads (λ x. x) result (number_at as_bool before number (field_of field.entry ∷ [])) }
{
    if values::number_of(field) != number {
        return Ok(before);
    }
    values::boolean(values::varint(field)?)
}

pub(crate) fn next_bytes<'a>(
    before: &'a [u8],
    field: Field<'a>,
    number: u32,
) -> Result<&'a [u8], Unreadable>
    ensures { Reads (λ x. x.now) result (last_from bytes_of number before.now (field_of field.entry ∷ [])) }
{
    if values::number_of(field) != number {
        return Ok(before);
    }
    values::bytes(field)
}

pub(crate) fn next_text<'a>(
    before: &'a str,
    field: Field<'a>,
    number: u32,
) -> Result<&'a str, Unreadable>
    ensures { Reads (λ x. x.now) result (last_from text_of number before.now (field_of field.entry ∷ [])) }
{
    if values::number_of(field) != number {
        return Ok(before);
    }
    values::text(field)
}

pub(crate) fn next_message<'a>(
    before: Option<&'a [u8]>,
    field: Field<'a>,
    number: u32,
) -> Result<Option<&'a [u8]>, Unreadable>
    ensures { Reads (option_map (λ x. x.now)) result (one_from bytes_of number (option_map (λ x. x.now) before.entry) (field_of field.entry ∷ [])) }
{
    if values::number_of(field) != number {
        return Ok(before);
    }
    let bytes = values::bytes(field)?;
    if before.is_some() {
        return Err(Unreadable);
    }
    Ok(Some(bytes))
}

pub(crate) fn push_text(
    found: &mut TextList,
    field: Field<'_>,
    number: u32,
) -> Result<(), Refusal<Unreadable>>
    ensures exact { ReadsInMemory (λ _. found.new) result (all_from text_of number found.old (field_of field.entry ∷ [])) }
    ensures memory { result ≡ Err Refusal.NoMemory → first_is_read text_of (given number (field_of field.entry ∷ [])) ≡ true }
{
    if values::number_of(field) == number {
        found.push(values::text(field)?)?;
    }
    Ok(())
}

pub(crate) fn push_packed(found: &mut Vec<u32>, bytes: &[u8]) -> Result<(), Refusal<Unreadable>>
    ensures exact { ReadsInMemory (λ _. found.new.items) result (packed_from found.old.items bytes.now) }
    ensures memory { result ≡ Err Refusal.NoMemory → is_some (packed_first bytes.now) ≡ true }
{
    let mut left = bytes;
    while !left.is_empty() {
        let Ok((value, rest)) = varint(left) else {
            return Err(Refusal::For(Unreadable));
        };
        found.push(values::uint32(value)?)?;
        left = rest;
    }
    Ok(())
}

pub(crate) fn push_numbers(
    found: &mut Vec<u32>,
    field: Field<'_>,
    number: u32,
) -> Result<(), Refusal<Unreadable>>
    ensures exact { ReadsInMemory (λ _. found.new.items) result (numbers_from number found.old.items (field_of field.entry ∷ [])) }
    ensures memory { result ≡ Err Refusal.NoMemory → first_number_is_read (given number (field_of field.entry ∷ [])) ≡ true }
{
    if values::number_of(field) != number {
        return Ok(());
    }
    match field {
        Field::Varint { value, .. } => {
            found.push(values::uint32(value)?)?;
            Ok(())
        }
        Field::Bytes { bytes, .. } => push_packed(found, bytes),
        _ => Err(Refusal::For(Unreadable)),
    }
}
