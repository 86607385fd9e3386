//! The values that one field bears.
ghost use Rattle.std.specs.Prelude.{◌≡◌};
ghost use Rattle.wire_fields.specs.Field.{field_of};
ghost use Rattle.wire_messages.specs.Answers.{Reads};
ghost use Rattle.wire_messages.specs.Message.{varint_of, bytes_of};
ghost use Rattle.wire_messages.specs.Numbers.{as_uint32, as_uint64, as_int32, as_int64, as_bool};
ghost use Rattle.wire_messages.specs.Scans.{text_of};

use crate::errors::Unreadable;
use wire_fields::Field;

pub(crate) fn number_of(field: Field<'_>) -> u32
    ensures { result ≡ (field_of field.entry).number }
{
    match field {
        Field::Varint { number, .. } => number,
        Field::Fixed64 { number, .. } => number,
        Field::Bytes { number, .. } => number,
        Field::Fixed32 { number, .. } => number,
    }
}

pub(crate) fn varint(field: Field<'_>) -> Result<u64, Unreadable>
    ensures { Reads (λ x. x) result (varint_of (field_of field.entry).payload) }
{
    match field {
        Field::Varint { value, .. } => Ok(value),
        _ => Err(Unreadable),
    }
}

pub(crate) fn bytes<'a>(field: Field<'a>) -> Result<&'a [u8], Unreadable>
    ensures { Reads (λ x. x.now) result (bytes_of (field_of field.entry).payload) }
{
    match field {
        Field::Bytes { bytes, .. } => Ok(bytes),
        _ => Err(Unreadable),
    }
}

pub(crate) fn text<'a>(field: Field<'a>) -> Result<&'a str, Unreadable>
    ensures { Reads (λ x. x.now) result (text_of (field_of field.entry).payload) }
{
    match str::from_utf8(bytes(field)?) {
        Ok(text) => Ok(text),
        Err(_) => Err(Unreadable),
    }
}

pub(crate) fn uint32(varint: u64) -> Result<u32, Unreadable>
    ensures { Reads (λ x. x) result (as_uint32 varint) }
{
    if varint < 1 << 32 {
        Ok(varint as u32)
    } else {
        Err(Unreadable)
    }
}

pub(crate) fn uint64(varint: u64) -> Result<u64, Unreadable>
    ensures { Reads (λ x. x) result (as_uint64 varint) }
{
    Ok(varint)
}

pub(crate) fn int32(varint: u64) -> Result<i32, Unreadable>
    ensures { Reads (λ x. x) result (as_int32 varint) }
{
    if varint < 1 << 31 {
        Ok(varint as i32)
    } else if varint >= u64::MAX - (1 << 31) + 1 {
        Ok(-1 - (u64::MAX - varint) as i32)
    } else {
        Err(Unreadable)
    }
}

pub(crate) fn int64(varint: u64) -> Result<i64, Unreadable>
    ensures { Reads (λ x. x) result (as_int64 varint) }
{
    if varint < 1 << 63 {
        Ok(varint as i64)
    } else {
        Ok(-1 - (u64::MAX - varint) as i64)
    }
}

pub(crate) fn boolean(varint: u64) -> Result<bool, Unreadable>
    ensures { Reads (λ x. x) result (as_bool varint) }
{
    match varint {
        0 => Ok(false),
        1 => Ok(true),
        _ => Err(Unreadable),
    }
}
