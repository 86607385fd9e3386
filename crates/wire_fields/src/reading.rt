//! The parts of a field, read from the front of bytes.
ghost use Rattle.std.specs.Prelude.{◌≡◌, ◌%◌, ◌<◌, length, IfOk};
ghost use Rattle.std.specs.Int.{w32, w64};
ghost use Rattle.list_types.specs.Results.{GivesExactly};
ghost use Rattle.wire_fields.specs.Reading.{byte_at, varint_at, number_at, bytes_at, type_of, tag_at, payload_at, numbered, field_at};
ghost use Rattle.wire_fields.specs.Field.{field_of, Begins};

use crate::wire::{Field, WireFault, WireType};

const MAX_NUMBER: u64 = 536_870_911;

// The tenth byte of a varint has the highest of 64 bits alone.
const MAX_TENTH: u8 = 1;

fn byte(bytes: &[u8]) -> Result<(u8, &[u8]), WireFault>
    ensures { GivesExactly (λ x. (x.0, x.1.now)) result (byte_at bytes.now) }
{
    match bytes {
        [] => Err(WireFault::Truncated),
        [first, rest @ ..] => Ok((*first, rest)),
    }
}

/// A varint, and the bytes after it.
pub fn varint(bytes: &[u8]) -> Result<(u64, &[u8]), WireFault>
    ensures { GivesExactly (λ x. (x.0, x.1.now)) result (varint_at bytes.now) }
{
    let mut value: u64 = 0;
    let mut unit: u64 = 1;
    let mut rest = bytes;
    for _ in 0..9u32 {
        let (digit, after) = byte(rest)?;
        value += u64::from(digit % 128) * unit;
        if digit < 128 {
            return Ok((value, after));
        }
        unit *= 128;
        rest = after;
    }
    let (last, rest) = byte(rest)?;
    if last > MAX_TENTH {
        return Err(WireFault::VarintLong);
    }
    Ok((value + u64::from(last) * unit, rest))
}

fn fixed64(bytes: &[u8]) -> Result<(u64, &[u8]), WireFault>
    ensures { GivesExactly (λ x. (x.0, x.1.now)) result (number_at w64 bytes.now) }
{
    if bytes.len() < 8 {
        return Err(WireFault::Truncated);
    }
    let (front, rest) = bytes.split_at(8);
    let value = u64::from_le_bytes([
        front[0], front[1], front[2], front[3], front[4], front[5], front[6], front[7],
    ]);
    Ok((value, rest))
}

fn fixed32(bytes: &[u8]) -> Result<(u32, &[u8]), WireFault>
    ensures { GivesExactly (λ x. (x.0, x.1.now)) result (number_at w32 bytes.now) }
{
    if bytes.len() < 4 {
        return Err(WireFault::Truncated);
    }
    let (front, rest) = bytes.split_at(4);
    let value = u32::from_le_bytes([front[0], front[1], front[2], front[3]]);
    Ok((value, rest))
}

#[tactic(auto, unfolding(crate::specs::Reading::bytes_at))]
fn inside(bytes: &[u8]) -> Result<(&[u8], &[u8]), WireFault>
    ensures { GivesExactly (λ x. (x.0.now, x.1.now)) result (bytes_at bytes.now) }
{
    let (size, rest) = varint(bytes)?;
    if (rest.len() as u64) < size {
        return Err(WireFault::Truncated);
    }
    Ok(rest.split_at(size as usize))
}

fn wire_type(tag: u64) -> Result<WireType, WireFault>
    ensures { GivesExactly (λ x. x) result (type_of (tag % 8)) }
{
    match tag % 8 {
        0 => Ok(WireType::Varint),
        1 => Ok(WireType::Fixed64),
        2 => Ok(WireType::Bytes),
        5 => Ok(WireType::Fixed32),
        _ => Err(WireFault::BadType),
    }
}

#[tactic(auto, unfolding(crate::specs::Reading::tag_at))]
fn tag(bytes: &[u8]) -> Result<(u32, WireType, &[u8]), WireFault>
    ensures { GivesExactly (λ x. (x.0, x.1, x.2.now)) result (tag_at bytes.now) }
{
    let (tag, rest) = varint(bytes)?;
    let wire_type = wire_type(tag)?;
    let number = tag / 8;
    if number == 0 || number > MAX_NUMBER {
        return Err(WireFault::ZeroField);
    }
    Ok((number as u32, wire_type, rest))
}

fn payload(number: u32, wire_type: WireType, bytes: &[u8]) -> Result<(Field<'_>, &[u8]), WireFault>
    ensures { GivesExactly (λ x. (field_of x.0, x.1.now)) result (numbered number (payload_at wire_type bytes.now)) }
{
    match wire_type {
        WireType::Varint => {
            let (value, rest) = varint(bytes)?;
            Ok((Field::Varint { number, value }, rest))
        }
        WireType::Fixed64 => {
            let (value, rest) = fixed64(bytes)?;
            Ok((Field::Fixed64 { number, value }, rest))
        }
        WireType::Bytes => {
            let (bytes, rest) = inside(bytes)?;
            Ok((Field::Bytes { number, bytes }, rest))
        }
        WireType::Fixed32 => {
            let (value, rest) = fixed32(bytes)?;
            Ok((Field::Fixed32 { number, value }, rest))
        }
    }
}

/// The field at the front, and the bytes after it.
#[tactic(auto, unfolding(crate::specs::Reading::field_at))]
pub(crate) fn field(bytes: &[u8]) -> Result<(Field<'_>, &[u8]), WireFault>
    ensures begins { IfOk result (λ x. Begins (field_of x.0) bytes.now x.1.now) }
    ensures shorter { IfOk result (λ x. length x.1.now < length bytes.now) }
    ensures exact { GivesExactly (λ x. (field_of x.0, x.1.now)) result (field_at bytes.now) }
{
    let (number, wire_type, rest) = tag(bytes)?;
    payload(number, wire_type, rest)
}
