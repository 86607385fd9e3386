//! Writing the fields of a message, one function for the type of a field. Each adds to the writer the
//! fields that its value is written as. Where memory is out it adds none, but for `texts`.
ghost use Rattle.std.specs.Prelude.{◌≡◌, ◌≤◌, ◌++◌, [], ℕ, take, false, pos, Ok, None, OnOk, OnErr, IfOk};
ghost use Rattle.std.specs.List.{flat_map};
ghost use Rattle.std.specs.Option.{option_map};
ghost use Rattle.wire_fields.specs.Spelling.{varint};
ghost use Rattle.wire_messages.specs.Written.{Uint32, Uint64, Int32, Int64, Flag, ByteString, Text, Texts, Packed, Carried, ChosenUint32, ChosenBytes, InRange, row_bytes, two_complement};

use list_types::NoMemory;
use std::alloc::Global;
use text_lists::TextList;
use wire_fields::Writer;

fn unless_zero(writer: &mut Writer, number: u32, value: u64) -> Result<(), NoMemory>
    requires not_zero { 1 ≤ number }
    requires in_range { number ≤ 536870911 }
    ensures ok { OnOk result (writer.new ≡ writer.old ++ row_bytes number (Uint64 value)) }
    ensures err { OnErr result (writer.new ≡ writer.old) }
    ensures nothing { value ≡ 0 → result ≡ Ok tt }
{
    if value == 0 {
        return Ok(());
    }
    writer.varint(number, value)
}

/// A `uint32` field, unless it is 0.
pub fn uint32(writer: &mut Writer, number: u32, value: u32) -> Result<(), NoMemory>
    requires not_zero { 1 ≤ number }
    requires in_range { number ≤ 536870911 }
    ensures ok { OnOk result (writer.new ≡ writer.old ++ row_bytes number (Uint32 value)) }
    ensures err { OnErr result (writer.new ≡ writer.old) }
    ensures nothing { value ≡ 0 → result ≡ Ok tt }
    ensures fits { InRange (Uint32 value) }
{
    unless_zero(writer, number, u64::from(value))
}

/// A `uint64` field, unless it is 0.
pub fn uint64(writer: &mut Writer, number: u32, value: u64) -> Result<(), NoMemory>
    requires not_zero { 1 ≤ number }
    requires in_range { number ≤ 536870911 }
    ensures ok { OnOk result (writer.new ≡ writer.old ++ row_bytes number (Uint64 value)) }
    ensures err { OnErr result (writer.new ≡ writer.old) }
    ensures nothing { value ≡ 0 → result ≡ Ok tt }
    ensures fits { InRange (Uint64 value) }
{
    unless_zero(writer, number, value)
}

/// An `int32` or `enum` field, unless it is 0; ten bytes where it is negative.
pub fn int32(writer: &mut Writer, number: u32, value: i32) -> Result<(), NoMemory>
    requires not_zero { 1 ≤ number }
    requires in_range { number ≤ 536870911 }
    ensures ok { OnOk result (writer.new ≡ writer.old ++ row_bytes number (Int32 value)) }
    ensures err { OnErr result (writer.new ≡ writer.old) }
    ensures nothing { value ≡ pos 0 → result ≡ Ok tt }
    ensures fits { InRange (Int32 value) }
{
    int64(writer, number, i64::from(value))
}

fn two_complement(value: i64) -> u64
    ensures { result ≡ two_complement value }
{
    if value >= 0 {
        value as u64
    } else {
        u64::MAX - (-1 - value) as u64
    }
}

/// An `int64` field, unless it is 0; ten bytes where it is negative.
pub fn int64(writer: &mut Writer, number: u32, value: i64) -> Result<(), NoMemory>
    requires not_zero { 1 ≤ number }
    requires in_range { number ≤ 536870911 }
    ensures ok { OnOk result (writer.new ≡ writer.old ++ row_bytes number (Int64 value)) }
    ensures err { OnErr result (writer.new ≡ writer.old) }
    ensures nothing { value ≡ pos 0 → result ≡ Ok tt }
    ensures fits { InRange (Int64 value) }
{
    unless_zero(writer, number, two_complement(value))
}

/// A `bool` field, unless it is false.
pub fn boolean(writer: &mut Writer, number: u32, value: bool) -> Result<(), NoMemory>
    requires not_zero { 1 ≤ number }
    requires in_range { number ≤ 536870911 }
    ensures ok { OnOk result (writer.new ≡ writer.old ++ row_bytes number (Flag value)) }
    ensures err { OnErr result (writer.new ≡ writer.old) }
    ensures nothing { value ≡ false → result ≡ Ok tt }
    ensures fits { InRange (Flag value) }
{
    if !value {
        return Ok(());
    }
    writer.varint(number, 1)
}

/// A `bytes` field, unless it is empty.
pub fn bytes(writer: &mut Writer, number: u32, value: &[u8]) -> Result<(), NoMemory>
    requires not_zero { 1 ≤ number }
    requires in_range { number ≤ 536870911 }
    ensures ok { OnOk result (writer.new ≡ writer.old ++ row_bytes number (ByteString value.now)) }
    ensures err { OnErr result (writer.new ≡ writer.old) }
    ensures nothing { value.now ≡ [] → result ≡ Ok tt }
    ensures fits { InRange (ByteString value.now) }
{
    if value.is_empty() {
        return Ok(());
    }
    writer.bytes(number, value)
}

/// A `string` field, unless it is empty.
pub fn text(writer: &mut Writer, number: u32, value: &str) -> Result<(), NoMemory>
    requires not_zero { 1 ≤ number }
    requires in_range { number ≤ 536870911 }
    ensures ok { OnOk result (writer.new ≡ writer.old ++ row_bytes number (Text value.now)) }
    ensures err { OnErr result (writer.new ≡ writer.old) }
    ensures nothing { value.now ≡ [] → result ≡ Ok tt }
    ensures fits { InRange (Text value.now) }
{
    bytes(writer, number, value.as_bytes())
}

/// The bytes of a message that is carried unread, unless it is absent or empty.
pub fn carried(writer: &mut Writer, number: u32, value: Option<&[u8]>) -> Result<(), NoMemory>
    requires not_zero { 1 ≤ number }
    requires in_range { number ≤ 536870911 }
    ensures ok { OnOk result (writer.new ≡ writer.old ++ row_bytes number (Carried (option_map (λ x. x.now) value.entry))) }
    ensures err { OnErr result (writer.new ≡ writer.old) }
    ensures nothing { value.entry ≡ None → result ≡ Ok tt }
{
    match value {
        Some(message) => bytes(writer, number, message),
        None => Ok(()),
    }
}

/// A `uint32` that is the member of a choice, also where it is 0.
pub fn chosen_uint32(writer: &mut Writer, number: u32, value: u32) -> Result<(), NoMemory>
    requires not_zero { 1 ≤ number }
    requires in_range { number ≤ 536870911 }
    ensures ok { OnOk result (writer.new ≡ writer.old ++ row_bytes number (ChosenUint32 value)) }
    ensures err { OnErr result (writer.new ≡ writer.old) }
    ensures fits { InRange (ChosenUint32 value) }
{
    writer.varint(number, u64::from(value))
}

/// `bytes` that are the member of a choice, also where they are empty.
pub fn chosen_bytes(writer: &mut Writer, number: u32, value: &[u8]) -> Result<(), NoMemory>
    requires not_zero { 1 ≤ number }
    requires in_range { number ≤ 536870911 }
    ensures ok { OnOk result (writer.new ≡ writer.old ++ row_bytes number (ChosenBytes value.now)) }
    ensures err { OnErr result (writer.new ≡ writer.old) }
    ensures fits { InRange (ChosenBytes value.now) }
{
    writer.bytes(number, value)
}

fn push_varint(bytes: &mut Vec<u8>, value: u64) -> Result<(), NoMemory>
    ensures { OnOk result (bytes.new.items ≡ bytes.old.items ++ varint value) }
{
    let mut left = value;
    while left >= 128 {
        bytes.push((left % 128) as u8 + 128)?;
        left /= 128;
    }
    bytes.push(left as u8)?;
    Ok(())
}

fn varints(alloc: Global, values: &[u32]) -> Result<Vec<u8>, NoMemory>
    ensures { IfOk result (λ bytes. bytes.items ≡ flat_map varint values.now) }
{
    let mut bytes = Vec::new(alloc);
    for value in values {
        push_varint(&mut bytes, u64::from(*value))?;
    }
    Ok(bytes)
}

/// A repeated `uint32` field, packed, unless it is empty.
pub fn packed(
    alloc: Global,
    writer: &mut Writer,
    number: u32,
    values: &[u32],
) -> Result<(), NoMemory>
    requires not_zero { 1 ≤ number }
    requires in_range { number ≤ 536870911 }
    ensures ok { OnOk result (writer.new ≡ writer.old ++ row_bytes number (Packed values.now)) }
    ensures err { OnErr result (writer.new ≡ writer.old) }
    ensures fits { InRange (Packed values.now) }
{
    let inside = varints(alloc, values)?;
    bytes(writer, number, inside.as_slice())
}

/// A repeated `string` field: each text, also an empty one. Where memory is out, some may be added.
pub fn texts(writer: &mut Writer, number: u32, values: &TextList) -> Result<(), NoMemory>
    requires not_zero { 1 ≤ number }
    requires in_range { number ≤ 536870911 }
    ensures ok { OnOk result (writer.new ≡ writer.old ++ row_bytes number (Texts values.now)) }
    ensures err { OnErr result ((count : ℕ) × (writer.new ≡ writer.old ++ row_bytes number (Texts (take count values.now)))) }
    ensures fits { OnOk result (InRange (Texts values.now)) }
{
    let mut left = values.iter();
    'texts: while let Some(text) = left.next() {
        writer.bytes(number, text)?;
    }
    Ok(())
}
