//! What the writers of messages share.
ghost use Rattle.std.specs.Prelude.{◌≡◌, ◌≤◌, ◌++◌, [], ◌∷◌, All, Some, None, map, OnOk, IfOk, IfSome, if◌then◌else◌};
ghost use Rattle.std.specs.Prelude as spec;
ghost use Rattle.std.specs.Option.{option_map};
ghost use Rattle.p4v1_wire.specs.Rows.{fields_by};
ghost use Rattle.wire_fields.specs.Spelling.{spelling};
ghost use Rattle.wire_messages.specs.Written.{Row, Messages, Message, Present, Carried, row, row_bytes, with_rows, written};

use list_types::{ByteList, NoMemory};
use std::alloc::Global;
use wire_fields::Writer;
use wire_messages::write;

/// A message that is written by its rows.
pub trait Writable {
    ghost rows: { Self → spec.List Row };

    ghost in_range: { Self → Type 0 };

    /// Adds the fields of the message. Where memory is out, some may be added.
    fn write(&self, alloc: Global, writer: &mut Writer) -> Result<(), NoMemory>
        ensures ok { OnOk result (writer.new ≡ with_rows writer.old (rows self.now)) }
        ensures in_range { OnOk result (in_range self.now) };
}

fn fields<M: Writable>(alloc: Global, message: &M) -> Result<Writer, NoMemory>
    ensures ok { IfOk result (λ bytes. bytes ≡ spelling (fields_by M.rows message.now)) }
    ensures in_range { OnOk result (M.in_range message.now) }
{
    let mut writer = Writer::new(alloc);
    message.write(alloc, &mut writer)?;
    Ok(writer)
}

/// The canonical bytes of a message. Where they are written, its numbers and texts are in the ranges of
/// their types.
pub fn write_message<M: Writable>(alloc: Global, message: &M) -> Result<ByteList, NoMemory>
    ensures ok { IfOk result (λ bytes. bytes ≡ spelling (fields_by M.rows message.now)) }
    ensures in_range { OnOk result (M.in_range message.now) }
{
    let writer = fields(alloc, message)?;
    Ok(ByteList::from_vec(writer.finish()))
}

/// A message, unless all its fields are defaults.
pub(crate) fn message<M: Writable>(
    alloc: Global,
    writer: &mut Writer,
    number: u32,
    message: &M,
) -> Result<(), NoMemory>
    requires not_zero { 1 ≤ number }
    requires in_range { number ≤ 536870911 }
    ensures ok { OnOk result (writer.new ≡ writer.old ++ row_bytes number (Message (Some (fields_by M.rows message.now)))) }
    ensures in_range { OnOk result (M.in_range message.now) }
{
    let inside = fields(alloc, message)?;
    write::bytes(writer, number, inside.as_slice())
}

/// A message that may be absent, unless all its fields are defaults.
pub(crate) fn optional<M: Writable>(
    alloc: Global,
    writer: &mut Writer,
    number: u32,
    optional: &Option<M>,
) -> Result<(), NoMemory>
    requires not_zero { 1 ≤ number }
    requires in_range { number ≤ 536870911 }
    ensures ok { OnOk result (writer.new ≡ writer.old ++ row_bytes number (Message (option_map (fields_by M.rows) optional.now))) }
    ensures in_range { OnOk result (IfSome optional.now M.in_range) }
{
    match optional {
        Some(given) => message(alloc, writer, number, given),
        None => Ok(()),
    }
}

/// A message that is present, also where all its fields are defaults.
pub(crate) fn member<M: Writable>(
    alloc: Global,
    writer: &mut Writer,
    number: u32,
    message: &M,
) -> Result<(), NoMemory>
    requires not_zero { 1 ≤ number }
    requires in_range { number ≤ 536870911 }
    ensures ok { OnOk result (writer.new ≡ writer.old ++ row_bytes number (Present (Some (fields_by M.rows message.now)))) }
    ensures in_range { OnOk result (M.in_range message.now) }
{
    let inside = fields(alloc, message)?;
    writer.bytes(number, inside.as_slice())
}

/// A message that is present where it is given, also where all its fields are defaults.
pub(crate) fn present<M: Writable>(
    alloc: Global,
    writer: &mut Writer,
    number: u32,
    optional: &Option<M>,
) -> Result<(), NoMemory>
    requires not_zero { 1 ≤ number }
    requires in_range { number ≤ 536870911 }
    ensures ok { OnOk result (writer.new ≡ writer.old ++ row_bytes number (Present (option_map (fields_by M.rows) optional.now))) }
    ensures in_range { OnOk result (IfSome optional.now M.in_range) }
{
    match optional {
        Some(given) => member(alloc, writer, number, given),
        None => Ok(()),
    }
}

/// Each message of a repeated field.
pub(crate) fn messages<M: Writable>(
    alloc: Global,
    writer: &mut Writer,
    number: u32,
    messages: &[M],
) -> Result<(), NoMemory>
    requires not_zero { 1 ≤ number }
    requires in_range { number ≤ 536870911 }
    ensures ok { OnOk result (writer.new ≡ writer.old ++ row_bytes number (Messages (map (fields_by M.rows) messages.now))) }
    ensures in_range { OnOk result (All M.in_range messages.now) }
{
    for message in messages {
        member(alloc, writer, number, message)?;
    }
    Ok(())
}

/// A message whose field 1 is another message, which is left out where all its fields are defaults. It is
/// present itself.
pub(crate) fn wrapped<M: Writable>(
    alloc: Global,
    writer: &mut Writer,
    number: u32,
    inner: &M,
) -> Result<(), NoMemory>
    requires not_zero { 1 ≤ number }
    requires in_range { number ≤ 536870911 }
    ensures ok { OnOk result (writer.new ≡ writer.old ++ row_bytes number (Present (Some (written (row 1 (Message (Some (fields_by M.rows inner.now))) ∷ []))))) }
    ensures in_range { OnOk result (M.in_range inner.now) }
{
    let mut inside = Writer::new(alloc);
    message(alloc, &mut inside, 1, inner)?;
    writer.bytes(number, inside.as_slice())
}

/// A message that is carried unread, unless it is absent or empty.
pub(crate) fn carried(
    writer: &mut Writer,
    number: u32,
    bytes: &Option<ByteList>,
) -> Result<(), NoMemory>
    requires not_zero { 1 ≤ number }
    requires in_range { number ≤ 536870911 }
    ensures { OnOk result (writer.new ≡ writer.old ++ row_bytes number (Carried bytes.now)) }
{
    match bytes {
        Some(bytes) => write::carried(writer, number, Some(bytes.as_slice())),
        None => Ok(()),
    }
}

/// An empty message where one is given.
pub(crate) fn empty(writer: &mut Writer, number: u32, is_given: bool) -> Result<(), NoMemory>
    requires not_zero { 1 ≤ number }
    requires in_range { number ≤ 536870911 }
    ensures { OnOk result (writer.new ≡ writer.old ++ row_bytes number (Present (if is_given then Some [] else None))) }
{
    if is_given {
        writer.bytes(number, &[])
    } else {
        Ok(())
    }
}
