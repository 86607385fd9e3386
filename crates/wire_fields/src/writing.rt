//! Writing a message field by field.
ghost use Rattle.std.specs.Prelude.{◌≡◌, ◌<◌, ◌≤◌, [], ◌++◌, length, take, OnOk, OnErr};
ghost use Rattle.wire_fields.specs.Fields.{WireField};
ghost use Rattle.wire_fields.specs.Spelling.{varint, field_bytes, number_field, bytes_field};

use list_types::NoMemory;
use std::alloc::Global;
use std::marker::Model;

// The types of the payloads in a tag.
const VARINT: u64 = 0;

const BYTES: u64 = 2;

fn push_varint(bytes: &mut Vec<u8>, value: u64) -> Result<(), NoMemory>
    ensures ok { OnOk result (bytes.new.items ≡ bytes.old.items ++ varint value) }
    ensures kept { take (length bytes.old.items) bytes.new.items ≡ bytes.old.items }
{
    let mut left = value;
    while left >= 128 {
        bytes.push((left % 128) as u8 + 128)?;
        left /= 128;
    }
    bytes.push(left as u8)?;
    Ok(())
}

fn push_number(bytes: &mut Vec<u8>, number: u32, value: u64) -> Result<(), NoMemory>
    requires { number ≤ 536870911 }
    ensures ok { OnOk result (bytes.new.items ≡ bytes.old.items ++ field_bytes (number_field number value)) }
    ensures kept { take (length bytes.old.items) bytes.new.items ≡ bytes.old.items }
{
    push_varint(bytes, u64::from(number) * 8 + VARINT)?;
    push_varint(bytes, value)
}

fn push_bytes(bytes: &mut Vec<u8>, number: u32, inside: &[u8]) -> Result<(), NoMemory>
    requires { number ≤ 536870911 }
    ensures ok { OnOk result (bytes.new.items ≡ bytes.old.items ++ field_bytes (bytes_field number inside.now)) }
    ensures kept { take (length bytes.old.items) bytes.new.items ≡ bytes.old.items }
{
    push_varint(bytes, u64::from(number) * 8 + BYTES)?;
    push_varint(bytes, inside.len() as u64)?;
    bytes.extend_from_slice(inside)?;
    Ok(())
}

/// Writes a message, each varint as short as it can be. A contract sees the bytes that are written.
#[derive(Drop)]
pub struct Writer {
    bytes: Vec<u8>,
}

impl Model for Writer {
    ghost use Rattle.std.specs.Prelude.{List, ℕ};

    ghost Value = { List ℕ };

    ghost view = { λ writer. writer.bytes.items };
}

impl Writer {
    /// The empty message.
    pub fn new(alloc: Global) -> Writer
        ensures { result ≡ [] }
    {
        Writer {
            bytes: Vec::new(alloc),
        }
    }

    /// Adds a field that bears a number.
    pub fn varint(&mut self, number: u32, value: u64) -> Result<(), NoMemory>
        requires not_zero { 1 ≤ number }
        requires in_range { number ≤ 536870911 }
        ensures ok { OnOk result (self.new ≡ self.old ++ field_bytes (number_field number value)) }
        ensures err { OnErr result (self.new ≡ self.old) }
    {
        let start = self.bytes.len();
        let written = push_number(&mut self.bytes, number, value);
        if written.is_err() {
            self.bytes.truncate(start);
        }
        written
    }

    /// Adds a field that bears bytes, a text or a message.
    pub fn bytes(&mut self, number: u32, bytes: &[u8]) -> Result<(), NoMemory>
        requires not_zero { 1 ≤ number }
        requires in_range { number ≤ 536870911 }
        ensures ok { OnOk result (self.new ≡ self.old ++ field_bytes (bytes_field number bytes.now)) }
        ensures err { OnErr result (self.new ≡ self.old) }
    {
        let start = self.bytes.len();
        let written = push_bytes(&mut self.bytes, number, bytes);
        if written.is_err() {
            self.bytes.truncate(start);
        }
        written
    }

    /// The bytes that are written so far.
    pub fn as_slice(&self) -> &[u8]
        ensures { result.now ≡ self.now }
    {
        self.bytes.as_slice()
    }

    /// The bytes of the message. It takes no memory.
    pub fn finish(self) -> Vec<u8>
        ensures { result.items ≡ self }
    {
        self.bytes
    }
}
