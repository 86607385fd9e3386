//! Writing header blocks.
ghost use Rattle.std.specs.Prelude.{◌≡◌, ◌≤◌, ◌++◌, length, take, OnOk, IfOk};
ghost use Rattle.std.specs.List.{flat_map};
ghost use Rattle.canon_bytes.specs.Base128.{base_128};
ghost use Rattle.hpack_tables.specs.Writing.{length_bytes, string_bytes, header_bytes, block_bytes, update_bytes};

use crate::header::Header;
use list_types::{ByteList, NoMemory};
use std::alloc::Global;

// The first byte of a literal without indexing whose name is written out.
const WITHOUT_INDEXING: u8 = 0;

// A prefix of seven bits that says that an integer goes on.
const PREFIX: u64 = 127;

fn push_digits(bytes: &mut Vec<u8>, value: u64) -> Result<(), NoMemory>
    ensures { OnOk result (bytes.new.items ≡ bytes.old.items ++ base_128 10 value) }
{
    let mut left = value;
    while left >= 128 {
        bytes.push((left % 128) as u8 + 128)?;
        left /= 128;
    }
    bytes.push(left as u8)?;
    Ok(())
}

fn push_length(bytes: &mut Vec<u8>, length: u64) -> Result<(), NoMemory>
    ensures { OnOk result (bytes.new.items ≡ bytes.old.items ++ length_bytes length) }
{
    if length < PREFIX {
        bytes.push(length as u8)?;
        return Ok(());
    }
    bytes.push(PREFIX as u8)?;
    push_digits(bytes, length - PREFIX)
}

fn push_string(bytes: &mut Vec<u8>, string: &[u8]) -> Result<(), NoMemory>
    ensures { OnOk result (bytes.new.items ≡ bytes.old.items ++ string_bytes string.now) }
{
    push_length(bytes, string.len() as u64)?;
    bytes.extend_from_slice(string)?;
    Ok(())
}

fn push_header(bytes: &mut Vec<u8>, header: &Header) -> Result<(), NoMemory>
    ensures { OnOk result (bytes.new.items ≡ bytes.old.items ++ header_bytes header.now) }
{
    bytes.push(WITHOUT_INDEXING)?;
    push_string(bytes, header.name.as_slice())?;
    push_string(bytes, header.value.as_slice())
}

/// A block of these headers: literals without indexing, each name written out, and no Huffman code.
/// A decoder reads them back, where no name and no value is longer than 2^32 - 1 bytes and the
/// headers are not too large together.
pub fn encode(alloc: Global, headers: &[Header]) -> Result<ByteList, NoMemory>
    ensures { IfOk result (λ bytes. bytes ≡ block_bytes headers.now) }
{
    let mut bytes = Vec::new(alloc);
    for header in headers {
        push_header(&mut bytes, header)?;
    }
    Ok(ByteList::from_vec(bytes))
}

// The first byte of an update whose prefix says that the integer goes on.
const LONG_UPDATE: u8 = 63;

/// An update of the table's size, in bytes, which stands at the start of a block (RFC 7541, section
/// 6.3). A decoder reads it as its table resized. It has at most three bytes.
pub fn encode_size_update(alloc: Global, size: u32) -> Result<ByteList, NoMemory>
    requires { size ≤ 4096 }
    ensures { IfOk result (λ bytes. bytes ≡ update_bytes size) }
{
    let mut bytes = Vec::new(alloc);
    if size < 31 {
        bytes.push(32 + size as u8)?;
    } else {
        bytes.push(LONG_UPDATE)?;
        push_digits(&mut bytes, u64::from(size) - 31)?;
    }
    Ok(ByteList::from_vec(bytes))
}
