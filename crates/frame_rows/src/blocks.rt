//! Header blocks.
use hpack_tables::{Decoder, Header, HpackFault, encode, encode_size_update};
use list_types::{ByteList, List, Refusal};
use row_lines::{NoAnswer, bytes, say, tell, tell_hex};
use std::alloc::Global;

fn tell_headers(alloc: Global, told: &mut String, headers: &[Header]) {
    for header in headers {
        tell_hex(alloc, told, header.name.as_slice());
        tell_hex(alloc, told, header.value.as_slice());
    }
}

fn tell_fault(told: &mut String, fault: HpackFault) {
    match fault {
        HpackFault::BadIndex => say(told, "BadIndex"),
        HpackFault::BadHuffman => say(told, "BadHuffman"),
        HpackFault::TableSize => say(told, "TableSize"),
        HpackFault::Truncated => say(told, "Truncated"),
        HpackFault::ListTooLong => say(told, "ListTooLong"),
    }
}

// Adds the headers of a block, or its fault, and the table behind it.
fn tell_block(
    alloc: Global,
    told: &mut String,
    decoder: &mut Decoder,
    block: &[u8],
) -> Result<(), NoAnswer> {
    match decoder.block(block) {
        Ok(headers) => {
            say(told, "headers");
            tell_headers(alloc, told, headers.as_slice());
        }
        Err(Refusal::For(fault)) => tell_fault(told, fault),
        Err(Refusal::NoMemory) => return Err(NoAnswer),
    }
    say(told, "table");
    tell_headers(alloc, told, decoder.entries()?.as_slice());
    Ok(())
}

/// Of blocks that come one after another: the headers of each, or its fault, and the entries of the dynamic table behind
/// it, the newest first.
pub fn blocks(alloc: Global, blocks: &[&str], told: &mut String) -> Result<(), NoAnswer> {
    let mut decoder = Decoder::new(alloc);
    for block in blocks {
        let block = bytes(alloc, block)?;
        tell_block(alloc, told, &mut decoder, &block)?;
    }
    Ok(())
}

fn byte_list(alloc: Global, text: &str) -> Result<ByteList, NoAnswer> {
    let mut bytes = ByteList::new(alloc);
    bytes.extend_from_slice(text.as_bytes())?;
    Ok(bytes)
}

// A header, whose value stands behind the first `=`.
fn header_of(alloc: Global, part: &str) -> Result<Header, NoAnswer> {
    let Some((name, value)) = part.split_once('=') else {
        return Err(NoAnswer);
    };
    let name = byte_list(alloc, name)?;
    let value = byte_list(alloc, value)?;
    Ok(Header { name, value })
}

/// Of headers, each a name, `=` and a value: the block that is written of them, and what a decoder reads of it.
pub fn headers(alloc: Global, parts: &[&str], told: &mut String) -> Result<(), NoAnswer> {
    let mut headers = List::new(alloc);
    for part in parts {
        headers.push(header_of(alloc, part)?)?;
    }
    let block = encode(alloc, headers.as_slice())?;
    tell_hex(alloc, told, block.as_slice());
    tell_block(alloc, told, &mut Decoder::new(alloc), block.as_slice())
}

// A header without a name, whose value is this many `a`.
fn long_header(alloc: Global, length: usize) -> Result<Header, NoAnswer> {
    let mut value = ByteList::new(alloc);
    for _ in 0..length {
        value.push(b'a')?;
    }
    Ok(Header {
        name: ByteList::new(alloc),
        value,
    })
}

/// Of a length: the bytes before a value of this many `a` in the block of a header without a name, and whether a decoder
/// reads a list of it.
pub fn long_value(alloc: Global, length: &str, told: &mut String) -> Result<(), NoAnswer> {
    let length = length.parse::<u32>()? as usize;
    let block = encode(alloc, &[long_header(alloc, length)?])?;
    let bytes = block.as_slice();
    let (front, value) = bytes.split_at(bytes.len().saturating_sub(length));
    tell_hex(alloc, told, front);
    tell(told, value.iter().all(|byte| *byte == b'a'));
    match Decoder::new(alloc).block(bytes) {
        Ok(headers) => tell(told, headers.len()),
        Err(Refusal::For(fault)) => tell_fault(told, fault),
        Err(Refusal::NoMemory) => return Err(NoAnswer),
    }
    Ok(())
}

/// Of a size of the table, at most 4,096: the update that is written of it, and what a decoder reads of a block of it.
pub fn size_update(alloc: Global, size: &str, told: &mut String) -> Result<(), NoAnswer> {
    let size = size.parse::<u32>()?;
    if size > 4_096 {
        return Err(NoAnswer);
    }
    let update = encode_size_update(alloc, size)?;
    tell_hex(alloc, told, update.as_slice());
    tell_block(alloc, told, &mut Decoder::new(alloc), update.as_slice())
}
