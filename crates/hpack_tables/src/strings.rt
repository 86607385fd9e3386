//! String literals (RFC 7541, section 5.2).
ghost use Rattle.std.specs.Prelude.{◌≡◌, ◌≤◌, ◌<◌, ◌^◌, IfOk, IfErr, slice_index};
ghost use Rattle.list_types.specs.Results.{Gives, found};
ghost use Rattle.hpack_tables.specs.Strings.{huffman_text, octets, string_at};
ghost use Rattle.hpack_tables.specs.declared.fault.HpackFault.TheVariants as faults;
ghost use Rattle.hpack_tables.specs.Windows.{IsFront, AreDrained, IsRefused};

use crate::code::{EOS, LONGEST, symbol_of};
use crate::fault::{BAD_HUFFMAN, HpackFault, TRUNCATED};
use crate::header::copied;
use crate::integer::integer;
use list_types::{ByteList, Refusal};
use std::alloc::Global;

// Bits that are read and not yet decoded: how many, and their number.
#[derive(Clone, Copy)]
struct Bits {
    count: u32,
    number: u64,
}

// No code is as short as that.
const TOO_SHORT: u32 = 4;

// The symbol at the front, and how many bits its code has, if there is a whole one.
fn first_symbol(bits: Bits) -> Option<(u16, u32)>
    requires few { bits.count ≤ 63 }
    requires fits { bits.number < 2 ^ bits.count }
    ensures { IsFront bits.count bits.number result }
{
    let skipped = bits.count.min(TOO_SHORT);
    for length in skipped + 1..bits.count + 1 {
        if let Some(symbol) = symbol_of(length, bits.number >> (bits.count - length)) {
            return Some((symbol, length));
        }
    }
    None
}

// Decodes whole codes, and gives the bits that are left.
fn drain(text: &mut ByteList, bits: Bits) -> Result<Bits, Refusal<HpackFault>>
    requires few { bits.count ≤ 63 }
    requires fits { bits.number < 2 ^ bits.count }
    ensures ok { IfOk result (λ left. AreDrained text.old bits.count bits.number text.new left.count left.number) }
    ensures err { IfErr result (λ error. IsRefused text.old bits.count bits.number error) }
{
    let mut left = bits;
    while let Some((symbol, length)) = first_symbol(left) {
        if symbol == EOS {
            return Err(BAD_HUFFMAN);
        }
        text.push(symbol as u8)?;
        left.count -= length;
        left.number %= 1 << left.count;
    }
    Ok(left)
}

fn huffman(alloc: Global, bytes: &[u8]) -> Result<ByteList, Refusal<HpackFault>>
    ensures { Gives (λ x. x) result (found faults.BadHuffman (huffman_text bytes.now)) }
{
    // No code is shorter than five bits.
    let most = bytes.len() / 5 * 8 + 8;
    let mut text = ByteList::from_vec(Vec::with_capacity(alloc, most)?);
    let mut left = Bits {
        count: 0,
        number: 0,
    };
    for byte in bytes {
        let bits = Bits {
            count: left.count + 8,
            number: left.number * 256 + u64::from(*byte),
        };
        left = drain(&mut text, bits)?;
        if left.count >= LONGEST {
            return Err(BAD_HUFFMAN);
        }
    }
    if left.count >= 8 {
        return Err(BAD_HUFFMAN);
    }
    if left.number + 1 != 1 << left.count {
        return Err(BAD_HUFFMAN);
    }
    Ok(text)
}

fn octets(alloc: Global, is_huffman: bool, bytes: &[u8]) -> Result<ByteList, Refusal<HpackFault>>
    ensures { Gives (λ x. x) result (octets is_huffman bytes.now) }
{
    if is_huffman {
        huffman(alloc, bytes)
    } else {
        Ok(copied(alloc, bytes)?)
    }
}

/// The first of these bytes, or 0 where there is none.
pub(crate) fn first(bytes: &[u8]) -> u8
    ensures { result ≡ slice_index bytes.now 0 }
{
    match bytes {
        [] => 0,
        [first, ..] => *first,
    }
}

/// A string, and the bytes after it.
#[tactic(auto, unfolding(crate::specs::Strings::string_at))]
pub(crate) fn string(alloc: Global, bytes: &[u8]) -> Result<(ByteList, &[u8]), Refusal<HpackFault>>
    ensures { Gives (λ x. (x.0, x.1.now)) result (string_at bytes.now) }
{
    let (size, rest) = integer(bytes, 7, HpackFault::Truncated)?;
    if (rest.len() as u64) < u64::from(size) {
        return Err(TRUNCATED);
    }
    let (inside, after) = rest.split_at(size as usize);
    Ok((octets(alloc, first(bytes) >= 128, inside)?, after))
}
