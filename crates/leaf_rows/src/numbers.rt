//! Fields of bits, and byte strings that are numbers.
ghost use Rattle.std.specs.Prelude.{◌≤◌, ◌<◌, ◌^◌};

use canon_bytes::{ByteFault, read, write};
use pkt_bits::{put, take};
use row_lines::{NoAnswer, bytes, say, tell, tell_hex};
use std::alloc::Global;

// The lowest bits of a number.
fn lowest(value: u128, width: u32) -> u128
    requires { width ≤ 128 }
    ensures { result < 2 ^ width }
{
    take(&value.to_be_bytes(), (128 - width) as usize, width)
}

// The field there, in whose place the number's lowest bits come.
fn exchanged(packet: &mut [u8], bit: u16, width: u8, value: u128) -> Result<u128, NoAnswer> {
    let bit = usize::from(bit);
    let width = u32::from(width);
    let len = packet.len();
    if width > 128 || len > 9216 {
        return Err(NoAnswer);
    }
    if bit + width as usize > 8 * len {
        return Err(NoAnswer);
    }
    let field = take(packet, bit, width);
    put(packet, bit, width, lowest(value, width));
    Ok(field)
}

/// Of a bit's number, a width, a number and bytes: the field there, and the bytes with the number's lowest bits in it.
pub fn bit_field(alloc: Global, asked: &[&str], told: &mut String) -> Result<(), NoAnswer> {
    let [bit, width, value, hex] = asked else {
        return Err(NoAnswer);
    };
    let bit = bit.parse::<u16>()?;
    let width = width.parse::<u8>()?;
    let value = value.parse::<u128>()?;
    let mut packet = bytes(alloc, hex)?;
    tell(told, exchanged(&mut packet, bit, width, value)?);
    tell_hex(alloc, told, &packet);
    Ok(())
}

/// Of a width and bytes: their number, and its canonical bytes.
pub fn byte_string(alloc: Global, asked: &[&str], told: &mut String) -> Result<(), NoAnswer> {
    let [width, hex] = asked else {
        return Err(NoAnswer);
    };
    let width = width.parse::<u32>()?;
    if width == 0 || width > 128 {
        return Err(NoAnswer);
    }
    match read(&bytes(alloc, hex)?, width) {
        Ok(value) => {
            tell(told, value);
            tell_hex(alloc, told, write(alloc, value)?.as_slice());
        }
        Err(ByteFault::Empty) => say(told, "Empty"),
        Err(ByteFault::TooWide) => say(told, "TooWide"),
    }
    Ok(())
}
