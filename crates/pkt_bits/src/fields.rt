//! Reading and writing a field.
ghost use Rattle.std.specs.Prelude.{◌≡◌, ◌+◌, ◌*◌, ◌%◌, ◌^◌, ◌<◌, ◌≤◌, length};
ghost use Rattle.std.specs.List.{splice};
ghost use Rattle.canon_bytes.specs.Bits.{bits};
ghost use Rattle.pkt_bits.specs.Field.{field, SameOutside, number_bits};

use crate::chunk::{chunk, with_chunk};

// The number of the `width` bits behind the first `offset` of the byte at `place`, of which whole bytes are taken at once.
fn take_short(bytes: &[u8], place: usize, offset: u32, width: u32) -> u64
    requires byte { offset < 8 }
    requires short { offset + width ≤ 64 }
    requires in_range { place * 8 + offset + width ≤ 8 * length bytes.now }
    ensures { result ≡ field bytes.now (place * 8 + offset) width }
{
    if width == 0 {
        return 0;
    }
    let count = (offset + width).div_ceil(8);
    let mut value = u64::from(chunk(bytes[place], offset, 8 - offset));
    for next in place + 1..place + count as usize {
        value = value * 256 + u64::from(chunk(bytes[next], 0, 8));
    }
    value >> (count * 8 - offset - width)
}

/// The number of the `width` bits from bit number `bit` on. Bits count from the most significant bit of the first
/// byte, and the first bit of a field is its most significant. A field of no bits is 0.
pub fn take(bytes: &[u8], bit: usize, width: u32) -> u128
    requires width { width ≤ 128 }
    requires in_range { bit + width ≤ 8 * length bytes.now }
    ensures number { result ≡ field bytes.now bit width }
    ensures fits { result < 2 ^ width }
{
    let mut place = bit / 8;
    let mut offset = (bit % 8) as u32;
    if offset + width <= 64 {
        return u128::from(take_short(bytes, place, offset, width));
    }
    let mut left = width;
    let mut value: u128 = 0;
    while left > 0 {
        let size = left.min(64 - offset);
        value = (value << size) + u128::from(take_short(bytes, place, offset, size));
        place += 8;
        offset = 0;
        left -= size;
    }
    value
}

// The lowest bits of a number, at most 64.
fn low_bits(value: u128, width: u32) -> u64
    requires { width ≤ 64 }
    ensures number { result ≡ value % 2 ^ width }
    ensures fits { result < 2 ^ width }
{
    (value & ((1 << width) - 1)) as u64
}

// Writes a number of whole bytes from the byte at `place` on. All other bytes stay.
fn put_whole(bytes: &mut [u8], place: usize, width: u32, value: u64)
    requires whole { width % 8 ≡ 0 }
    requires short { width ≤ 64 }
    requires in_range { place * 8 + width ≤ 8 * length bytes.old }
    requires fits { value < 2 ^ width }
    ensures number { field bytes.new (place * 8) width ≡ value }
    ensures others { SameOutside bytes.old bytes.new (place * 8) width }
{
    let mut next = place;
    let mut left = width;
    while left > 0 {
        left -= 8;
        let part = ((value >> left) & 0xff) as u8;
        bytes[next] = with_chunk(bytes[next], 0, 8, part);
        next += 1;
    }
}

// Writes a number into the `width` bits behind the first `offset` of the byte at `place`. All other bits stay.
fn put_short(bytes: &mut [u8], place: usize, offset: u32, width: u32, value: u64)
    requires byte { offset < 8 }
    requires short { offset + width ≤ 64 }
    requires in_range { place * 8 + offset + width ≤ 8 * length bytes.old }
    requires fits { value < 2 ^ width }
    ensures number { field bytes.new (place * 8 + offset) width ≡ value }
    ensures others { SameOutside bytes.old bytes.new (place * 8 + offset) width }
{
    if offset == 0 && width % 8 == 0 {
        put_whole(bytes, place, width, value);
        return;
    }
    let mut next = place;
    let mut behind = offset;
    let mut left = width;
    while left > 0 {
        let size = left.min(8 - behind);
        let part = (value >> (left - size)) & ((1 << size) - 1);
        bytes[next] = with_chunk(bytes[next], behind, size, part as u8);
        next += 1;
        behind = 0;
        left -= size;
    }
}

/// Writes a number into the `width` bits from bit number `bit` on, counted as in [`take`]. All other bits stay.
pub fn put(bytes: &mut [u8], bit: usize, width: u32, value: u128)
    requires width { width ≤ 128 }
    requires in_range { bit + width ≤ 8 * length bytes.now }
    requires fits { value < 2 ^ width }
    ensures number { field bytes.new bit width ≡ value }
    ensures others { SameOutside bytes.old bytes.new bit width }
    ensures spliced { bits bytes.new ≡ splice (bits bytes.old) bit (bit + width) (number_bits width value) }
{
    let mut place = bit / 8;
    let mut offset = (bit % 8) as u32;
    if offset + width <= 64 {
        put_short(bytes, place, offset, width, value as u64);
        return;
    }
    let mut left = width;
    while left > 0 {
        let size = left.min(64 - offset);
        let part = low_bits(value >> (left - size), size);
        put_short(bytes, place, offset, size, part);
        place += 8;
        offset = 0;
        left -= size;
    }
}
