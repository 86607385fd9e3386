//! Fields that stand within eight bytes, which are taken at once.
ghost use Rattle.std.specs.Prelude.{◌≡◌, ℕ, ◌+◌, ◌-◌, ◌*◌, ◌/◌, ◌%◌, ◌^◌, ◌<◌, ◌≤◌, length};
ghost use Rattle.pkt_bits.specs.Field.{field};

use pkt_bits::take;

// The byte at a place, which makes the bits before it one field with its own.
fn byte_at(bytes: &[u8], at: usize) -> u64
    requires in_range { at < length bytes.now }
    ensures more { (bit a : ℕ) → at * 8 ≡ bit + a → field bytes.now bit a * 256 + result ≡ field bytes.now bit (a + 8) }
    ensures byte { result < 256 }
{
    u64::from(bytes[at])
}

// The number of the four bytes from a place on.
fn four(bytes: &[u8], at: usize) -> u64
    requires in_range { at + 4 ≤ length bytes.now }
    ensures number { result ≡ field bytes.now (at * 8) 32 }
    ensures fits { result < 2 ^ 32 }
{
    let high = byte_at(bytes, at) * 256 + byte_at(bytes, at + 1);
    let low = byte_at(bytes, at + 2) * 256 + byte_at(bytes, at + 3);
    high * 65_536 + low
}

// The number of the eight bytes from a place on.
fn eight(bytes: &[u8], at: usize) -> u64
    requires in_range { at + 8 ≤ length bytes.now }
    ensures { result ≡ field bytes.now (at * 8) 64 }
{
    four(bytes, at) * 0x1_0000_0000 + four(bytes, at + 4)
}

// The number of the `width` bits of 64 that stand behind the first `offset`.
fn within(word: u64, offset: u32, width: u32) -> u64
    requires some { 0 < width }
    requires in_range { offset + width ≤ 64 }
    ensures { result ≡ word / 2 ^ (64 - offset - width) % 2 ^ width }
{
    (word << offset) >> (64 - width)
}

/// The number of the `width` bits from bit number `bit` on, as [`take`] has it.
pub(crate) fn take_near(bytes: &[u8], bit: usize, width: u32) -> u128
    requires width { width ≤ 128 }
    requires in_range { bit + width ≤ 8 * length bytes.now }
    ensures { result ≡ field bytes.now bit width }
{
    if width == 0 || bytes.len() < 8 {
        return take(bytes, bit, width);
    }
    let start = (bit / 8).min(bytes.len() - 8);
    let offset = bit - start * 8;
    if offset + width as usize > 64 {
        return take(bytes, bit, width);
    }
    u128::from(within(eight(bytes, start), offset as u32, width))
}
