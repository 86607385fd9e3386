//! The part of a field that lies in one byte.
ghost use Rattle.std.specs.Prelude.{◌≡◌, ◌+◌, ◌-◌, ◌*◌, ◌/◌, ◌%◌, ◌^◌, ◌<◌, ◌≤◌};

/// The number of `width` bits of a byte, behind its first `offset` bits.
pub fn chunk(byte: u8, offset: u32, width: u32) -> u8
    requires one_byte { offset + width ≤ 8 }
    ensures { result ≡ byte / 2 ^ (8 - offset - width) % 2 ^ width }
{
    if width == 8 {
        return byte;
    }
    let kept = (1u32 << width) - 1;
    ((u32::from(byte) >> (8 - offset - width)) & kept) as u8
}

/// The byte with `value` in its `width` bits behind the first `offset`, and its other bits kept.
pub fn with_chunk(byte: u8, offset: u32, width: u32, value: u8) -> u8
    requires one_byte { offset + width ≤ 8 }
    requires fits { value < 2 ^ width }
    ensures { result ≡ byte / 2 ^ (8 - offset) * 2 ^ (8 - offset) + (value * 2 ^ (8 - offset - width) + byte % 2 ^ (8 - offset - width)) }
{
    if width == 8 {
        return value;
    }
    let below = 8 - offset - width;
    let old = u32::from(byte);
    let high = (old >> (8 - offset)) << (8 - offset);
    let low = old & ((1 << below) - 1);
    (high | u32::from(value) << below | low) as u8
}
