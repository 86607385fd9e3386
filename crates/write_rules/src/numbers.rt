//! Byte strings as numbers of a width.
ghost use Rattle.std.specs.Prelude.{◌≡◌, ◌≤◌, ◌-◌, ◌^◌, nat_lt};
ghost use Rattle.plane_spec.specs.UpdateRules.{number, number_in};

use canon_bytes::ByteFault;

/// Whether the bytes are a number of at most `width` bits.
pub(crate) fn fits(bytes: &[u8], width: u32) -> bool
    requires not_zero { 1 ≤ width }
    requires in_range { width ≤ 128 }
    ensures { result ≡ nat_lt (number bytes.now) (2 ^ width) }
{
    match canon_bytes::read(bytes, width) {
        Err(ByteFault::TooWide) => false,
        Err(ByteFault::Empty) => true,
        Ok(_) => true,
    }
}

/// The number of big-endian bytes, or 0 where it has more than `width` bits, 1 to 128.
pub fn number(bytes: &[u8], width: u32) -> u128
    requires not_zero { 1 ≤ width }
    requires in_range { width ≤ 128 }
    ensures { result ≡ number_in width bytes.now }
{
    match canon_bytes::read(bytes, width) {
        Ok(value) => value,
        Err(ByteFault::Empty) => 0,
        Err(ByteFault::TooWide) => 0,
    }
}

/// The greatest number of `width` bits.
pub(crate) fn greatest(width: u32) -> u128
    requires not_zero { 1 ≤ width }
    requires in_range { width ≤ 128 }
    ensures { result ≡ 2 ^ width - 1 }
{
    u128::MAX >> (128 - width)
}
