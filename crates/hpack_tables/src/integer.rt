//! Integers with a prefix (RFC 7541, section 5.1).
ghost use Rattle.std.specs.Prelude.{◌≡◌, ◌≤◌};
ghost use Rattle.list_types.specs.Results.{GivesExactly};
ghost use Rattle.hpack_tables.specs.Reading.{byte_at};
ghost use Rattle.hpack_tables.specs.Integers.{integer_from, integer_at};

use crate::fault::HpackFault;

// Where a further bit counts so much, an integer with one is too large.
const PAST_ALL: u64 = 1 << 32;

fn byte(bytes: &[u8]) -> Result<(u8, &[u8]), HpackFault>
    ensures { GivesExactly (λ x. (x.0, x.1.now)) result (byte_at bytes.now) }
{
    match bytes {
        [] => Err(HpackFault::Truncated),
        [first, rest @ ..] => Ok((*first, rest)),
    }
}

fn integer_from(bytes: &[u8], prefix: u32, fault: HpackFault) -> Result<(u32, &[u8]), HpackFault>
    ensures { GivesExactly (λ x. (x.0, x.1.now)) result (integer_from fault prefix 1 bytes.now) }
{
    let mut value = u64::from(prefix);
    let mut unit: u64 = 1;
    let mut rest = bytes;
    loop {
        let (byte, after) = byte(rest)?;
        value += u64::from(byte % 128) * unit;
        if value > u64::from(u32::MAX) {
            return Err(fault);
        }
        if byte < 128 {
            return Ok((value as u32, after));
        }
        if unit < PAST_ALL {
            unit *= 128;
        }
        rest = after;
    }
}

/// An integer with a prefix of so many bits, and the bytes after it. One above 2^32 - 1 is the
/// given fault.
#[tactic(auto, unfolding(crate::specs::Integers::integer_at))]
pub(crate) fn integer(
    bytes: &[u8],
    prefix: u32,
    fault: HpackFault,
) -> Result<(u32, &[u8]), HpackFault>
    requires { prefix ≤ 7 }
    ensures { GivesExactly (λ x. (x.0, x.1.now)) result (integer_at prefix fault bytes.now) }
{
    let [byte, rest @ ..] = bytes else {
        return Err(HpackFault::Truncated);
    };
    let range: u32 = 1 << prefix;
    let value = u32::from(*byte) % range;
    if value == range - 1 {
        return integer_from(rest, value, fault);
    }
    Ok((value, rest))
}
