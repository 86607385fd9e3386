//! Reading a byte string as a number.
ghost use Rattle.std.specs.Prelude.{◌≡◌, ℕ, ◌^◌, ◌≤◌, ◌↔◌, [], Ok, Err, IfOk};
ghost use Rattle.canon_bytes.specs.Bits.{bits, num};
ghost use Rattle.canon_bytes.specs.ByteString.{IsAccepted};

/// Why bytes are no value of a width.
#[derive(Clone, Copy)]
pub enum ByteFault {
    /// There is no byte.
    Empty = 1,
    /// The number has more bits than the width.
    TooWide = 2,
}

/// The number of big-endian bytes, for a value of `width` bits. Leading zero bytes are passed over.
/// It takes no memory, and stops where the bytes read so far are too wide.
pub fn read(bytes: &[u8], width: u32) -> Result<u128, ByteFault>
    requires not_zero { 1 ≤ width }
    requires in_range { width ≤ 128 }
    ensures ok { IfOk result (λ value. IsAccepted bytes.now width value) }
    ensures accepted { (value : ℕ) → IsAccepted bytes.now width value → result ≡ Ok value }
    ensures empty { (result ≡ Err ByteFault.Empty) ↔ (bytes.now ≡ []) }
    ensures too_wide { (result ≡ Err ByteFault.TooWide) ↔ (2 ^ width ≤ num (bits bytes.now)) }
{
    if bytes.is_empty() {
        return Err(ByteFault::Empty);
    }
    let max = u128::MAX >> (128 - width);
    let mut value: u128 = 0;
    for byte in bytes {
        if value > max / 256 {
            return Err(ByteFault::TooWide);
        }
        value = value * 256 + u128::from(*byte);
    }
    if value > max {
        return Err(ByteFault::TooWide);
    }
    Ok(value)
}
