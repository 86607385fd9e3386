//! The head of a frame.
ghost use Rattle.std.specs.Prelude.{◌≡◌};
ghost use Rattle.h2_frames.specs.Reading.{head_at};

/// The head of a frame (RFC 9113, section 4.1).
#[derive(Clone, Copy)]
pub struct Head {
    /// The bytes of the payload, a number of 24 bits.
    pub length: u32,
    /// The frame's type.
    pub kind: u8,
    pub flags: u8,
    /// A number of 31 bits, without the reserved bit.
    pub stream: u32,
}

/// The head that nine bytes spell. Each nine bytes spell one.
pub fn read_head(bytes: &[u8; 9]) -> Head
    ensures { result ≡ head_at bytes.now }
{
    Head {
        length: u32::from_be_bytes([0, bytes[0], bytes[1], bytes[2]]),
        kind: bytes[3],
        flags: bytes[4],
        stream: u32::from_be_bytes([bytes[5], bytes[6], bytes[7], bytes[8]]) % 0x8000_0000,
    }
}
