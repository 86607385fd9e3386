//! A field of a message, and why bytes are no fields.

/// A field of a message: its number, 1 to 536,870,911, and its value.
#[derive(Clone, Copy)]
pub enum Field<'a> {
    Varint { number: u32, value: u64 },
    /// A number of eight bytes, least significant first.
    Fixed64 { number: u32, value: u64 },
    /// Bytes, a text or a message.
    Bytes { number: u32, bytes: &'a [u8] },
    /// A number of four bytes, least significant first.
    Fixed32 { number: u32, value: u32 },
}

/// What is wrong with the bytes: the first fault from left to right.
#[derive(Clone, Copy)]
pub enum WireFault {
    /// The bytes end inside a field.
    Truncated = 1,
    /// The tenth byte of a varint is above 1.
    VarintLong = 2,
    /// The wire type is 3, 4, 6 or 7.
    BadType = 3,
    /// The number of a field is 0 or above 536,870,911.
    ZeroField = 4,
}

/// How the payload of a field is laid out.
#[derive(Clone, Copy)]
pub(crate) enum WireType {
    Varint,
    Fixed64,
    Bytes,
    Fixed32,
}
