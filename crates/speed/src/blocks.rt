// Header blocks.
use crate::moments::nanoseconds;
use hpack_tables::Decoder;
use std::io;
use std::time::Clock;

const TIMES: u32 = 400_000;

/// A gRPC request: the block that a client begins with, all strings in the Huffman code.
pub const FIRST_REQUEST: [u8; 69] = [
    0x83, 0x86, 0x44, 0x91, 0x62, 0xb6, 0x97, 0xee, 0x15, 0xf5, 0xb5, 0xb6, 0xda, 0x92, 0x6a, 0x4a,
    0xc7, 0x2b, 0x0c, 0x92, 0xff, 0x41, 0x8a, 0x08, 0x9d, 0x5c, 0x0b, 0x81, 0x70, 0xdc, 0x7d, 0xb6,
    0xdf, 0x5f, 0x8b, 0x1d, 0x75, 0xd0, 0x62, 0x0d, 0x26, 0x3d, 0x4c, 0x4d, 0x65, 0x64, 0x7a, 0x8a,
    0x9a, 0xca, 0xc8, 0xb4, 0xc7, 0x60, 0x2b, 0xba, 0x15, 0xc1, 0x40, 0x82, 0x49, 0x7f, 0x86, 0x4d,
    0x83, 0x35, 0x05, 0xb1, 0x1f,
];

// The same request again, all of whose headers are in the tables.
const NEXT_REQUEST: [u8; 7] = [0x83, 0x86, 0xc2, 0xc1, 0xc0, 0xbf, 0xbe];

/// What decoding a block took, each time, in nanoseconds, and how many headers came, which keeps the
/// work from being left out.
#[derive(Drop)]
pub struct Measured {
    pub nanoseconds: u128,
    pub headers: u64,
}

fn decode<R: Clock>(rt: &R, decoder: &mut Decoder, block: &[u8]) -> io::Result<Measured> {
    let before = nanoseconds(rt);
    let mut headers = 0u64;
    for _ in 0..TIMES {
        let Ok(list) = decoder.block(block) else {
            return Err(io::Error::from(io::ErrorKind::OutOfMemory));
        };
        headers = headers.wrapping_add(list.len() as u64);
    }
    let after = nanoseconds(rt);
    Ok(Measured {
        nanoseconds: after.saturating_sub(before) / u128::from(TIMES),
        headers,
    })
}

/// Decodes the first block of a gRPC request again and again.
pub fn first_requests<R: Clock + AllocGlobal>(rt: &R) -> io::Result<Measured> {
    decode(rt, &mut Decoder::new(rt.alloc()), &FIRST_REQUEST)
}

/// Decodes a request that is in the tables again and again.
pub fn next_requests<R: Clock + AllocGlobal>(rt: &R) -> io::Result<Measured> {
    let mut decoder = Decoder::new(rt.alloc());
    if decoder.block(&FIRST_REQUEST).is_err() {
        return Err(io::Error::from(io::ErrorKind::OutOfMemory));
    }
    decode(rt, &mut decoder, &NEXT_REQUEST)
}
