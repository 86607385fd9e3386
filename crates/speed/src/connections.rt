// Connections of HTTP/2 whose bytes come in pieces.
ghost use Rattle.std.specs.Prelude.{◌<◌};

use crate::moments::nanoseconds;
use h2_conn::Conn;
use std::io;
use std::io::{Error, ErrorKind};
use std::time::Clock;

// The preface, SETTINGS, and the head of a frame with a header block of 69 bytes on stream 1.
const OPENING: &[u8] =
    b"PRI * HTTP/2.0\r\n\r\nSM\r\n\r\n\0\0\0\x04\0\0\0\0\0\0\0\x45\x01\x04\0\0\0\x01";

// The head of a DATA frame of 16,384 bytes on stream 1.
const DATA_HEAD: &[u8] = b"\0\x40\0\0\0\0\0\0\x01";

const DATA_SIZE: usize = 16_384;

const FRAMES: u32 = 64;

/// What each byte took, in hundredths of a nanosecond, and how many events there were.
#[derive(Drop)]
pub struct Measured {
    pub hundredths: u128,
    pub events: u64,
}

fn out_of_memory() -> Error {
    Error::from(ErrorKind::OutOfMemory)
}

/// The bytes of a client that makes a request and sends 1 MiB of data on its stream.
pub fn bytes_of_client<R: AllocGlobal>(rt: &R, request: &[u8]) -> io::Result<Vec<u8>> {
    let mut bytes = Vec::new(rt.alloc());
    bytes.extend_from_slice(OPENING)?;
    bytes.extend_from_slice(request)?;
    for _ in 0..FRAMES {
        bytes.extend_from_slice(DATA_HEAD)?;
        bytes.extend_from_slice(&[0x5a; DATA_SIZE])?;
    }
    Ok(bytes)
}

// Feeds a piece, and takes what is to be sent after it. How many events there were.
fn feed<R: AllocGlobal>(rt: &R, conn: &mut Conn, piece: &[u8]) -> io::Result<u64> {
    let Ok((given, code)) = conn.feed(rt.alloc(), piece) else {
        return Err(out_of_memory());
    };
    let events = given.len() as u64;
    drop(given);
    if code.is_some() {
        return Err(Error::from(ErrorKind::InvalidData));
    }
    drop(conn.take_output(rt.alloc()));
    Ok(events)
}

fn feed_each<R: AllocGlobal>(rt: &R, conn: &mut Conn, bytes: &[u8], size: usize) -> io::Result<u64>
    requires { 0 < size }
{
    let mut events = 0u64;
    for piece in bytes.chunks(size) {
        events = events.wrapping_add(feed(rt, conn, piece)?);
    }
    Ok(events)
}

fn feed_all<R: Clock + AllocGlobal>(rt: &R, bytes: &[u8], size: usize) -> io::Result<u64>
    requires { 0 < size }
{
    let Ok(mut conn) = Conn::new(rt.alloc()) else {
        return Err(out_of_memory());
    };
    let events = feed_each(rt, &mut conn, bytes, size);
    drop(conn);
    events
}

/// Feeds the bytes to a connection in pieces of a size, and takes what is to be sent after each.
pub fn measure<R: Clock + AllocGlobal>(rt: &R, bytes: &[u8], size: usize) -> io::Result<Measured>
    requires { 0 < size }
{
    let before = nanoseconds(rt);
    let events = feed_all(rt, bytes, size)?;
    let after = nanoseconds(rt);
    let each = (bytes.len() as u128).max(1);
    Ok(Measured {
        hundredths: after.saturating_sub(before).saturating_mul(100) / each,
        events,
    })
}
