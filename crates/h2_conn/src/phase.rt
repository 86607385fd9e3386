//! Whether a connection goes on.
use crate::receiver::Receiver;
use h2_frames::H2Code;
use list_types::ByteList;

/// A connection that goes on, or has ended.
#[derive(Drop)]
pub enum Phase {
    Open(Receiver),
    /// A rule was broken, with this code; GOAWAY is among the bytes that are to be sent.
    Broken { code: H2Code, output: ByteList },
    /// There was no memory for a call.
    OutOfMemory,
}
