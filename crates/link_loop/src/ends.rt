//! How a link ends.
use h2_frames::H2Code;

/// How a link ended.
#[derive(Clone, Copy)]
pub enum LinkEnd {
    /// The client's bytes ended.
    Closed,
    /// The link failed.
    Fault,
    /// The client's bytes broke a rule of HTTP/2, which was answered with this code.
    Refused(H2Code),
    /// Memory was missing.
    Memory,
    /// The client was quiet for too long, which was answered with GOAWAY without an error.
    Quiet,
}
