//! The breach of a connection rule.
use h2_frames::H2Code;

/// A connection rule was broken.
#[derive(Clone, Copy)]
pub struct Breach {
    pub code: H2Code,
    /// The greatest stream of any HEADERS frame that came whole, or 0.
    pub last_stream: u32,
}
