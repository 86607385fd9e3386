// Why no tape was read, and how the reading of a source ended.

/// Why no tape was read: the first of these in the order of the bytes.
#[derive(Clone, Copy)]
pub enum TapeFault {
    /// The bytes are no tape; the longest front with which some tape begins has so many bytes.
    Bad(u64),
    /// There are more bytes or more records than a tape may have.
    TooLong,
    /// The source failed.
    Fault,
}

/// How the reading of a source ended: its end was met, it failed, or more bytes came than a tape may have.
#[derive(Clone, Copy)]
pub enum Ended {
    AtEnd,
    AtFault,
    AtLimit,
}
