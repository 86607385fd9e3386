// How long a tape may be.

/// The bytes of the longest tape.
pub const MAX_TAPE: usize = 67_108_864;

/// The most records of a tape, the end record left out.
pub const MAX_RECORDS: u32 = 1_000_000;
