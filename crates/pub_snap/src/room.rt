//! Room in the published list.

/// The published list, which has room for 2^64 - 2 events, has none for these.
#[derive(Clone, Copy)]
pub struct NoRoom;
