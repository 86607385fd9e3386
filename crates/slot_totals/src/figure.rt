//! The figures of one counter.

/// The packets and bytes that one counter has counted.
#[derive(Clone, Copy)]
pub(crate) struct Figure {
    pub(crate) packets: u64,
    pub(crate) bytes: u64,
}

/// The figures of a counter that has counted nothing.
pub(crate) const NOTHING: Figure = Figure {
    packets: 0,
    bytes: 0,
};
