//! What is linked at a place.

/// What is linked at a place: the number of the row's shape, the fingerprint of what its tests compare with, and the bucket of that.
#[derive(Clone, Copy)]
pub(crate) struct Placed {
    pub(crate) bucket: u32,
    pub(crate) shape: u32,
    pub(crate) print: u32,
}
