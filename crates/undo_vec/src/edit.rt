//! One edit of a vector, with what undoes it.

/// An edit at a place of the vector as it was then.
#[derive(Drop)]
pub(crate) enum Edit<T> {
    Inserted(usize),
    /// With what stood there.
    Replaced(usize, T),
    /// With what stood there.
    Removed(usize, T),
}
