//! How serving ends.

/// How serving ended.
#[derive(Clone, Copy)]
pub enum ServeEnd {
    /// The net ended.
    Ended,
    /// The net failed.
    Fault,
    /// There was no memory to begin with.
    Memory,
}
