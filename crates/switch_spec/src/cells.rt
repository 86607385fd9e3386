//! Where the cells of counters stand.

/// The cells of an indirect counter, which have `size` slots from `first` on.
#[derive(Clone, Copy)]
pub struct Cells {
    /// The id of the counter.
    pub counter: u32,
    pub first: u64,
    pub size: u64,
}
