//! The best row so far.
ghost use Rattle.std.specs.Prelude.{◌≡◌};
ghost use Rattle.row_index.specs.Best.{wins_over};

/// A row that was found, with what decides which of two wins.
#[derive(Clone, Copy)]
pub(crate) struct Found {
    pub(crate) place: u32,
    pub(crate) priority: i32,
    /// The length of its prefix, in bits, or 0.
    pub(crate) length: u32,
    pub(crate) seq: u64,
}

impl Found {
    /// Whether one row wins over another: by greater priority, then by longer prefix, then by lower sequence number.
    pub(crate) fn wins_over(self, other: Found) -> bool
        ensures { result ≡ wins_over self other }
    {
        if self.priority != other.priority {
            return self.priority > other.priority;
        }
        if self.length != other.length {
            return self.length > other.length;
        }
        self.seq < other.seq
    }
}
