//! What holds lanes back.
use p4_types::tape::Who;

/// Holds a lane back before each of its calls or packets, so that a test can choose an interleaving.
pub trait Gate {
    /// The lane is about to make its call, or to run its packet, of this number, from 1.
    fn turn(&self, who: Who, number: u64);

    /// Whether it holds any lane back. Lanes keep no snapshot while it may.
    fn holds(&self) -> bool;
}

/// Holds no lane back.
#[derive(Clone, Copy)]
pub struct Freely;

impl Gate for Freely {
    fn turn(&self, _who: Who, _number: u64) {}

    fn holds(&self) -> bool {
        false
    }
}
