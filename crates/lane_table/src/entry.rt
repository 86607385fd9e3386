//! What an entry of a journal tells of itself.

/// An entry of a journal, made by the controller of one lane.
pub trait OfLane {
    ghost use Rattle.std.specs.Prelude.{ℕ};

    // The lane that made it.
    ghost lane: { Self → ℕ };
}

impl OfLane for p4_types::journal::Entry {
    ghost lane = { λ e. e.lane };
}
