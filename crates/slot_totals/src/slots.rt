//! Figures of slots of which only the first may have counted.
ghost use Rattle.std.specs.Prelude.{◌≤◌, ◌^◌};
ghost use Rattle.slot_totals.specs.State.{AreBlank};

use plane_read::Counts;

/// What the counters of slots have counted, and how many slots, from the first on, may have counted at all.
pub trait SlotCounts: Counts {
    /// How many slots may have counted: the counters of all others have counted nothing.
    fn slots(&self) -> u64
        ensures few { result ≤ 2 ^ 32 }
        ensures blank { AreBlank (Self.figures self.now) result };
}
