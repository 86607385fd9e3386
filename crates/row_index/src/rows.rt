//! Rows by their places.
ghost use Rattle.std.specs.Prelude.{◌≡◌, ℕ, Option, Some, IsSome};
ghost use Rattle.std.specs.Option.{option_map};
ghost use Rattle.p4_types.specs.declared.table.Entry.{Entry as Row};

use p4_types::table::EntryName;

/// Rows that stand elsewhere, each at a place.
pub trait Rows {
    /// The row at a place, if one stands there.
    ghost entry: { Self → ℕ → Option Row };

    /// The name of the row at a place.
    fn name(&self, place: u32) -> &EntryName
        requires { IsSome (entry self.now place) }
        ensures { option_map (λ row. row.name) (entry self.now place) ≡ Some result.now };

    /// The sequence number of the row at a place.
    fn seq(&self, place: u32) -> u64
        requires { IsSome (entry self.now place) }
        ensures { option_map (λ row. row.seq) (entry self.now place) ≡ Some result };
}
