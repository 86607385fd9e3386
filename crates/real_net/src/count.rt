// Counts.
ghost use Rattle.std.specs.Prelude.{◌≡◌, ◌≤◌};
ghost use Rattle.sw_edge.specs.Counts.{one_more};

/// Counts one more.
pub fn raise(count: &mut u64)
    ensures more { count.new ≡ one_more count.old }
    ensures later { count.old ≤ count.new }
{
    *count = count.saturating_add(1);
}
