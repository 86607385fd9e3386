//! Vectors that have room.
ghost use Rattle.std.specs.Prelude.{◌≡◌, ◌+◌, ◌<◌, ◌≤◌, ◌++◌, [], ◌∷◌, length, vec_capacity};

/// Adds an item, for which there is room. It takes no memory.
pub(crate) fn add<T: Copy>(items: &mut Vec<T>, item: T)
    requires room { length items.old.items < vec_capacity items.old }
    ensures items { items.new.items ≡ items.old.items ++ item ∷ [] }
    ensures room { vec_capacity items.old ≤ vec_capacity items.new }
{
    let _ = items.push(item);
}

/// Adds items, for which there is room, and answers from which place on and up to which they stand. It takes no memory.
pub(crate) fn place_all<T: Copy>(items: &mut Vec<T>, more: &[T]) -> (usize, usize)
    requires room { length items.old.items + length more.now ≤ vec_capacity items.old }
    ensures items { items.new.items ≡ items.old.items ++ more.now }
    ensures room { vec_capacity items.old ≤ vec_capacity items.new }
    ensures start { result.0 ≡ length items.old.items }
    ensures end { result.1 ≡ length items.old.items + length more.now }
{
    let start = items.len();
    let _ = items.extend_from_slice(more);
    (start, items.len())
}
