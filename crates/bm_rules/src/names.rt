//! Objects by their names, and items that occur twice.
ghost use Rattle.std.specs.Prelude.{◌≡◌, ◌<◌, ◌++◌, length, map, IfSome, nat_eq, IfOk, OnOk, option_copied};
ghost use Rattle.std.specs.Cmp.Lexicographic.{slice_cmp};
ghost use Rattle.std.specs.Ordering.{eq_by_cmp, nat_cmp};
ghost use Rattle.std.specs.Str.{bytes_eq};
ghost use Rattle.bm_rules.specs.Names.{named, place_of, repeats, names_repeat};

use list_types::NoMemory;
use name_index::Labelled;
use std::alloc::Global;
use std::cmp::Ordering;

/// The first object of a name.
pub fn named<'a, T: Labelled>(objects: &'a [T], name: &str) -> Option<&'a T>
    ensures { option_copied result ≡ named T.label name.now objects.now }
{
    objects.iter().find(|object| object.name() == name)
}

/// The first object of a name in two lists, those of the one before those of the other.
#[tactic(auto, using(crate::proofs::Laid::find_in_both))]
pub(crate) fn named_in_both<'a, T: Labelled>(
    first: &'a [T],
    second: &'a [T],
    name: &str,
) -> Option<&'a T>
    ensures { option_copied result ≡ named T.label name.now (first.now ++ second.now) }
{
    match named(first, name) {
        Some(object) => Some(object),
        None => named(second, name),
    }
}

/// Its place.
pub fn place_of<T: Labelled>(objects: &[T], name: &str) -> Option<usize>
    ensures place { result ≡ place_of T.label name.now objects.now }
    ensures inside { IfSome result (λ place. place < length objects.now) }
{
    objects.iter().position(|object| object.name() == name)
}

/// Whether an item occurs twice. It takes no room: once they are sorted, each has to be below the next.
fn repeats<T: Ord>(items: &mut [T]) -> bool
    ensures { result ≡ repeats (eq_by_cmp T.cmp) items.old }
{
    items.sort_unstable();
    !items.is_sorted_by(|earlier, later| earlier.cmp(later).is_lt())
}

/// Whether a number occurs twice; it sorts them.
#[tactic(auto, using(crate::proofs::Sameness::numbers_repeat))]
pub(crate) fn numbers_repeat(numbers: &mut [u64]) -> bool
    ensures { result ≡ repeats nat_eq numbers.old }
{
    repeats(numbers)
}

fn by_name<T: Labelled>(earlier: &T, later: &T) -> Ordering
    ensures { result ≡ slice_cmp nat_cmp (T.label earlier.now) (T.label later.now) }
{
    earlier.name().cmp(later.name())
}

/// Whether a name occurs twice among objects; it sorts them.
fn named_twice<T: Labelled>(objects: &mut [&T]) -> bool
    ensures { result ≡ names_repeat (map T.label (map (λ x. x.now) objects.old)) }
{
    objects.sort_unstable_by(|earlier, later| by_name(*earlier, *later));
    !objects.is_sorted_by(|earlier, later| by_name(*earlier, *later).is_lt())
}

// Adds references to objects, which take half the room of their names.
fn push_all<'a, T>(objects: &mut Vec<&'a T>, more: &'a [T]) -> Result<(), NoMemory>
    ensures { OnOk result (map (λ x. x.now) objects.new.items ≡ map (λ x. x.now) objects.old.items ++ more.now) }
{
    for object in more {
        objects.push(object)?;
    }
    Ok(())
}

/// Whether a name occurs twice among objects.
pub(crate) fn names_repeat<T: Labelled>(alloc: Global, objects: &[T]) -> Result<bool, NoMemory>
    ensures { IfOk result (λ answer. answer ≡ names_repeat (map T.label objects.now)) }
{
    let mut all = Vec::with_capacity(alloc, objects.len())?;
    push_all(&mut all, objects)?;
    Ok(named_twice(all.as_mut_slice()))
}

/// The same among two lists of objects.
pub(crate) fn both_repeat<T: Labelled>(
    alloc: Global,
    first: &[T],
    second: &[T],
) -> Result<bool, NoMemory>
    ensures { IfOk result (λ answer. answer ≡ names_repeat (map T.label (first.now ++ second.now))) }
{
    let mut all = Vec::with_capacity(alloc, first.len().saturating_add(second.len()))?;
    push_all(&mut all, first)?;
    push_all(&mut all, second)?;
    Ok(named_twice(all.as_mut_slice()))
}
