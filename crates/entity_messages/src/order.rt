//! Items by rising number.
ghost use Rattle.std.specs.Prelude.{◌≡◌, ◌≤◌, ℕ, ◌++◌, ◌∷◌, length, take, drop, OnOk};
ghost use Rattle.plane_spec.specs.Shown.{placed};

use list_types::NoMemory;
use p4_types::messages::{FieldMatch, Param};

/// An item with a number, by which a list of such items rises.
pub trait Numbered: Drop {
    ghost key: { Self → ℕ };

    fn number(&self) -> u32
        ensures { result ≡ key self.now };
}

impl Numbered for FieldMatch {
    ghost key = { λ m. m.field_id };

    fn number(&self) -> u32 {
        self.field_id
    }
}

impl Numbered for Param {
    ghost key = { λ p. p.param_id };

    fn number(&self) -> u32 {
        self.param_id
    }
}

impl Numbered for u32 {
    ghost key = { λ id. id };

    fn number(&self) -> u32 {
        *self
    }
}

// Where the item goes.
fn place_of<T: Numbered>(items: &[T], item: &T) -> usize
    ensures in_range { result ≤ length items.now }
    ensures place { take result items.now ++ item.now ∷ drop result items.now ≡ placed T.key item.now items.now }
{
    for place in 0..items.len() {
        if item.number() < items[place].number() {
            return place;
        }
    }
    items.len()
}

/// Puts an item behind those whose number is not above its own.
pub fn place<T: Numbered>(items: &mut Vec<T>, item: T) -> Result<(), NoMemory>
    ensures { OnOk result (items.new.items ≡ placed T.key item items.old.items) }
{
    let place = place_of(items, &item);
    items.insert(place, item)?;
    Ok(())
}
