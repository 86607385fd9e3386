//! The choice among items by their weights.
ghost use Rattle.std.specs.Prelude.{◌≡◌, ◌<◌, ◌%◌};
ghost use Rattle.std.specs.Option.{option_map};
ghost use Rattle.packet_spec.specs.Choosing as spec;

use p4_types::weights::{Weighted, WeightedList};

// The remainder of a hash by a sum of weights, which is told as at most 2^64 - 1; a sum of more than 32 bits is above each hash.
fn remainder(hash: u32, sum: u64) -> u32
    requires some { 0 < sum }
    ensures { result ≡ hash % sum }
{
    match u32::try_from(sum) {
        Ok(sum) => hash % sum,
        Err(_) => hash,
    }
}

// The item into whose share of the weights a number falls.
fn item_at<T: Weighted>(items: &[T], number: u32) -> Option<&T>
    ensures { option_map (λ item. item.now) result ≡ spec.item_at T.weighs number items.now }
{
    let mut number = number;
    for item in items {
        let weight = item.weight();
        if number < weight {
            return Some(item);
        }
        number -= weight;
    }
    None
}

/// The item that a hash chooses by its weight, in their order; without any weight none is. The items are gone over once.
pub(crate) fn chosen<T: Weighted + Drop>(items: &WeightedList<T>, hash: u32) -> Option<&T>
    ensures { option_map (λ item. item.now) result ≡ spec.chosen T.weighs hash items.now }
{
    let total = items.total();
    if total == 0 {
        return None;
    }
    item_at(items.as_slice(), remainder(hash, total))
}
