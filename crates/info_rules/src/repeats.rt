//! Items that occur twice or are missing, by sets.
ghost use Rattle.std.specs.Prelude.{◌≡◌, IfOk, map, nat_eq};
ghost use Rattle.std.specs.Ordering.{eq_by_cmp};
ghost use Rattle.std.specs.Str.{bytes_eq};
ghost use Rattle.std.specs.BTreeSet.{IsFromIterResult};
ghost use Rattle.info_rules.specs.Objects.{repeats};
ghost use Rattle.info_rules.specs.Rules.{lacks_some};

use list_types::NoMemory;
use std::alloc::{AllocError, Global};
use std::collections::BTreeSet;

fn set_of<T: Ord + Copy>(alloc: Global, items: &[T]) -> Result<BTreeSet<T>, AllocError>
    ensures { IfOk result (IsFromIterResult T.cmp items.now) }
{
    items.iter().copied().collect(alloc)
}

fn repeats<T: Ord + Copy>(alloc: Global, items: &[T]) -> Result<bool, NoMemory>
    ensures { IfOk result (λ answer. answer ≡ repeats (eq_by_cmp T.cmp) items.now) }
{
    let set = set_of(alloc, items)?;
    Ok(set.len() < items.len())
}

fn lacks_some<T: Ord + Copy>(alloc: Global, whole: &[T], parts: &[T]) -> Result<bool, NoMemory>
    ensures { IfOk result (λ answer. answer ≡ lacks_some (eq_by_cmp T.cmp) whole.now parts.now) }
{
    let set = set_of(alloc, whole)?;
    for part in parts {
        if !set.contains(part) {
            return Ok(true);
        }
    }
    Ok(false)
}

/// Whether a number occurs twice.
#[tactic(auto, using(crate::proofs::Sameness::numbers_repeat))]
pub(crate) fn numbers_repeat(alloc: Global, numbers: &[u32]) -> Result<bool, NoMemory>
    ensures { IfOk result (λ answer. answer ≡ repeats nat_eq numbers.now) }
{
    repeats(alloc, numbers)
}

/// Whether a text occurs twice.
#[tactic(auto, using(crate::proofs::Sameness::texts_repeat))]
pub(crate) fn texts_repeat(alloc: Global, texts: &[&str]) -> Result<bool, NoMemory>
    ensures { IfOk result (λ answer. answer ≡ repeats bytes_eq (map (λ x. x.now) texts.now)) }
{
    repeats(alloc, texts)
}

/// Whether a number is missing.
#[tactic(auto, using(crate::proofs::Sameness::lacks_numbers))]
pub(crate) fn lacks_numbers(alloc: Global, whole: &[u32], parts: &[u32]) -> Result<bool, NoMemory>
    ensures { IfOk result (λ answer. answer ≡ lacks_some nat_eq whole.now parts.now) }
{
    lacks_some(alloc, whole, parts)
}
