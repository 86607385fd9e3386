//! The figures by slots.
ghost use Rattle.std.specs.Prelude.{◌≡◌, ◌≤◌, ◌<◌, ◌^◌, ◌+◌, ◌*◌, ℕ, length, All, OnOk};
ghost use Rattle.switch_spec.specs.Counts.{figures_after};
ghost use Rattle.slot_totals.specs.Totals.{figures_in, slot_of, counted_at, AreUnder, IsWithin};

use crate::figure::{Figure, NOTHING};
use list_types::NoMemory;
use p4_types::records::HitMark;

// The slot that a hit is counted at, if it is counted.
fn slot_of(hit: HitMark) -> Option<u32>
    ensures { result ≡ slot_of hit }
{
    match hit {
        HitMark::Entry { slot, .. } => slot,
        HitMark::Cell { slot } => Some(slot),
    }
}

// Makes room for a slot.
fn grow(counts: &mut Vec<Figure>, slot: Option<u32>) -> Result<(), NoMemory>
    ensures figures { (at : ℕ) → figures_in counts.new.items at ≡ figures_in counts.old.items at }
    ensures under { (packets bytes : ℕ) → AreUnder packets bytes counts.old.items → AreUnder packets bytes counts.new.items }
    ensures few { length counts.old.items ≤ 2 ^ 32 → length counts.new.items ≤ 2 ^ 32 }
    ensures longer { length counts.old.items ≤ length counts.new.items }
    ensures ok { OnOk result (IsWithin (length counts.new.items) slot) }
{
    if let Some(slot) = slot {
        let len = slot as usize + 1;
        if counts.len() < len {
            counts.resize(len, NOTHING)?;
        }
    }
    Ok(())
}

/// Makes room for the slots of hits.
pub(crate) fn grow_for(counts: &mut Vec<Figure>, hits: &[HitMark]) -> Result<(), NoMemory>
    ensures figures { (at : ℕ) → figures_in counts.new.items at ≡ figures_in counts.old.items at }
    ensures under { (packets bytes : ℕ) → AreUnder packets bytes counts.old.items → AreUnder packets bytes counts.new.items }
    ensures few { length counts.old.items ≤ 2 ^ 32 → length counts.new.items ≤ 2 ^ 32 }
    ensures ok { OnOk result (All (λ hit. IsWithin (length counts.new.items) (slot_of hit)) hits.now) }
{
    for hit in hits {
        grow(counts, slot_of(*hit))?;
    }
    Ok(())
}

// Counts a packet of so many bytes at a slot.
fn count_at(counts: &mut Vec<Figure>, slot: Option<u32>, bytes: u64)
    requires within { IsWithin (length counts.old.items) slot }
    requires under { AreUnder (2 ^ 63 + 2 ^ 19) (2 ^ 63 + 2 ^ 62 + 2 ^ 32) counts.old.items }
    requires short { bytes ≤ 9216 }
    ensures { counts.new.items ≡ counted_at bytes slot counts.old.items }
{
    if let Some(slot) = slot {
        let slot = slot as usize;
        let figure = counts[slot];
        counts[slot] = Figure {
            packets: figure.packets + 1,
            bytes: figure.bytes + bytes,
        };
    }
}

/// Counts a packet of so many bytes at the slot of each hit.
pub(crate) fn count_hits(counts: &mut Vec<Figure>, hits: &[HitMark], bytes: u64)
    requires within { All (λ hit. IsWithin (length counts.old.items) (slot_of hit)) hits.now }
    requires under { AreUnder (2 ^ 63) (2 ^ 63 + 2 ^ 62) counts.old.items }
    requires few { length hits.now ≤ 274560 }
    requires short { bytes ≤ 9216 }
    ensures figures { (at : ℕ) → figures_in counts.new.items at ≡ figures_after (figures_in counts.old.items) hits.now bytes at }
    ensures len { length counts.new.items ≡ length counts.old.items }
    ensures under { (most longest : ℕ) → AreUnder most longest counts.old.items → AreUnder (most + length hits.now) (longest + length hits.now * bytes) counts.new.items }
{
    for hit in hits {
        count_at(counts, slot_of(*hit), bytes);
    }
}
