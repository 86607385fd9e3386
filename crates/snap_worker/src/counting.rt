//! What a packet hit is counted.
ghost use Rattle.std.specs.Prelude.{◌≡◌, ◌<◌, All, length};
ghost use Rattle.snap_worker.specs.Counting.{after_mark, after_packet, IsWithin};

use counter_bank::{Bank, Seat};
use p4_types::records::HitMark;

// Counts a hit of a packet of so many bytes.
fn count_hit(bank: &Bank, seat: &mut Seat, hit: HitMark, bytes: u32)
    requires bank { seat.old.bank ≡ bank.now.id }
    requires slot { IsWithin bank.now.slots hit }
    ensures { seat.new ≡ after_mark bytes seat.old hit }
{
    match hit {
        HitMark::Entry { slot: None, .. } => {}
        HitMark::Entry {
            slot: Some(slot),
            ..
        } => bank.hit(seat, slot, bytes),
        HitMark::Cell { slot } => bank.hit(seat, slot, bytes),
    }
}

/// Counts the hits of a packet of so many bytes.
pub(crate) fn count_hits(bank: &Bank, seat: &mut Seat, hits: &[HitMark], bytes: u32)
    requires bank { seat.old.bank ≡ bank.now.id }
    requires slots { All (IsWithin bank.now.slots) hits.now }
    ensures counted { seat.new ≡ after_packet bytes hits.now seat.old }
    ensures bank { seat.new.bank ≡ seat.old.bank }
    ensures parts { seat.new.parts ≡ seat.old.parts }
{
    for hit in hits {
        count_hit(bank, seat, *hit, bytes);
    }
}
