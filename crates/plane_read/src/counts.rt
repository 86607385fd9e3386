//! What counters have counted, as it is answered.
ghost use Rattle.std.specs.Prelude.{◌≡◌};
ghost use Rattle.switch_spec.specs.Reading.{count_number, shown_data};

use p4_types::messages::CounterData;

/// What counters have counted, as a Read sees it. Contracts see by `figures` the packets and bytes of each slot.
pub trait Counts {
    ghost use Rattle.switch_spec.specs.Counts.{Figures};

    ghost figures: { Self → Figures };

    /// The packets and bytes that the counter of a slot has counted.
    fn count(&self, slot: u32) -> (u64, u64)
        ensures { result ≡ figures self.now slot };
}

/// A figure as a number of its type.
pub(crate) fn count_number(count: u64) -> i64
    ensures { result ≡ count_number count }
{
    count.min(i64::MAX as u64) as i64
}

/// What a counter has counted as it is answered.
pub(crate) fn shown_data(packets: u64, bytes: u64) -> CounterData
    ensures { result ≡ shown_data (packets, bytes) }
{
    CounterData {
        byte_count: count_number(bytes),
        packet_count: count_number(packets),
    }
}
