//! What the counters of all slots have counted.
ghost use Rattle.std.specs.Prelude.{◌≡◌, ◌≤◌, ◌<◌, ◌^◌, ◌+◌, length, OnOk, OnErr};
ghost use Rattle.switch_spec.specs.Counts.{no_figures, figures_after};
ghost use Rattle.slot_totals.specs.State.{figures};

use crate::counting;
use crate::figure::{Figure, NOTHING};
use crate::slots::SlotCounts;
use list_types::NoMemory;
use p4_types::records::HitMark;
use plane_read::Counts;
use std::alloc::Global;
use std::marker::Model;

/// The packets and bytes that the counter of each slot has counted, of the packets that were added. Contracts see how many
/// those are, and by `figures` what each counter has.
#[derive(Drop)]
pub struct Totals {
    counts: Vec<Figure>,
    packets: u64,
}

impl Model for Totals {
    ghost use Rattle.slot_totals.specs.State.{TotalsState};
    ghost use Rattle.slot_totals.specs.Totals.{pairs_of, IsKept};

    ghost Value = { TotalsState };

    ghost view = { λ totals. record { counts = pairs_of totals.counts.items; packets = totals.packets } };

    ghost invariant = { λ totals. IsKept totals.packets totals.counts.items };
}

impl Totals {
    /// Counters that have counted nothing, which take no memory.
    pub fn open(alloc: Global) -> Totals
        ensures figures { figures result ≡ no_figures }
        ensures packets { result.packets ≡ 0 }
    {
        Totals {
            counts: Vec::new(alloc),
            packets: 0,
        }
    }

    /// How many packets were added.
    pub fn packets(&self) -> u64
        ensures { result ≡ self.now.packets }
    {
        self.packets
    }

    /// Adds a packet of so many bytes that had these hits. Without memory nothing is counted.
    pub fn add(&mut self, hits: &[HitMark], bytes: usize) -> Result<(), NoMemory>
        requires few { length hits.now ≤ 274560 }
        requires short { bytes ≤ 9216 }
        requires packets { self.old.packets < 2 ^ 32 }
        ensures ok { OnOk result (figures self.new ≡ figures_after (figures self.old) hits.now bytes) }
        ensures packets { OnOk result (self.new.packets ≡ self.old.packets + 1) }
        ensures err { OnErr result (figures self.new ≡ figures self.old) }
        ensures err_packets { OnErr result (self.new.packets ≡ self.old.packets) }
    {
        counting::grow_for(&mut self.counts, hits)?;
        counting::count_hits(&mut self.counts, hits, bytes as u64);
        self.packets += 1;
        Ok(())
    }

    /// What the counter of a slot has counted.
    fn figure(&self, slot: u32) -> Figure
        ensures packets { result.packets ≡ (figures self.now slot).0 }
        ensures bytes { result.bytes ≡ (figures self.now slot).1 }
    {
        match self.counts.get(slot as usize) {
            Some(figure) => *figure,
            None => NOTHING,
        }
    }
}

impl Counts for Totals {
    ghost figures = { λ totals. figures totals };

    fn count(&self, slot: u32) -> (u64, u64) {
        let figure = self.figure(slot);
        (figure.packets, figure.bytes)
    }
}

impl SlotCounts for Totals {
    fn slots(&self) -> u64 {
        self.counts.len() as u64
    }
}
