//! What the counters of a run have counted, once all its lanes are at their ends.
ghost use Rattle.std.specs.Prelude.{◌≡◌, ◌++◌, map, fold, OnOk};
ghost use Rattle.std.specs.List.{AllByRecursion, flat_map};
ghost use Rattle.counter_bank.specs.Account.{all_parts, joined, AreTotals, NoneAbove};
ghost use Rattle.replay_run.specs.Ends.{IsSeated, figures_at};

use counter_bank::{Bank, Seat, Totals, close_with};
use lane_work::{Finished, LaneWork};
use list_types::NoMemory;
use p4_types::records::Record;
use plane_read::Counts;
use slot_totals::SlotCounts;
use std::alloc::Global;
use std::marker::Model;

/// The packets and bytes that the counter of each slot has counted, modulo 2^64; those of slots that the bank does not have
/// are 0. A contract sees them as it sees the bank's.
#[derive(Drop)]
pub(crate) struct Counted {
    totals: Totals,
}

impl Model for Counted {
    ghost use Rattle.std.specs.Prelude.{ℕ, List};

    ghost Value = { List ℕ };

    ghost view = { λ c. c.totals };
}

impl Counted {
    /// What a bank has counted, closed with the seat that all others were joined to.
    pub(crate) fn close(bank: Bank, seat: Seat) -> Counted
        requires bank { seat.bank ≡ bank.id }
        requires parts { seat.parts ≡ all_parts }
        ensures totals { AreTotals result bank.slots seat.added }
        ensures noted { NoneAbove seat.noted seat.added }
    {
        Counted {
            totals: close_with(bank, seat),
        }
    }
}

impl Counts for Counted {
    ghost figures = { figures_at };

    fn count(&self, slot: u32) -> (u64, u64) {
        self.totals.get(slot)
    }
}

impl SlotCounts for Counted {
    fn slots(&self) -> u64 {
        u64::from(self.totals.slots())
    }
}

/// Joins the seats of lanes that are at their ends to one, and adds their records.
pub(crate) fn join_works(
    alloc: Global,
    bank: &Bank,
    seat: &mut Seat,
    records: &mut Vec<Record>,
    works: Vec<LaneWork>,
) -> Result<(), NoMemory>
    requires bank { seat.old.bank ≡ bank.now.id }
    requires seated { AllByRecursion (IsSeated bank.now.id) works.items }
    ensures seat { OnOk result (seat.new ≡ fold joined seat.old (map (λ work. work.seat) works.items)) }
    ensures records { OnOk result (records.new.items ≡ records.old.items ++ flat_map (λ work. work.records) works.items) }
{
    for work in works {
        let Finished {
            viewer: _,
            seat: own,
            records: made,
        } = work.finish(alloc)?;
        bank.join(seat, own);
        let mut made = made.into_vec();
        records.append(&mut made)?;
    }
    Ok(())
}
