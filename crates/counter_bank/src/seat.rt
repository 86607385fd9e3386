//! A seat of a bank.
use crate::tally::Tally;
use std::marker::Model;

/// The right to count in a bank, with what was counted by it. It has no bytes. A bank's seats share its 2^32 parts, and each has at least one.
/// A seat that is dropped takes its parts with it, so that the bank can no longer be closed with all of them.
#[derive(Drop)]
pub struct Seat {
    pub(crate) inner: atomic_table::Seat<(), Tally>,
}

impl Model for Seat {
    ghost use Rattle.std.specs.Prelude.{◌≡◌, ◌<◌, []};
    ghost use Rattle.counter_bank.specs.Account.{Account};

    ghost Value = { Account };

    ghost use Rattle.counter_bank.specs.Counting.{account};

    ghost view = { λ s. account s.inner.table_id s.inner.me.0 };

    ghost invariant = { λ s. (s.inner.me.1 ≡ []) × (0 < s.inner.me.0.parts) };
}
