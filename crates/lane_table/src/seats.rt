//! The tokens of a table. None has bytes.
use crate::entry::OfLane;
use crate::roles::Role;
use std::marker::Model;

/// Knows all entries of the journal, and how many lanes were claimed. It stands beside the journal, under its lock.
#[derive(Drop)]
pub struct JournalSeat<E> {
    pub(crate) inner: atomic_table::Seat<E, Role<E>>,
}

impl<E> Model for JournalSeat<E> {
    ghost use Rattle.lane_table.specs.Lanes.{Journal};
    ghost use Rattle.lane_table.specs.Ruling.{IsFree, entries_of, number_of};

    ghost Value = { Journal E };

    ghost view = { λ s. record { table = s.inner.table_id; entries = entries_of s.inner.me.0; lanes = number_of s.inner.me.0 } };

    ghost invariant = { λ s. IsFree s.inner.me };
}

/// Knows all entries of one lane. There is one such token for each lane, and it goes with what makes the lane's calls.
#[derive(Drop)]
pub struct LaneSeat<E> {
    pub(crate) inner: atomic_table::Seat<E, Role<E>>,
}

impl<E> Model for LaneSeat<E> {
    ghost use Rattle.std.specs.Prelude.{◌≡◌, []};
    ghost use Rattle.lane_table.specs.Lanes.{Lane};
    ghost use Rattle.lane_table.specs.Ruling.{at_lane, entries_of, number_of};

    ghost Value = { Lane E };

    ghost view = { λ s. record { table = s.inner.table_id; number = number_of s.inner.me.0; entries = entries_of s.inner.me.0 } };

    ghost invariant = { λ s. s.inner.me ≡ (at_lane (number_of s.inner.me.0) (entries_of s.inner.me.0), []) };
}

/// Knows the entries that the journal had at one moment.
#[derive(Drop)]
pub struct Note<E> {
    pub(crate) inner: atomic_table::Seat<E, Role<E>>,
}

impl<E> Model for Note<E> {
    ghost use Rattle.std.specs.Prelude.{◌≡◌, []};
    ghost use Rattle.lane_table.specs.Lanes.{Noted};
    ghost use Rattle.lane_table.specs.Ruling.{bearing, entries_of};

    ghost Value = { Noted E };

    ghost view = { λ s. record { table = s.inner.table_id; entries = entries_of s.inner.me.0 } };

    ghost invariant = { λ s. s.inner.me ≡ (bearing (entries_of s.inner.me.0), []) };
}
