//! The rule of what is shown, under which `left_right` shows it.
use crate::shown::{Shifting, Shown};
use crate::told::Told;
use atomic_table::{Join, Split};
use crossbeam_utils::rule::{Outcome, Protocol};
use left_right::reader::{Reader, Reading};
use left_right::writer::Writer;

/// A view is what was seen last.
pub struct Keeping;

impl Protocol<Shown, Option<Told>> for Keeping {
    ghost use Rattle.std.specs.Prelude.{None};
    ghost use Rattle.pub_snap.specs.Snapshots.{IsKept};

    ghost holds = { IsKept };

    ghost first = { None };
}

/// A look, or a change.
pub struct Sees;

impl Outcome<Shown, Option<Told>> for Sees {
    ghost use Rattle.pub_snap.specs.Snapshots.{IsSeen};

    ghost then = { IsSeen };
}

/// What was seen is told.
pub struct Tells;

impl Split<Option<Told>> for Tells {
    ghost left = { λ v. v };

    ghost right = { λ v. v };
}

impl Join<Option<Told>> for Tells {
    ghost use Rattle.std.specs.Prelude.{None};

    ghost both = { λ v w. w };

    ghost spent = { None };
}

pub type ShownWriter = Writer<Shown, Shifting, Option<Told>, Keeping>;

pub type ShownReader = Reader<Shown, Option<Told>, Keeping>;

pub type ShownReading = Reading<Shown, Option<Told>, Keeping>;
