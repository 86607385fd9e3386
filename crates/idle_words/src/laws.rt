//! Laws of the moments and of ticks, each the contract of a function that does nothing, and what may cross threads.
ghost use Rattle.idle_words.specs.Laws.{RaisesOneStamp, GreaterAtEachStamp, NoMomentFalls, NamesTheIdle, OneSeatNeverFalls, NothingBeforeNext, NothingBeforeTheLeast};

use crate::idle::Idle;
use crate::stamps::{StampSeat, Stamps};

/// A moment is touched or noted at its stamp alone.
pub fn raises_one_stamp()
    ensures { RaisesOneStamp }
{}

/// Of what two seats touched and noted the greater is kept.
pub fn greater_at_each_stamp()
    ensures { GreaterAtEachStamp }
{}

/// No change lowers a moment.
pub fn no_moment_falls()
    ensures { NoMomentFalls }
{}

/// A tick names an entry exactly where its timeout has passed and no earlier tick named it at the same last moment.
pub fn names_the_idle()
    ensures { NamesTheIdle }
{}

/// What ticks by one seat find never falls.
pub fn one_seat_never_falls()
    ensures { OneSeatNeverFalls }
{}

/// A tick may be skipped before the next moment that was kept, since it would name nothing.
pub fn nothing_before_next()
    ensures { NothingBeforeNext }
{}

/// A tick may be skipped before the least last moment and timeout together.
pub fn nothing_before_the_least()
    ensures { NothingBeforeTheLeast }
{}

fn crosses<T: Send>(_value: &T) {}

fn is_shared<T: Send + Sync>(_value: &T) {}

/// Threads share stamps by reference; a seat, and what is remembered of ticks, go from thread to thread.
pub fn cross_threads(stamps: &Stamps, seat: &StampSeat, idle: &Idle) {
    is_shared(stamps);
    crosses(seat);
    crosses(idle);
}
