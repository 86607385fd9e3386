//! How the work of lanes goes on, and what all lanes together have done, as contracts of functions that do nothing.
ghost use Rattle.lane_work.specs.Laws.{WorkBegins, WorkRuns, WorkStays, WorkIsShare, FitsGoOn, SharesGoOn, LeastIsCovered, EachHasItsOwn, OthersHaveNone, JoinedInTurn, JoinedFit, JoinedAreCounted, SeatsAreJoined};

/// A lane begins with no packets.
pub fn work_begins()
    ensures { WorkBegins }
{}

/// A packet that it runs is one more of those that it was given.
pub fn work_runs()
    ensures { WorkRuns }
{}

/// What it learns, reads or is refused changes nothing of its packets.
pub fn work_stays()
    ensures { WorkStays }
{}

/// What it carried fits all that it may be told of.
pub fn work_is_share()
    ensures { WorkIsShare }
{}

/// A packet that fits a list fits each that goes on.
pub fn fits_go_on()
    ensures { FitsGoOn }
{}

/// So does all that a lane carried.
pub fn shares_go_on()
    ensures { SharesGoOn }
{}

/// Packets are after the steps of what each belongs to.
pub fn least_is_covered()
    ensures { LeastIsCovered }
{}

/// Of the packets of all lanes, each lane's are its own.
pub fn each_has_its_own()
    ensures { EachHasItsOwn }
{}

/// No other lane has any.
pub fn others_have_none()
    ensures { OthersHaveNone }
{}

/// They are numbered on each lane, and their steps do not fall there.
pub fn joined_in_turn()
    ensures { JoinedInTurn }
{}

/// All fit the list.
pub fn joined_fit()
    ensures { JoinedFit }
{}

/// They hit what the seats added together.
pub fn joined_are_counted()
    ensures { JoinedAreCounted }
{}

/// A seat that took others in has added what all of them added.
pub fn seats_are_joined()
    ensures { SeatsAreJoined }
{}
