//! Laws of what is asked and sent on a link, each the contract of a function that does nothing.
ghost use Rattle.p4rt_service.specs.Laws.{AnyCut, SentBefore, Determined, LaneStays};

/// Cutting bytes in two changes neither the calls nor what is sent.
pub fn any_cut()
    ensures { AnyCut }
{}

/// What was sent before a turn changes nothing in it.
pub fn sent_before()
    ensures { SentBefore }
{}

/// The replies alone determine the calls of a dialogue and how it ends.
pub fn determined()
    ensures { Determined }
{}

/// A link stays that of its lane, whatever happens to it.
pub fn lane_stays()
    ensures { LaneStays }
{}
