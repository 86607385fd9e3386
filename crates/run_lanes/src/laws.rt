//! What lanes at their ends make together, as the contract of a function that does nothing.
ghost use Rattle.run_lanes.specs.Gathered.{LanesMakeARun};

/// The journal of a run and the records of its lanes are a run of the tape, where each lane is at its end.
pub fn lanes_make_a_run()
    ensures { LanesMakeARun }
{}
