//! Laws about the definitions. Each function's contract is the law; its body does nothing.
ghost use Rattle.run_counts.specs.Hits.{ConfigsStayValid, HitsAreFew, RunsAreWithin};
ghost use Rattle.run_counts.specs.Packets.{WorkersPacketsAreShort, ControllersPacketsAreShort, PacketsAreShort, WorkersPacketsAreFew, ControllersPacketsAreFew, CallsAreFew, PacketsAreFew};
ghost use Rattle.run_counts.specs.Reading.{LockstepIsBounded};
ghost use Rattle.run_counts.specs.Totals.{FiguresAdd, CountsAreExact, TotalsAreCounts};

/// The packets that a tape has for a worker's lane are short.
pub fn workers_packets_are_short()
    ensures law { WorkersPacketsAreShort }
{}

/// So are the packets that the calls of a controller's lane make enter.
pub fn controllers_packets_are_short()
    ensures law { ControllersPacketsAreShort }
{}

/// All packets that a run carries are short.
pub fn packets_are_short()
    ensures law { PacketsAreShort }
{}

/// A worker's lane has at most one packet for each record of the tape.
pub fn workers_packets_are_few()
    ensures law { WorkersPacketsAreFew }
{}

/// A controller's lane has at most one packet for each of its calls.
pub fn controllers_packets_are_few()
    ensures law { ControllersPacketsAreFew }
{}

/// A controller's lane has at most one call for each record of the tape.
pub fn calls_are_few()
    ensures law { CallsAreFew }
{}

/// All lanes of a run together carry at most one packet for each record of the tape.
pub fn packets_are_few()
    ensures law { PacketsAreFew }
{}

/// What two lists of packets have counted together is the sum of what each has counted.
pub fn figures_add()
    ensures law { FiguresAdd }
{}

/// No count of packets within the limits, and none of their bytes, exceeds a word of 64 bits.
pub fn counts_are_exact()
    ensures law { CountsAreExact }
{}

/// What words of 64 bits have counted of a run's packets, in any order, gives the lines of its report.
pub fn totals_are_counts()
    ensures law { TotalsAreCounts }
{}

/// In each state of a run the active plane has a valid configuration.
pub fn configs_stay_valid()
    ensures law { ConfigsStayValid }
{}

/// In such a plane a packet hits so often at most.
pub fn hits_are_few()
    ensures law { HitsAreFew }
{}

/// The packets of a run are within the limits.
pub fn runs_are_within()
    ensures law { RunsAreWithin }
{}

/// In a run that follows its tape each Read saw at least what its lane knew, and at most what all packets counted.
pub fn lockstep_is_bounded()
    ensures law { LockstepIsBounded }
{}
