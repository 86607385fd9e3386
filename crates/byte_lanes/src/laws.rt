//! What holds of runs of tapes with lanes of bytes. Each function does nothing: its contract is the law.
ghost use Rattle.byte_lanes.specs.Laws.{FilledIsReport, LockstepIsFree, RecordsAreItems, ItemsAreRecords, ItemsDetermineReport};

/// A run in one pass gives the report that follows the tape.
pub fn filled_is_report()
    ensures { FilledIsReport }
{}

/// The report that follows the tape is one in some interleaving of its lanes, too.
pub fn lockstep_is_free()
    ensures { LockstepIsFree }
{}

/// Where no lane brings bytes, a report of a run of the records is one of the tape.
pub fn records_are_items()
    ensures { RecordsAreItems }
{}

/// Where no lane brings bytes, a report of the tape is one of a run of its records.
pub fn items_are_records()
    ensures { ItemsAreRecords }
{}

/// Two reports of one tape, each of a run that follows it and in which no call is refused for memory, are equal.
pub fn items_determine_report()
    ensures { ItemsDetermineReport }
{}
