//! Laws about the definitions. Each function's contract is the law; its body does nothing.
ghost use Rattle.switch_spec.specs.Answer.{EventsIgnoreFigures};
ghost use Rattle.switch_spec.specs.CountLaws.{CountersKeepRecords};
ghost use Rattle.switch_spec.specs.Reading.{OnlyCountersTell};

/// What a call does does not depend on what the counters have counted.
pub fn events_ignore_figures()
    ensures law { EventsIgnoreFigures }
{}

/// What slots have counted is what the records of a run's packets say of the entries and cells that have them.
pub fn counters_keep_records()
    ensures law { CountersKeepRecords }
{}

/// What a Read that asks for no counters is answered does not depend on what they have counted.
pub fn only_counters_tell()
    ensures law { OnlyCountersTell }
{}
