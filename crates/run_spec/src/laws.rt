//! Laws about the definitions. Each function's contract is the law; its body does nothing.
ghost use Rattle.run_spec.specs.Play.{PlayedIsReport};
ghost use Rattle.run_spec.specs.Report.{TapeDeterminesReport};
ghost use Rattle.run_spec.specs.Rows.{EmptyTape, OneEntryOnePacket, InsertTwice, TableFull, ShortPacket, MetCall, BackupWaits};

/// One pass over a tape gives a report of it, the one that follows the tape.
pub fn played_is_report()
    ensures law { PlayedIsReport }
{}

/// A tape has one report that follows it, where no call is refused for memory.
pub fn tape_determines_report()
    ensures law { TapeDeterminesReport }
{}

/// Worked runs, with their bytes and texts.
pub fn worked_runs()
    ensures empty_tape { EmptyTape }
    ensures one_entry_one_packet { OneEntryOnePacket }
    ensures insert_twice { InsertTwice }
    ensures table_full { TableFull }
    ensures short_packet { ShortPacket }
    ensures met_call { MetCall }
    ensures backup_waits { BackupWaits }
{}
