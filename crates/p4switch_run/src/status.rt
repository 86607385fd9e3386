//! How a run of the program ends.
ghost use Rattle.std.specs.Prelude.{◌≡◌};

use list_types::Refusal;
use serve_run::ServeEnd;
use tape_form::TapeFault;

/// How a run ends, and with which exit status.
#[derive(Clone, Copy)]
pub enum Status {
    /// 0: the tape was read whole and its report was written, or the configuration and its line, or the net that was served ended, or the
    /// summary of a made tape's run was written.
    Done,
    /// 1: the bytes are no tape; the longest front of them with which some tape begins has so many bytes.
    NotATape(u64),
    /// 2: the words are not in the grammar.
    WordsRefused,
    /// 3: there was no memory.
    NoMemory,
    /// 4: the source of the tape or of the configuration failed.
    ReadFault,
    /// 5: the sink of the report, of the line or of the summary failed.
    WriteFault,
    /// 6: the tape has more bytes or records than a tape may have, or the configuration more bytes.
    TooLong,
    /// 7: the net failed.
    NetFault,
    /// 8: the configuration breaks a rule.
    Refused,
}

impl Status {
    ghost use Rattle.p4switch_run.specs.Command.{status_number, fault_status, end_status};

    /// How a run ends whose tape was not read.
    pub fn of_fault(fault: Refusal<TapeFault>) -> Status
        ensures { result ≡ fault_status fault }
    {
        match fault {
            Refusal::For(TapeFault::Bad(place)) => Status::NotATape(place),
            Refusal::For(TapeFault::TooLong) => Status::TooLong,
            Refusal::For(TapeFault::Fault) => Status::ReadFault,
            Refusal::NoMemory => Status::NoMemory,
        }
    }

    /// How a run ends that served.
    pub fn of_end(end: ServeEnd) -> Status
        ensures { result ≡ end_status end }
    {
        match end {
            ServeEnd::Ended => Status::Done,
            ServeEnd::Fault => Status::NetFault,
            ServeEnd::Memory => Status::NoMemory,
        }
    }

    /// The exit status of the program, 0 to 8.
    pub fn number(self) -> u8
        ensures { result ≡ status_number self }
    {
        match self {
            Status::Done => 0,
            Status::NotATape(_) => 1,
            Status::WordsRefused => 2,
            Status::NoMemory => 3,
            Status::ReadFault => 4,
            Status::WriteFault => 5,
            Status::TooLong => 6,
            Status::NetFault => 7,
            Status::Refused => 8,
        }
    }
}
