// What the errors of the system mean.
ghost use Rattle.std.specs.Prelude.{◌≡◌};
ghost use Rattle.std.specs.IoError.{error_kind};
ghost use Rattle.real_net.specs.Attempts.{trouble_of, judged};

use std::io::{self, ErrorKind};

// How often a call that a signal cut short is tried.
pub const TRIES: u32 = 1024;

// How often, one behind the other, a write may wait in vain before it is given up.
pub const WAITS: u32 = 50;

// Why a call of the system did not do what it was asked.
#[derive(Clone, Copy)]
pub enum Trouble {
    CutShort,
    TimedOut,
    Fault,
}

fn trouble_of(error: &io::Error) -> Trouble
    ensures { result ≡ trouble_of (error_kind error.now) }
{
    match error.kind() {
        ErrorKind::Interrupted => Trouble::CutShort,
        ErrorKind::WouldBlock | ErrorKind::TimedOut => Trouble::TimedOut,
        _ => Trouble::Fault,
    }
}

/// The answer of a call, with what its error means.
pub fn judged<T>(answer: io::Result<T>) -> Result<T, Trouble>
    ensures { result ≡ judged answer }
{
    match answer {
        Ok(value) => Ok(value),
        Err(error) => Err(trouble_of(&error)),
    }
}
