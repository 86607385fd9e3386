// What the answers of the system's streams and of its clock mean.
ghost use Rattle.std.specs.Prelude.{◌≡◌, ◌↔◌, ◌-◌, ◌^◌, min, IsOk};
ghost use Rattle.sw_edge.specs.Real.{ReadTells, WriteTakes, moment};

use crate::{Got, Sent};
use std::io::{self, ErrorKind};
use std::time::Duration;

/// What one read tells; nothing where a signal cut it short, and then it is tried again.
pub fn told_by(answer: &io::Result<usize>) -> Option<Got>
    ensures { ReadTells answer.now result }
{
    match answer {
        Ok(0) => Some(Got::End),
        Ok(count) => Some(Got::Bytes(*count)),
        Err(error) if error.kind() == ErrorKind::Interrupted => None,
        Err(_) => Some(Got::Failed),
    }
}

/// How many bytes one write took, none where a signal cut it short; nothing where no more are to be tried.
pub fn taken_by(answer: &io::Result<usize>) -> Option<usize>
    ensures { WriteTakes answer.now result }
{
    match answer {
        Ok(0) => None,
        Ok(count) => Some(*count),
        Err(error) if error.kind() == ErrorKind::Interrupted => Some(0),
        Err(_) => None,
    }
}

/// What is told of bytes of which so many were taken, and behind which a flush was answered so.
pub fn sent_by(done: usize, wanted: usize, flushed: &io::Result<()>) -> Sent
    ensures { (result ≡ Sent.All) ↔ ((done ≡ wanted) × IsOk flushed.now) }
{
    if done == wanted && flushed.is_ok() {
        Sent::All
    } else {
        Sent::Failed
    }
}

// The nanoseconds of a duration, where they fit 64 bits, else the most.
fn nanoseconds(passed: u128) -> u64
    ensures { result ≡ min passed (2 ^ 64 - 1) }
{
    if passed < 0x1_0000_0000_0000_0000 {
        passed as u64
    } else {
        u64::MAX
    }
}

/// The moment that is told behind another; that one again where the clock was not read and where it went back.
pub fn moment(last: u64, read: &io::Result<Duration>) -> u64
    ensures { result ≡ moment last read.now }
{
    match read {
        Ok(passed) => last.max(nanoseconds(passed.as_nanos())),
        Err(_) => last,
    }
}
