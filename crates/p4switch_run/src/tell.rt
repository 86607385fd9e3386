//! The line on standard error that says how a run ended.
ghost use Rattle.std.specs.Prelude.{◌≡◌, ◌++◌, codes};
ghost use Rattle.std.specs.Fmt.{decimal};
ghost use Rattle.p4switch_run.specs.Command.{status_line};
ghost use Rattle.p4switch_run.specs.Tell.{IsSaid};

use crate::status::Status;
use itoa::Buffer;
use sw_edge::{Sent, Sink};

// Writes two texts, the second only where the first was written.
fn say_both<E: Sink>(err: &mut E, first: &str, second: &str) -> Sent
    ensures { IsSaid (E.sent err.old) (E.sent err.new) (E.faults err.old) (E.faults err.new) result (first.now ++ second.now) }
{
    match err.write(first.as_bytes()) {
        Sent::Failed => Sent::Failed,
        Sent::All => err.write(second.as_bytes()),
    }
}

// Says that the bytes are no tape behind the first `place` of them.
fn say_place<E: Sink>(err: &mut E, place: u64) -> Sent
    ensures { IsSaid (E.sent err.old) (E.sent err.new) (E.faults err.old) (E.faults err.new) result (status_line (Status.NotATape place)) }
{
    let mut digits = Buffer::new();
    match say_both(err, "p4switch: not a tape after ", digits.format(place)) {
        Sent::Failed => Sent::Failed,
        Sent::All => err.write(b" bytes\n"),
    }
}

fn say<E: Sink>(err: &mut E, line: &str) -> Sent
    ensures { IsSaid (E.sent err.old) (E.sent err.new) (E.faults err.old) (E.faults err.new) result line.now }
{
    err.write(line.as_bytes())
}

/// Says how the run ended. A sink that fails is sent some first bytes of the line.
pub fn tell<E: Sink>(err: &mut E, status: Status) -> Sent
    ensures { IsSaid (E.sent err.old) (E.sent err.new) (E.faults err.old) (E.faults err.new) result (status_line status) }
{
    match status {
        Status::Done => say(err, ""),
        Status::NotATape(place) => say_place(err, place),
        Status::WordsRefused => say(err, "p4switch: words refused\n"),
        Status::NoMemory => say(err, "p4switch: no memory\n"),
        Status::ReadFault => say(err, "p4switch: read fault\n"),
        Status::WriteFault => say(err, "p4switch: write fault\n"),
        Status::TooLong => say(err, "p4switch: tape too long\n"),
        Status::NetFault => say(err, "p4switch: net fault\n"),
        Status::Refused => say(err, ""),
    }
}
