// A stream of bytes that is read and one that is written.
ghost use Rattle.std.specs.Prelude.{◌≡◌, ◌<◌, ℕ, List, Option, length};
ghost use Rattle.sw_edge.specs.Answers.{Fits, Takes, Sends};
ghost use Rattle.sw_edge.specs.Counts.{HasCause, StaysUnless};

use crate::{Got, Sent};

/// Bytes that are read from the front. No call takes memory. `read` may wait for bytes.
pub trait Source {
    /// The bytes that are left to read, where the source tells them.
    ghost left: { Self → Option (List ℕ) };

    /// How often the source has failed; it stays at 2^64 - 1.
    ghost faults: { Self → ℕ };

    /// How often a read met the end of the source; it stays at 2^64 - 1.
    ghost ends: { Self → ℕ };

    /// Reads at least one byte into the front of the buffer. After a fault it may be called again.
    fn read(&mut self, buf: &mut [u8]) -> Got
        requires { 0 < length buf.old }
        ensures fits { Fits result buf.new }
        ensures takes { Takes (left self.old) (left self.new) result buf.new }
        ensures failed { HasCause (faults self.old) (faults self.new) (result ≡ Got.Failed) }
        ensures no_fault { StaysUnless (faults self.old) (faults self.new) (result ≡ Got.Failed) }
        ensures end { HasCause (ends self.old) (ends self.new) (result ≡ Got.End) }
        ensures no_end { StaysUnless (ends self.old) (ends self.new) (result ≡ Got.End) };
}

/// A place that takes bytes behind those that it has. No call takes memory. `write` may wait for room.
pub trait Sink {
    /// The bytes that were sent, where the sink tells them.
    ghost sent: { Self → Option (List ℕ) };

    /// How often the sink has failed; it stays at 2^64 - 1.
    ghost faults: { Self → ℕ };

    /// Hands over all of the bytes. After a fault some first of them may have been handed over.
    fn write(&mut self, bytes: &[u8]) -> Sent
        ensures sends { Sends (sent self.old) (sent self.new) result bytes.now }
        ensures failed { HasCause (faults self.old) (faults self.new) (result ≡ Sent.Failed) }
        ensures no_fault { StaysUnless (faults self.old) (faults self.new) (result ≡ Sent.Failed) };
}
