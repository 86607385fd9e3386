// The streams and the clock of the system, one try at a time. Which answers a try may give is a relation that stays open
// where tries are made of any reader, writer or clock: a proof there has an answer only from a try that was made.
ghost use Rattle.std.specs.Prelude.{◌≡◌, ℕ, List, Option, Result, ⊤};
ghost use Rattle.std.specs.Io.{ReadsAtMost, WritesAtMost};
ghost use Rattle.std.specs.Io.KnownBytes.{ReadConsumes, WriteAppends, Keeps};
ghost use Rattle.std.specs.declared.io.Error.{Error};
ghost use Rattle.std.specs.declared.time.Duration.{Duration};

use std::io::{self, Read, Write};
use std::time::{self, Duration};

// A reader, of which single reads are tried.
pub trait Reader {
    // The bytes that are left to read, where they are known.
    ghost remaining: { Self → Option (List ℕ) };

    // What a read may answer, and what the reader is then.
    ghost answers: { Self → Result ℕ Error → Self → Type 0 };

    fn try_read(&mut self, buf: &mut [u8]) -> io::Result<usize>
        ensures bound { ReadsAtMost result buf.new }
        ensures bytes { ReadConsumes (remaining self.old) (remaining self.new) result buf.new }
        ensures answer { answers self.old result self.new };
}

impl<R: Read> Reader for R {
    ghost remaining = { R.remaining };

    ghost answers = { λ _ _ _. ⊤ };

    fn try_read(&mut self, buf: &mut [u8]) -> io::Result<usize> {
        self.read(buf)
    }
}

// A writer, of which single writes and flushes are tried.
pub trait Writer {
    // The bytes that were written, where they are known.
    ghost contents: { Self → Option (List ℕ) };

    // What a write may answer, and what the writer is then.
    ghost answers: { Self → Result ℕ Error → Self → Type 0 };

    // The same of a flush.
    ghost flushes: { Self → Result ⊤ Error → Self → Type 0 };

    fn try_write(&mut self, bytes: &[u8]) -> io::Result<usize>
        ensures bound { WritesAtMost result bytes.now }
        ensures bytes { WriteAppends (contents self.old) (contents self.new) result bytes.now }
        ensures answer { answers self.old result self.new };

    fn flush(&mut self) -> io::Result<()>
        ensures bytes { Keeps (contents self.old) (contents self.new) }
        ensures answer { flushes self.old result self.new };
}

impl<W: Write> Writer for W {
    ghost contents = { W.contents };

    ghost answers = { λ _ _ _. ⊤ };

    ghost flushes = { λ _ _ _. ⊤ };

    fn try_write(&mut self, bytes: &[u8]) -> io::Result<usize> {
        self.write(bytes)
    }

    fn flush(&mut self) -> io::Result<()> {
        Write::flush(self)
    }
}

// A clock, which is read.
pub trait Ticker {
    // What a reading may be.
    ghost readings: { Self → Result Duration Error → Type 0 };

    fn try_now(&self) -> io::Result<Duration>
        ensures { readings self.now result };
}

impl<C: time::Clock> Ticker for C {
    ghost readings = { λ _ _. ⊤ };

    fn try_now(&self) -> io::Result<Duration> {
        self.monotonic()
    }
}
