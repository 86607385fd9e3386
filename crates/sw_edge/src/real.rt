// The standard streams and the clock of the system.
ghost use Rattle.std.specs.Prelude.{◌≡◌, ◌-◌, ◌^◌, ◌<◌, ◌≤◌, length, take};
ghost use Rattle.std.specs.Io.KnownBytes.{Appends};
ghost use Rattle.sw_edge.specs.Answers.{Fits, Takes, Sends};
ghost use Rattle.sw_edge.specs.Counts.{HasCause, StaysUnless};
ghost use Rattle.sw_edge.specs.Real.{MeteredReader, MeteredWriter, Timed, IsReadBy, IsWrittenBy, IsSentBy, IsTimedBy};

use crate::attempts::{moment, sent_by, taken_by, told_by};
use crate::count::raise;
use crate::system::{Reader, Ticker, Writer};
use crate::{Clock, Got, Sent, Sink, Source};
use std::marker::Model;

// How often a read that a signal cut short is tried.
const TRIES: u32 = 1024;

/// A reader, as of standard input, which tells what the reader tells. Each error counts as a fault.
#[derive(Drop)]
pub struct RealSource<R> {
    reader: R,
    faults: u64,
    ends: u64,
}

impl<R> Model for RealSource<R> {
    ghost Value = { MeteredReader R };

    ghost view = { λ s. record { stream = s.reader; faults = s.faults; ends = s.ends } };
}

impl<R> RealSource<R> {
    /// A source over a reader, with no fault and no end told.
    pub fn new(reader: R) -> RealSource<R>
        ensures stream { result.stream ≡ reader }
        ensures faults { result.faults ≡ 0 }
        ensures ends { result.ends ≡ 0 }
    {
        RealSource {
            reader,
            faults: 0,
            ends: 0,
        }
    }
}

// Reads until something is told, and tells a fault where signals cut all tries short.
#[tactic(auto, using(crate::proofs::RealLaws::tries, crate::proofs::TryLaws::cut_more))]
fn read_some<R: Reader>(reader: &mut R, buf: &mut [u8]) -> Got
    requires { 0 < length buf.old }
    ensures fits { Fits result buf.new }
    ensures takes { Takes (R.remaining reader.old) (R.remaining reader.new) result buf.new }
    ensures told { IsReadBy R.answers TRIES reader.old reader.new result }
{
    for _ in 0..TRIES {
        let answer = reader.try_read(buf);
        if let Some(got) = told_by(&answer) {
            return got;
        }
    }
    Got::Failed
}

impl<R: Reader> Source for RealSource<R> {
    ghost left = { λ s. R.remaining s.stream };

    ghost faults = { λ s. s.faults };

    ghost ends = { λ s. s.ends };

    #[tactic(auto, using(crate::proofs::RealLaws::streams))]
    fn read(&mut self, buf: &mut [u8]) -> Got
        requires { 0 < length buf.old }
        ensures fits { Fits result buf.new }
        ensures takes { Takes (R.remaining self.old.stream) (R.remaining self.new.stream) result buf.new }
        ensures failed { HasCause self.old.faults self.new.faults (result ≡ Got.Failed) }
        ensures no_fault { StaysUnless self.old.faults self.new.faults (result ≡ Got.Failed) }
        ensures end { HasCause self.old.ends self.new.ends (result ≡ Got.End) }
        ensures no_end { StaysUnless self.old.ends self.new.ends (result ≡ Got.End) }

        // It is told what the reader answered to a try that no signal cut short.
        ensures told { IsReadBy R.answers TRIES self.old.stream self.new.stream result }
    {
        let got = read_some(&mut self.reader, buf);
        match got {
            Got::Bytes(_) => {}
            Got::End => raise(&mut self.ends),
            Got::Failed => raise(&mut self.faults),
        }
        got
    }
}

/// A writer, as of standard output, which tells what the writer tells. Each error counts as a fault.
#[derive(Drop)]
pub struct RealSink<W> {
    writer: W,
    faults: u64,
}

impl<W> Model for RealSink<W> {
    ghost Value = { MeteredWriter W };

    ghost view = { λ s. record { stream = s.writer; faults = s.faults } };
}

impl<W> RealSink<W> {
    /// A sink over a writer, with no fault counted.
    pub fn new(writer: W) -> RealSink<W>
        ensures stream { result.stream ≡ writer }
        ensures faults { result.faults ≡ 0 }
    {
        RealSink { writer, faults: 0 }
    }
}

// Writes the bytes and says how many were written: all of them, or fewer after an error.
#[tactic(auto, using(crate::proofs::RealLaws::tries, crate::proofs::TryLaws::took_more))]
fn write_some<W: Writer>(writer: &mut W, bytes: &[u8]) -> usize
    ensures bound { result ≤ length bytes.now }
    ensures bytes { Appends (W.contents writer.old) (W.contents writer.new) (take result bytes.now) }
    ensures told { IsWrittenBy W.answers (2 ^ 64 - 1) writer.old writer.new (length bytes.now) result }
{
    let mut done = 0;
    for _ in 0..u64::MAX {
        if done == bytes.len() {
            break;
        }
        let answer = writer.try_write(&bytes[done..]);
        match taken_by(&answer) {
            Some(count) => done += count,
            None => break,
        }
    }
    done
}

impl<W: Writer> Sink for RealSink<W> {
    ghost sent = { λ s. W.contents s.stream };

    ghost faults = { λ s. s.faults };

    #[tactic(auto, using(crate::proofs::RealLaws::streams))]
    fn write(&mut self, bytes: &[u8]) -> Sent
        ensures sends { Sends (W.contents self.old.stream) (W.contents self.new.stream) result bytes.now }
        ensures failed { HasCause self.old.faults self.new.faults (result ≡ Sent.Failed) }
        ensures no_fault { StaysUnless self.old.faults self.new.faults (result ≡ Sent.Failed) }

        // The bytes are tried until all are taken or the writer says that it takes no more, and then flushed.
        ensures told { IsSentBy W.answers W.flushes (2 ^ 64 - 1) self.old.stream self.new.stream (length bytes.now) result }
    {
        let done = write_some(&mut self.writer, bytes);
        let flushed = self.writer.flush();
        let sent = sent_by(done, bytes.len(), &flushed);
        if let Sent::Failed = sent {
            raise(&mut self.faults);
        }
        sent
    }
}

/// The monotonic clock. Where it cannot be read, and where it would go back, it tells its last moment again.
#[derive(Drop)]
pub struct RealClock<C> {
    clock: C,
    last: u64,
}

impl<C> Model for RealClock<C> {
    ghost Value = { Timed C };

    ghost view = { λ c. record { clock = c.clock; last = c.last } };
}

impl<C> RealClock<C> {
    /// A clock over one of the system's, whose moments never fall.
    pub fn new(clock: C) -> RealClock<C>
        ensures clock { result.clock ≡ clock }
        ensures last { result.last ≡ 0 }
    {
        RealClock { clock, last: 0 }
    }
}

impl<C: Ticker> Clock for RealClock<C> {
    ghost last = { λ c. c.last };

    fn now(&mut self) -> u64
        ensures later { self.old.last ≤ self.new.last }
        ensures told { result ≡ self.new.last }

        // It is told what the clock was read as.
        ensures clock { self.new.clock ≡ self.old.clock }
        ensures read { IsTimedBy C.readings self.old.clock self.old.last result }
    {
        self.last = moment(self.last, &self.clock.try_now());
        self.last
    }
}
