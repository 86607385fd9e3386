// A link over a stream.
ghost use Rattle.std.specs.Prelude.{◌≡◌, ◌+◌, ◌<◌, ◌≤◌, None, length, IfOk};
ghost use Rattle.sw_edge.specs.Answers.{PullFits, Pulls, Sends};
ghost use Rattle.sw_edge.specs.Counts.{HasCause, StaysUnless};
ghost use Rattle.real_net.specs.Attempts.{IsTriedBy, given};
ghost use Rattle.real_net.specs.Links.{HeldLink, pulled_of, IsPulledBy, IsWrittenBy, IsPushedBy};

use crate::attempts::{TRIES, Trouble, WAITS, judged};
use crate::count::raise;
use crate::system::Stream;
use std::marker::Model;
use sw_edge::{Link, LinkWaker, Pulled, Sent};

/// A link over a stream, as of TCP, which tells what the stream tells and no content. A pull that waits longer than the
/// stream lets it (50 milliseconds over TCP) is Quiet, and so is one that its waker ends. A push fails where 50 writes, one behind the other, wait as long as the
/// stream lets them (100 milliseconds over TCP) and it takes no byte in them: over TCP a peer that takes nothing is given
/// up 5 seconds behind the last byte that was taken, one that takes some is waited for. So does a push at each other error.
#[derive(Drop)]
pub struct RealLink<S> {
    stream: S,
    faults: u64,
    quiets: u64,
    ends: u64,
}

impl<S> Model for RealLink<S> {
    ghost Value = { HeldLink S };

    ghost view = { λ l. record { stream = l.stream; faults = l.faults; quiets = l.quiets; ends = l.ends } };
}

impl<S> RealLink<S> {
    /// A link over a stream, with nothing counted.
    pub fn new(stream: S) -> RealLink<S>
        ensures { result ≡ record { stream = stream; faults = 0; quiets = 0; ends = 0 } }
    {
        RealLink {
            stream,
            faults: 0,
            quiets: 0,
            ends: 0,
        }
    }
}

// Reads until no signal cuts the read short.
#[tactic(auto, using(crate::proofs::TryLaws::cut_more))]
fn read_some<S: Stream>(stream: &mut S, buf: &mut [u8]) -> Result<usize, Trouble>
    ensures bound { IfOk result (λ count. count ≤ length buf.new) }
    ensures told { IsTriedBy S.reads TRIES stream.old stream.new (given result buf.new) }
{
    for _ in 0..TRIES {
        match judged(stream.try_read(buf)) {
            Err(Trouble::CutShort) => {}
            told => return told,
        }
    }
    Err(Trouble::CutShort)
}

// What a pull tells of a read.
fn pulled_of(answer: &Result<usize, Trouble>) -> Pulled
    ensures { result ≡ pulled_of answer.now }
{
    match answer {
        Ok(0) => Pulled::End,
        Ok(count) => Pulled::Bytes(*count),
        Err(Trouble::TimedOut) => Pulled::Quiet,
        Err(_) => Pulled::Failed,
    }
}

// Writes until no signal cuts the write short.
#[tactic(auto, using(crate::proofs::TryLaws::cut_more))]
fn write_some<S: Stream>(stream: &mut S, bytes: &[u8]) -> Result<usize, Trouble>
    ensures bound { IfOk result (λ count. count ≤ length bytes.now) }
    ensures told { IsTriedBy (S.writes bytes.now) TRIES stream.old stream.new result }
{
    for _ in 0..TRIES {
        match judged(stream.try_write(bytes)) {
            Err(Trouble::CutShort) => {}
            told => return told,
        }
    }
    Err(Trouble::CutShort)
}

// Writes some of the bytes, or gives up where the writes waited in vain too often.
#[tactic(auto, using(crate::proofs::TryLaws::waited_more))]
fn write_patiently<S: Stream>(stream: &mut S, bytes: &[u8]) -> Result<usize, Trouble>
    ensures bound { IfOk result (λ count. count ≤ length bytes.now) }
    ensures told { IsWrittenBy (S.writes bytes.now) TRIES WAITS stream.old stream.new result }
{
    for _ in 0..WAITS {
        match write_some(stream, bytes) {
            Err(Trouble::TimedOut) => {}
            told => return told,
        }
    }
    Err(Trouble::TimedOut)
}

// Writes all of the bytes, or as many as are taken before a write gives up.
#[tactic(auto, using(crate::proofs::TryLaws::took_more))]
fn write_all<S: Stream>(stream: &mut S, bytes: &[u8]) -> Sent
    ensures { IsPushedBy S.writes TRIES WAITS stream.old stream.new bytes.now result }
{
    let mut done = 0;
    for _ in 0..bytes.len() {
        if done == bytes.len() {
            return Sent::All;
        }
        match write_patiently(stream, &bytes[done..]) {
            Ok(count) if count > 0 => done += count,
            _ => return Sent::Failed,
        }
    }
    Sent::All
}

impl<S: Stream> Link for RealLink<S> {
    ghost left = { λ _. None };

    ghost sent = { λ _. None };

    ghost faults = { λ l. l.faults };

    ghost quiets = { λ l. l.quiets };

    ghost ends = { λ l. l.ends };

    fn pull(&mut self, buf: &mut [u8]) -> Pulled
        requires { 0 < length buf.old }
        ensures fits { PullFits result buf.new }
        ensures failed { HasCause self.old.faults self.new.faults (result ≡ Pulled.Failed) }
        ensures no_fault { StaysUnless self.old.faults self.new.faults (result ≡ Pulled.Failed) }
        ensures quiet { HasCause self.old.quiets self.new.quiets (result ≡ Pulled.Quiet) }
        ensures not_quiet { StaysUnless self.old.quiets self.new.quiets (result ≡ Pulled.Quiet) }
        ensures end { HasCause self.old.ends self.new.ends (result ≡ Pulled.End) }
        ensures no_end { StaysUnless self.old.ends self.new.ends (result ≡ Pulled.End) }

        // It is told what the stream answered to a try that no signal cut short.
        ensures told { IsPulledBy S.reads TRIES self.old.stream self.new.stream buf.new result }
    {
        let answer = read_some(&mut self.stream, buf);
        let told = pulled_of(&answer);
        match told {
            Pulled::Bytes(_) => {}
            Pulled::Quiet => raise(&mut self.quiets),
            Pulled::End => raise(&mut self.ends),
            Pulled::Failed => raise(&mut self.faults),
        }
        told
    }

    fn push(&mut self, bytes: &[u8]) -> Sent
        ensures failed { HasCause self.old.faults self.new.faults (result ≡ Sent.Failed) }
        ensures no_fault { StaysUnless self.old.faults self.new.faults (result ≡ Sent.Failed) }
        ensures quiet { self.new.quiets ≡ self.old.quiets }
        ensures end { self.new.ends ≡ self.old.ends }

        // The bytes are tried until all are taken or the stream takes no more, be it that it takes none in as many waits as may be.
        ensures told { IsPushedBy S.writes TRIES WAITS self.old.stream self.new.stream bytes.now result }
    {
        let told = write_all(&mut self.stream, bytes);
        if let Sent::Failed = told {
            raise(&mut self.faults);
        }
        told
    }

    fn waker(&self) -> Option<LinkWaker> {
        self.stream.waker()
    }
}
