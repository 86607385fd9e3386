// A source and a sink in memory.
ghost use Rattle.std.specs.Prelude.{◌≡◌, ◌+◌, ◌<◌, ◌-◌, ◌*◌, ◌^◌, ◌++◌, ◌↔◌, ◌⊎◌, ℕ, [], Some, length, min, take, IfOk, IsTrue};
ghost use Rattle.sw_edge.specs.Answers.{Fits, Takes, Sends};
ghost use Rattle.sw_edge.specs.Counts.{HasCause, StaysUnless, one_more_if};
ghost use Rattle.sw_edge.specs.Memory.{HeldSource, HeldSink, picks, is_next, after_call, after_calls, unpicked, fitting, next_count};

use crate::count::{Picks, raise};
use crate::held::{Pieces, Store};
use crate::{Got, Sent, Sink, Source};
use std::alloc::{AllocError, Global};
use std::marker::Model;

/// Bytes in memory, of which some reads fail: those whose index, from 0, is in a list.
#[derive(Drop)]
pub struct MemorySource {
    unread: Pieces,
    failing: Picks,
    faults: u64,
    ends: u64,
}

impl Model for MemorySource {
    ghost Value = { HeldSource };

    ghost view = { λ s. record { unread = s.unread; failing = s.failing; faults = s.faults; ends = s.ends } };
}

impl MemorySource {
    /// These bytes, as many at a read as the buffer takes.
    pub fn new(bytes: Vec<u8>, failing: Vec<u64>) -> MemorySource
        ensures left { result.unread ≡ record { left = bytes.items; piece = 2 ^ 64 - 1 } }
        ensures failing { result.failing ≡ picks failing.items }
        ensures faults { result.faults ≡ 0 }
        ensures ends { result.ends ≡ 0 }
    {
        MemorySource::in_pieces(bytes, usize::MAX, failing)
    }

    /// These bytes, at most `piece` of them at a read.
    pub fn in_pieces(bytes: Vec<u8>, piece: usize, failing: Vec<u64>) -> MemorySource
        requires { 0 < piece }
        ensures left { result.unread ≡ record { left = bytes.items; piece = piece } }
        ensures failing { result.failing ≡ picks failing.items }
        ensures faults { result.faults ≡ 0 }
        ensures ends { result.ends ≡ 0 }
    {
        MemorySource {
            unread: Pieces::new(bytes, piece),
            failing: Picks::new(failing),
            faults: 0,
            ends: 0,
        }
    }
}

impl Source for MemorySource {
    ghost left = { λ s. Some s.unread.left };

    ghost faults = { λ s. s.faults };

    ghost ends = { λ s. s.ends };

    fn read(&mut self, buf: &mut [u8]) -> Got
        requires { 0 < length buf.old }
        ensures fits { Fits result buf.new }
        ensures takes { Takes (Some self.old.unread.left) (Some self.new.unread.left) result buf.new }
        ensures failed { HasCause self.old.faults self.new.faults (result ≡ Got.Failed) }
        ensures no_fault { StaysUnless self.old.faults self.new.faults (result ≡ Got.Failed) }
        ensures end { HasCause self.old.ends self.new.ends (result ≡ Got.End) }
        ensures no_end { StaysUnless self.old.ends self.new.ends (result ≡ Got.End) }

        // It fails where it is told to, and nowhere else.
        ensures picked { (result ≡ Got.Failed) ↔ IsTrue (is_next self.old.failing) }
        ensures counted { self.new.failing ≡ after_call self.old.failing }
        ensures faults { self.new.faults ≡ one_more_if (is_next self.old.failing) self.old.faults }
        ensures in_pieces { (n : ℕ) → result ≡ Got.Bytes n → n ≡ next_count self.old.unread (length buf.new) }
        ensures piece { self.new.unread.piece ≡ self.old.unread.piece }
    {
        if self.failing.call() {
            raise(&mut self.faults);
            return Got::Failed;
        }
        match self.unread.read_into(buf) {
            0 => {
                raise(&mut self.ends);
                Got::End
            }
            n => Got::Bytes(n),
        }
    }
}

// The most bytes of a piece of a write.
const PIECE: usize = 64;

/// Room in memory that is written to. A write makes pieces of at most 64 bytes, none where it has no byte. Pieces whose
/// index, from 0 over all writes, is in a list fail, and a write with one of these adds the bytes before it alone. A write past
/// the room fails and fills the room. No piece behind the one that failed is counted.
#[derive(Drop)]
pub struct MemorySink {
    written: Store,
    failing: Picks,
    faults: u64,
}

impl Model for MemorySink {
    ghost Value = { HeldSink };

    ghost view = { λ s. record { written = s.written; failing = s.failing; faults = s.faults } };
}

// The bytes of so many pieces, or all of the bytes.
fn first_pieces(bytes: &[u8], pieces: usize) -> &[u8]
    ensures { result.now ≡ take (64 * pieces) bytes.now }
{
    if pieces <= bytes.len() / PIECE {
        &bytes[..PIECE * pieces]
    } else {
        bytes
    }
}

impl MemorySink {
    /// Room for this many bytes.
    pub fn new(alloc: Global, room: usize, failing: Vec<u64>) -> Result<MemorySink, AllocError>
        ensures written { IfOk result (λ s. s.written ≡ record { sent = []; room = room }) }
        ensures failing { IfOk result (λ s. s.failing ≡ picks failing.items) }
        ensures faults { IfOk result (λ s. s.faults ≡ 0) }
    {
        Ok(MemorySink {
            written: Store::new(alloc, room)?,
            failing: Picks::new(failing),
            faults: 0,
        })
    }

    /// The bytes that were written.
    pub fn sent(&self) -> &[u8]
        ensures { result.now ≡ self.now.written.sent }
    {
        self.written.bytes()
    }
}

impl Sink for MemorySink {
    ghost sent = { λ s. Some s.written.sent };

    ghost faults = { λ s. s.faults };

    #[tactic(auto, using(crate::proofs::PieceLaws::pieces))]
    fn write(&mut self, bytes: &[u8]) -> Sent
        ensures sends { Sends (Some self.old.written.sent) (Some self.new.written.sent) result bytes.now }
        ensures failed { HasCause self.old.faults self.new.faults (result ≡ Sent.Failed) }
        ensures no_fault { StaysUnless self.old.faults self.new.faults (result ≡ Sent.Failed) }

        // Of the pieces up to the first that does not fit, those before the first that is picked are added.
        ensures added { let left = self.old.written.room - length self.old.written.sent in let tried = fitting (length bytes.now) left in self.new.written.sent ≡ self.old.written.sent ++ take left (take (64 * unpicked tried self.old.failing) bytes.now) }

        // It fails where one of them is picked and where there is no room, and nowhere else.
        ensures full { let tried = fitting (length bytes.now) (self.old.written.room - length self.old.written.sent) in (result ≡ Sent.Failed) ↔ ((unpicked tried self.old.failing < tried) ⊎ (self.old.written.room < length self.old.written.sent + length bytes.now)) }
        ensures counted { let tried = fitting (length bytes.now) (self.old.written.room - length self.old.written.sent) in self.new.failing ≡ after_calls (min (unpicked tried self.old.failing + 1) tried) self.old.failing }
        ensures room { self.new.written.room ≡ self.old.written.room }
    {
        let tried = bytes
            .len()
            .div_ceil(PIECE)
            .min(self.written.left() / PIECE + 1);
        let whole = self.failing.call_until(tried);
        match self.written.add(first_pieces(bytes, whole)) {
            Sent::All if whole == tried => Sent::All,
            _ => {
                raise(&mut self.faults);
                Sent::Failed
            }
        }
    }
}
