// A link in memory.
ghost use Rattle.std.specs.Prelude.{◌≡◌, ◌+◌, ◌-◌, ◌<◌, ◌≤◌, ◌++◌, ◌↔◌, ◌⊎◌, ℕ, [], Some, false, length, take, IfOk, IsTrue};
ghost use Rattle.sw_edge.specs.Answers.{PullFits, Pulls, Sends};
ghost use Rattle.sw_edge.specs.Counts.{HasCause, StaysUnless};
ghost use Rattle.sw_edge.specs.Memory.{is_next, after_call, next_count};
ghost use Rattle.sw_edge.specs.MemoryNet.{IsNextQuiet, course, quiet_after, HeldLink};

use crate::course::Course;
use crate::held::{Pieces, Store};
use crate::{Link, Pulled, Sent};
use std::alloc::{AllocError, Global};
use std::marker::Model;

/// A link in memory, of which some calls fail: those whose index, from 0, is in a list. Of the pulls that do
/// not fail, those whose index is in another list find nothing for now. A push past the room fails and fills it.
#[derive(Drop)]
pub struct MemoryLink {
    unread: Pieces,
    written: Store,
    course: Course,
}

impl Model for MemoryLink {
    ghost Value = { HeldLink };

    ghost view = { λ l. record { unread = l.unread; written = l.written; course = l.course } };
}

impl MemoryLink {
    /// A link that gives these bytes, at most `piece` at a pull, and has room for `room` bytes.
    pub fn new(
        alloc: Global,
        bytes: Vec<u8>,
        piece: usize,
        room: usize,
        failing: Vec<u64>,
        quiet: Vec<u64>,
    ) -> Result<MemoryLink, AllocError>
        requires { 0 < piece }
        ensures left { IfOk result (λ l. l.unread ≡ record { left = bytes.items; piece = piece }) }
        ensures written { IfOk result (λ l. l.written ≡ record { sent = []; room = room }) }
        ensures course { IfOk result (λ l. l.course ≡ course failing.items quiet.items) }
    {
        Ok(MemoryLink {
            unread: Pieces::new(bytes, piece),
            written: Store::new(alloc, room)?,
            course: Course::new(failing, quiet),
        })
    }

    /// The bytes that were pushed.
    pub fn sent(&self) -> &[u8]
        ensures { result.now ≡ self.now.written.sent }
    {
        self.written.bytes()
    }
}

impl Link for MemoryLink {
    ghost left = { λ l. Some l.unread.left };

    ghost sent = { λ l. Some l.written.sent };

    ghost faults = { λ l. l.course.faults };

    ghost quiets = { λ l. l.course.quiets };

    ghost ends = { λ l. l.course.ends };

    fn pull(&mut self, buf: &mut [u8]) -> Pulled
        requires { 0 < length buf.old }
        ensures fits { PullFits result buf.new }
        ensures pulls { Pulls (Some self.old.unread.left) (Some self.new.unread.left) result buf.new }
        ensures keeps_sent { self.new.written ≡ self.old.written }
        ensures failed { HasCause self.old.course.faults self.new.course.faults (result ≡ Pulled.Failed) }
        ensures no_fault { StaysUnless self.old.course.faults self.new.course.faults (result ≡ Pulled.Failed) }
        ensures quiet { HasCause self.old.course.quiets self.new.course.quiets (result ≡ Pulled.Quiet) }
        ensures not_quiet { StaysUnless self.old.course.quiets self.new.course.quiets (result ≡ Pulled.Quiet) }
        ensures end { HasCause self.old.course.ends self.new.course.ends (result ≡ Pulled.End) }
        ensures no_end { StaysUnless self.old.course.ends self.new.course.ends (result ≡ Pulled.End) }

        // It fails where it is told to, and nowhere else, and is quiet where it is told to be, and nowhere else.
        ensures picked { (result ≡ Pulled.Failed) ↔ IsTrue (is_next self.old.course.failing) }
        ensures counted { self.new.course.failing ≡ after_call self.old.course.failing }
        ensures picked_quiet { (result ≡ Pulled.Quiet) ↔ IsNextQuiet self.old.course }
        ensures counted_quiet { self.new.course.quiet ≡ quiet_after self.old.course }
        ensures in_pieces { (n : ℕ) → result ≡ Pulled.Bytes n → n ≡ next_count self.old.unread (length buf.new) }
        ensures piece { self.new.unread.piece ≡ self.old.unread.piece }
    {
        if self.course.fails() {
            return Pulled::Failed;
        }
        if self.course.is_quiet() {
            return Pulled::Quiet;
        }
        match self.unread.read_into(buf) {
            0 => {
                self.course.end();
                Pulled::End
            }
            n => Pulled::Bytes(n),
        }
    }

    fn push(&mut self, bytes: &[u8]) -> Sent
        ensures sends { Sends (Some self.old.written.sent) (Some self.new.written.sent) result bytes.now }
        ensures keeps_left { self.new.unread ≡ self.old.unread }
        ensures failed { HasCause self.old.course.faults self.new.course.faults (result ≡ Sent.Failed) }
        ensures no_fault { StaysUnless self.old.course.faults self.new.course.faults (result ≡ Sent.Failed) }
        ensures quiet { self.new.course.quiets ≡ self.old.course.quiets }
        ensures end { self.new.course.ends ≡ self.old.course.ends }

        // It fails where it is told to and where there is no room, and nowhere else.
        ensures picked { IsTrue (is_next self.old.course.failing) → (result ≡ Sent.Failed) × (self.new.written ≡ self.old.written) }
        ensures filled { is_next self.old.course.failing ≡ false → self.new.written.sent ≡ self.old.written.sent ++ take (self.old.written.room - length self.old.written.sent) bytes.now }
        ensures full { (result ≡ Sent.Failed) ↔ (IsTrue (is_next self.old.course.failing) ⊎ (self.old.written.room < length self.old.written.sent + length bytes.now)) }
        ensures counted { self.new.course.failing ≡ after_call self.old.course.failing }
        ensures quiet_kept { self.new.course.quiet ≡ self.old.course.quiet }
        ensures room { self.new.written.room ≡ self.old.written.room }
    {
        if self.course.fails() {
            return Sent::Failed;
        }
        let answer = self.written.add(bytes);
        if let Sent::Failed = answer {
            self.course.fault();
        }
        answer
    }
}
