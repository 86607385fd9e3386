// Ports in memory.
ghost use Rattle.std.specs.Prelude.{◌≡◌, ◌+◌, ◌<◌, ◌≤◌, ◌↔◌, ◌⊎◌, ◌∷◌, [], Some, length, take, drop, IfOk, IfNone, IfSome, IsTrue, vec_len, vec_capacity};
ghost use Rattle.sw_edge.specs.Answers.{PacketFits, TakesPacket, Puts};
ghost use Rattle.sw_edge.specs.Counts.{HasCause, StaysUnless};
ghost use Rattle.sw_edge.specs.Memory.{is_next, after_call};
ghost use Rattle.sw_edge.specs.MemoryNet.{IsNextQuiet, course, quiet_after, HeldPorts};

use crate::course::Course;
use crate::packets::{Arrival, Blank, Departure};
use crate::{MAX_OUTPUT, MAX_PACKET, MAX_PORT, Ports, Sent, Taken};
use std::alloc::{AllocError, Global};
use std::marker::Model;

/// Ports in memory, of which some calls fail: those whose index, from 0, is in a list. Of the takes that do
/// not fail, those whose index is in another list find nothing for now. A put past the room fails.
#[derive(Drop)]
pub struct MemoryPorts {
    arrivals: Vec<Arrival>,
    at: usize,
    departures: Vec<Departure>,
    blanks: Vec<Blank>,
    course: Course,
}

impl Model for MemoryPorts {
    ghost Value = { HeldPorts };

    ghost view = { λ p. record { left = drop p.at p.arrivals.items; sent = p.departures.items; room = vec_len p.blanks; course = p.course } };

    ghost invariant = { λ p. (p.at ≤ vec_len p.arrivals) × (vec_len p.departures + vec_len p.blanks ≤ vec_capacity p.departures) };
}

impl MemoryPorts {
    /// Ports that give these packets, and have room for `room` packets of at most 10,240 bytes.
    pub fn new(
        alloc: Global,
        arrivals: Vec<Arrival>,
        room: usize,
        failing: Vec<u64>,
        quiet: Vec<u64>,
    ) -> Result<MemoryPorts, AllocError>
        ensures left { IfOk result (λ p. p.left ≡ arrivals.items) }
        ensures sent { IfOk result (λ p. p.sent ≡ []) }
        ensures room { IfOk result (λ p. p.room ≡ room) }
        ensures course { IfOk result (λ p. p.course ≡ course failing.items quiet.items) }
    {
        Ok(MemoryPorts {
            arrivals,
            at: 0,
            departures: Vec::with_capacity(alloc, room)?,
            blanks: blanks(alloc, room)?,
            course: Course::new(failing, quiet),
        })
    }

    /// The packets that were put.
    pub fn sent(&self) -> &[Departure]
        ensures { result.now ≡ self.now.sent }
    {
        &self.departures
    }

    // The next packet, into the front of the buffer.
    fn next(&mut self, buf: &mut [u8]) -> Option<(u16, usize)>
        requires { MAX_PACKET ≤ length buf.old }
        ensures end { IfNone result ((self.old.left ≡ []) × (self.new ≡ self.old)) }
        ensures next { IfSome result (λ p. (self.old.left ≡ (p.0, take p.1 buf.new) ∷ self.new.left) × (self.new ≡ record self.old { left = self.new.left })) }
        ensures bound { IfSome result (λ p. (p.0 ≤ MAX_PORT) × (p.1 ≤ MAX_PACKET)) }
    {
        let arrival = self.arrivals.get(self.at)?;
        let bytes = arrival.bytes();
        let len = bytes.len();
        buf[..len].copy_from_slice(bytes);
        let port = arrival.port();
        self.at += 1;
        Some((port, len))
    }
}

fn blanks(alloc: Global, count: usize) -> Result<Vec<Blank>, AllocError>
    ensures { IfOk result (λ blanks. vec_len blanks ≡ count) }
{
    let mut blanks = Vec::new(alloc);
    for _ in 0..count {
        blanks.push(Blank::new(alloc)?)?;
    }
    Ok(blanks)
}

impl Ports for MemoryPorts {
    ghost left = { λ p. Some p.left };

    ghost sent = { λ p. Some p.sent };

    ghost faults = { λ p. p.course.faults };

    ghost quiets = { λ p. p.course.quiets };

    ghost ends = { λ p. p.course.ends };

    fn take(&mut self, buf: &mut [u8]) -> Taken
        requires { MAX_PACKET ≤ length buf.old }
        ensures fits { PacketFits result buf.new }
        ensures takes { TakesPacket (Some self.old.left) (Some self.new.left) result buf.new }
        ensures keeps_sent { self.new.sent ≡ self.old.sent }
        ensures failed { HasCause self.old.course.faults self.new.course.faults (result ≡ Taken.Failed) }
        ensures no_fault { StaysUnless self.old.course.faults self.new.course.faults (result ≡ Taken.Failed) }
        ensures quiet { HasCause self.old.course.quiets self.new.course.quiets (result ≡ Taken.Quiet) }
        ensures not_quiet { StaysUnless self.old.course.quiets self.new.course.quiets (result ≡ Taken.Quiet) }
        ensures end { HasCause self.old.course.ends self.new.course.ends (result ≡ Taken.End) }
        ensures no_end { StaysUnless self.old.course.ends self.new.course.ends (result ≡ Taken.End) }

        // It fails where it is told to, and nowhere else, and is quiet where it is told to be, and nowhere else.
        ensures picked { (result ≡ Taken.Failed) ↔ IsTrue (is_next self.old.course.failing) }
        ensures counted { self.new.course.failing ≡ after_call self.old.course.failing }
        ensures picked_quiet { (result ≡ Taken.Quiet) ↔ IsNextQuiet self.old.course }
        ensures counted_quiet { self.new.course.quiet ≡ quiet_after self.old.course }
        ensures room { self.new.room ≡ self.old.room }
    {
        if self.course.fails() {
            return Taken::Failed;
        }
        if self.course.is_quiet() {
            return Taken::Quiet;
        }
        match self.next(buf) {
            Some((port, len)) => Taken::Packet { port, len },
            None => {
                self.course.end();
                Taken::End
            }
        }
    }

    fn put(&mut self, port: u16, bytes: &[u8]) -> Sent
        ensures puts { Puts (Some self.old.sent) (Some self.new.sent) result port bytes.now }
        ensures keeps_left { self.new.left ≡ self.old.left }
        ensures failed { HasCause self.old.course.faults self.new.course.faults (result ≡ Sent.Failed) }
        ensures no_fault { StaysUnless self.old.course.faults self.new.course.faults (result ≡ Sent.Failed) }
        ensures quiet { self.new.course.quiets ≡ self.old.course.quiets }
        ensures end { self.new.course.ends ≡ self.old.course.ends }

        // It fails where it is told to, where there is no room, and where the packet is too long, and nowhere else.
        ensures full { (result ≡ Sent.Failed) ↔ (IsTrue (is_next self.old.course.failing) ⊎ (self.old.room ≡ 0) ⊎ (MAX_OUTPUT < length bytes.now)) }
        ensures counted { self.new.course.failing ≡ after_call self.old.course.failing }
        ensures quiet_kept { self.new.course.quiet ≡ self.old.course.quiet }
        ensures room_used { result ≡ Sent.All → self.new.room + 1 ≡ self.old.room }
        ensures room_kept { result ≡ Sent.Failed → self.new.room ≡ self.old.room }
    {
        if self.course.fails() {
            return Sent::Failed;
        }
        if bytes.len() > MAX_OUTPUT {
            self.course.fault();
            return Sent::Failed;
        }
        match self.blanks.pop() {
            Some(blank) => {
                self.departures.push_reserved(blank.fill(port, bytes));
                Sent::All
            }
            None => {
                self.course.fault();
                Sent::Failed
            }
        }
    }
}
