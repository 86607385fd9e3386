// Connections of controllers and the ports of the switch.
ghost use Rattle.std.specs.Prelude.{◌≡◌, ◌<◌, ◌≤◌, ℕ, List, Option, length};
ghost use Rattle.sw_edge.specs.Answers.{PullFits, Pulls, Sends, PacketFits, TakesPacket, Puts};
ghost use Rattle.sw_edge.specs.Counts.{HasCause, StaysUnless};
ghost use Rattle.sw_edge.specs.Told.{Keeps};

use crate::{Accepted, LinkWaker, MAX_PACKET, Opened, Pulled, Sent, Taken};

/// One connection of a controller. No call takes memory. `pull` and `push` may wait; a real link owns what waiting needs,
/// so no call is handed it.
pub trait Link {
    /// The bytes that are left to pull, where the link tells them.
    ghost left: { Self → Option (List ℕ) };

    /// The bytes that were pushed, where the link tells them.
    ghost sent: { Self → Option (List ℕ) };

    /// How often the link has failed; it stays at 2^64 - 1.
    ghost faults: { Self → ℕ };

    /// How often a pull found no bytes for now; it stays at 2^64 - 1.
    ghost quiets: { Self → ℕ };

    /// How often a pull met the end of the link; it stays at 2^64 - 1.
    ghost ends: { Self → ℕ };

    /// Reads at least one byte into the front of the buffer. It may wait for a short while.
    fn pull(&mut self, buf: &mut [u8]) -> Pulled
        requires { 0 < length buf.old }
        ensures fits { PullFits result buf.new }
        ensures pulls { Pulls (left self.old) (left self.new) result buf.new }
        ensures keeps_sent { Keeps (sent self.old) (sent self.new) }
        ensures failed { HasCause (faults self.old) (faults self.new) (result ≡ Pulled.Failed) }
        ensures no_fault { StaysUnless (faults self.old) (faults self.new) (result ≡ Pulled.Failed) }
        ensures quiet { HasCause (quiets self.old) (quiets self.new) (result ≡ Pulled.Quiet) }
        ensures not_quiet { StaysUnless (quiets self.old) (quiets self.new) (result ≡ Pulled.Quiet) }
        ensures end { HasCause (ends self.old) (ends self.new) (result ≡ Pulled.End) }
        ensures no_end { StaysUnless (ends self.old) (ends self.new) (result ≡ Pulled.End) };

    /// Hands over all of the bytes. After a fault some first of them may have been handed over.
    fn push(&mut self, bytes: &[u8]) -> Sent
        ensures sends { Sends (sent self.old) (sent self.new) result bytes.now }
        ensures keeps_left { Keeps (left self.old) (left self.new) }
        ensures failed { HasCause (faults self.old) (faults self.new) (result ≡ Sent.Failed) }
        ensures no_fault { StaysUnless (faults self.old) (faults self.new) (result ≡ Sent.Failed) }
        ensures quiet { quiets self.new ≡ quiets self.old }
        ensures end { ends self.new ≡ ends self.old };

    /// What ends the wait of a pull from another thread, where the link has such a thing: the pull then finds no bytes for now, unless
    /// some have come.
    fn waker(&self) -> Option<LinkWaker> {
        None
    }
}

/// The ports of the switch: packets come in and go out. No call takes memory. `take` and `put` may wait; real ports own
/// what waiting needs.
pub trait Ports {
    /// The packets that are left to take, each behind its port, where the ports tell them.
    ghost left: { Self → Option (List (ℕ × List ℕ)) };

    /// The packets that were put, each behind its port, where the ports tell them.
    ghost sent: { Self → Option (List (ℕ × List ℕ)) };

    /// How often the ports have failed; it stays at 2^64 - 1.
    ghost faults: { Self → ℕ };

    /// How often a take found no packet for now; it stays at 2^64 - 1.
    ghost quiets: { Self → ℕ };

    /// How often a take met the end of the ports; it stays at 2^64 - 1.
    ghost ends: { Self → ℕ };

    /// Reads one packet into the front of the buffer. It may wait for a short while.
    fn take(&mut self, buf: &mut [u8]) -> Taken
        requires { MAX_PACKET ≤ length buf.old }
        ensures fits { PacketFits result buf.new }
        ensures takes { TakesPacket (left self.old) (left self.new) result buf.new }
        ensures keeps_sent { Keeps (sent self.old) (sent self.new) }
        ensures failed { HasCause (faults self.old) (faults self.new) (result ≡ Taken.Failed) }
        ensures no_fault { StaysUnless (faults self.old) (faults self.new) (result ≡ Taken.Failed) }
        ensures quiet { HasCause (quiets self.old) (quiets self.new) (result ≡ Taken.Quiet) }
        ensures not_quiet { StaysUnless (quiets self.old) (quiets self.new) (result ≡ Taken.Quiet) }
        ensures end { HasCause (ends self.old) (ends self.new) (result ≡ Taken.End) }
        ensures no_end { StaysUnless (ends self.old) (ends self.new) (result ≡ Taken.End) };

    /// Sends one packet out of a port. After a fault nothing was sent.
    fn put(&mut self, port: u16, bytes: &[u8]) -> Sent
        ensures puts { Puts (sent self.old) (sent self.new) result port bytes.now }
        ensures keeps_left { Keeps (left self.old) (left self.new) }
        ensures failed { HasCause (faults self.old) (faults self.new) (result ≡ Sent.Failed) }
        ensures no_fault { StaysUnless (faults self.old) (faults self.new) (result ≡ Sent.Failed) }
        ensures quiet { quiets self.new ≡ quiets self.old }
        ensures end { ends self.new ≡ ends self.old };
}

/// Where links and ports come from. No call takes memory. `accept` may wait; a real net owns what waiting needs.
pub trait Net {
    type Link: Link + Send + Drop;

    type Ports: Ports + Send + Drop;

    /// How often the net has failed; it stays at 2^64 - 1.
    ghost faults: { Self → ℕ };

    /// How often an accept found no link for now; it stays at 2^64 - 1.
    ghost quiets: { Self → ℕ };

    /// How often an accept met the end of the net; it stays at 2^64 - 1.
    ghost ends: { Self → ℕ };

    /// Opens the port of the controllers and the one of the packets.
    fn listen(&mut self, control: u16, packets: u16) -> Sent
        ensures failed { HasCause (faults self.old) (faults self.new) (result ≡ Sent.Failed) }
        ensures no_fault { StaysUnless (faults self.old) (faults self.new) (result ≡ Sent.Failed) }
        ensures quiet { quiets self.new ≡ quiets self.old }
        ensures end { ends self.new ≡ ends self.old };

    /// Waits for the next link.
    fn accept(&mut self) -> Accepted<Self::Link>
        ensures failed { HasCause (faults self.old) (faults self.new) (result ≡ Accepted.Failed) }
        ensures no_fault { StaysUnless (faults self.old) (faults self.new) (result ≡ Accepted.Failed) }
        ensures quiet { HasCause (quiets self.old) (quiets self.new) (result ≡ Accepted.Quiet) }
        ensures not_quiet { StaysUnless (quiets self.old) (quiets self.new) (result ≡ Accepted.Quiet) }
        ensures end { HasCause (ends self.old) (ends self.new) (result ≡ Accepted.End) }
        ensures no_end { StaysUnless (ends self.old) (ends self.new) (result ≡ Accepted.End) };

    /// The ports for one worker.
    fn ports(&mut self) -> Opened<Self::Ports>
        ensures failed { HasCause (faults self.old) (faults self.new) (result ≡ Opened.Failed) }
        ensures no_fault { StaysUnless (faults self.old) (faults self.new) (result ≡ Opened.Failed) }
        ensures quiet { quiets self.new ≡ quiets self.old }
        ensures end { ends self.new ≡ ends self.old };
}
