// Ports over a socket of datagrams.
ghost use Rattle.std.specs.Prelude.{◌≡◌, ◌+◌, ◌-◌, ◌<◌, ◌≤◌, ◌≢◌, None, Ok, length, IfOk};
ghost use Rattle.sw_edge.specs.Answers.{PacketFits, TakesPacket, Puts};
ghost use Rattle.sw_edge.specs.Counts.{HasCause, StaysUnless};
ghost use Rattle.sw_edge.specs.declared.TheConstants.{MAX_OUTPUT, MAX_PACKET};
ghost use Rattle.real_net.specs.Attempts.{IsTriedBy, given};
ghost use Rattle.real_net.specs.Datagrams.{datagram_of};
ghost use Rattle.real_net.specs.Packets.{HeldPorts, TakeTells, IsTakenBy, IsPutBy};

use crate::attempts::{TRIES, Trouble, judged};
use crate::count::raise;
use crate::datagrams::{LONGEST, arrival_of, write_datagram};
use crate::system::Datagrams;
use std::marker::Model;
use sw_edge::{MAX_OUTPUT, MAX_PACKET, Ports, Sent, Taken};

/// Ports over a socket of datagrams, as of UDP, which tell what the socket tells and no content. A datagram is the port in
/// two bytes, the more significant one first, and the packet. A take that waits longer than the socket lets it
/// (50 milliseconds over UDP) is Quiet. A datagram that is too short, too long or of a port above 510 is passed over as
/// Quiet. What is put is sent to one port of the socket's network. There is no end.
#[derive(Drop)]
pub struct RealPorts<D> {
    socket: D,
    outputs: u16,
    room: [u8; LONGEST],
    faults: u64,
    quiets: u64,
}

impl<D> Model for RealPorts<D> {
    ghost Value = { HeldPorts D };

    ghost view = { λ p. record { socket = p.socket; outputs = p.outputs; faults = p.faults; quiets = p.quiets } };
}

impl<D> RealPorts<D> {
    /// Ports whose outputs are sent to this port.
    pub fn new(socket: D, outputs: u16) -> RealPorts<D>
        ensures { result ≡ record { socket = socket; outputs = outputs; faults = 0; quiets = 0 } }
    {
        RealPorts {
            socket,
            outputs,
            room: [0; LONGEST],
            faults: 0,
            quiets: 0,
        }
    }
}

// Receives until no signal cuts the receive short.
#[tactic(auto, using(crate::proofs::TryLaws::cut_more))]
fn receive_some<D: Datagrams>(socket: &mut D, room: &mut [u8]) -> Result<usize, Trouble>
    ensures bound { IfOk result (λ count. count ≤ length room.new) }
    ensures told { IsTriedBy (D.receives (length room.old)) TRIES socket.old socket.new (given result room.new) }
{
    for _ in 0..TRIES {
        match judged(socket.try_receive(room)) {
            Err(Trouble::CutShort) => {}
            told => return told,
        }
    }
    Err(Trouble::CutShort)
}

// Sends a datagram until no signal cuts the send short.
#[tactic(auto, using(crate::proofs::TryLaws::cut_more))]
fn send_some<D: Datagrams>(socket: &mut D, datagram: &[u8], port: u16) -> Result<usize, Trouble>
    ensures { IsTriedBy (D.sends datagram.now port) TRIES socket.old socket.new result }
{
    for _ in 0..TRIES {
        match judged(socket.try_send(datagram, port)) {
            Err(Trouble::CutShort) => {}
            told => return told,
        }
    }
    Err(Trouble::CutShort)
}

// What a take tells of a datagram; the packet goes into the front of the buffer.
fn taken_of(datagram: &[u8], buf: &mut [u8]) -> Taken
    requires { MAX_PACKET ≤ length buf.old }
    ensures fits { PacketFits result buf.new }
    ensures tells { TakeTells (Ok datagram.now) result buf.new }
{
    match arrival_of(datagram) {
        Some((port, packet)) => {
            let len = packet.len();
            buf[..len].copy_from_slice(packet);
            Taken::Packet { port, len }
        }
        None => Taken::Quiet,
    }
}

impl<D: Datagrams> RealPorts<D> {
    // The next datagram's packet, if any, into the front of the buffer.
    fn next(&mut self, buf: &mut [u8]) -> Taken
        requires { MAX_PACKET ≤ length buf.old }
        ensures fits { PacketFits result buf.new }
        ensures told { IsTakenBy (D.receives (2 + MAX_OUTPUT)) TRIES self.old.socket self.new.socket buf.new result }
        ensures kept { self.new ≡ record self.old { socket = self.new.socket } }
    {
        match receive_some(&mut self.socket, &mut self.room) {
            Ok(count) => taken_of(&self.room[..count], buf),
            Err(Trouble::TimedOut) => Taken::Quiet,
            Err(_) => Taken::Failed,
        }
    }

    // Sends the packet's datagram, and says whether it was sent whole.
    fn send(&mut self, port: u16, packet: &[u8]) -> Sent
        requires { length packet.now ≤ MAX_OUTPUT }
        ensures told { IsPutBy (D.sends (datagram_of port packet.now) self.old.outputs) TRIES self.old.socket self.new.socket (datagram_of port packet.now) result }
        ensures kept { self.new ≡ record self.old { socket = self.new.socket } }
    {
        let len = write_datagram(&mut self.room, port, packet);
        match send_some(&mut self.socket, &self.room[..len], self.outputs) {
            Ok(count) if count == len => Sent::All,
            _ => Sent::Failed,
        }
    }
}

impl<D: Datagrams> Ports for RealPorts<D> {
    ghost left = { λ _. None };

    ghost sent = { λ _. None };

    ghost faults = { λ p. p.faults };

    ghost quiets = { λ p. p.quiets };

    ghost ends = { λ _. 0 };

    fn take(&mut self, buf: &mut [u8]) -> Taken
        requires { MAX_PACKET ≤ length buf.old }
        ensures fits { PacketFits result buf.new }
        ensures failed { HasCause self.old.faults self.new.faults (result ≡ Taken.Failed) }
        ensures no_fault { StaysUnless self.old.faults self.new.faults (result ≡ Taken.Failed) }
        ensures quiet { HasCause self.old.quiets self.new.quiets (result ≡ Taken.Quiet) }
        ensures not_quiet { StaysUnless self.old.quiets self.new.quiets (result ≡ Taken.Quiet) }
        ensures no_end { result ≢ Taken.End }

        // It is told what the datagram bears that came, where there was room for the longest that is sent.
        ensures told { IsTakenBy (D.receives (2 + MAX_OUTPUT)) TRIES self.old.socket self.new.socket buf.new result }
        ensures outputs { self.new.outputs ≡ self.old.outputs }
    {
        let told = self.next(buf);
        match told {
            Taken::Quiet => raise(&mut self.quiets),
            Taken::Failed => raise(&mut self.faults),
            Taken::Packet { .. } | Taken::End => {}
        }
        told
    }

    fn put(&mut self, port: u16, bytes: &[u8]) -> Sent
        ensures failed { HasCause self.old.faults self.new.faults (result ≡ Sent.Failed) }
        ensures no_fault { StaysUnless self.old.faults self.new.faults (result ≡ Sent.Failed) }
        ensures quiet { self.new.quiets ≡ self.old.quiets }

        // A packet that is too long is not sent.
        ensures too_long { MAX_OUTPUT < length bytes.now → (result ≡ Sent.Failed) × (self.new.socket ≡ self.old.socket) }

        // Any other is sent in one datagram, behind its port.
        ensures told { length bytes.now ≤ MAX_OUTPUT → IsPutBy (D.sends (datagram_of port bytes.now) self.old.outputs) TRIES self.old.socket self.new.socket (datagram_of port bytes.now) result }
        ensures outputs { self.new.outputs ≡ self.old.outputs }
    {
        let told = if bytes.len() > MAX_OUTPUT {
            Sent::Failed
        } else {
            self.send(port, bytes)
        };
        if let Sent::Failed = told {
            raise(&mut self.faults);
        }
        told
    }
}
