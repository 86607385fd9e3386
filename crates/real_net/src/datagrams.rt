// A packet in a datagram: its port in two bytes, the more significant one first, and then the packet's bytes.
ghost use Rattle.std.specs.Prelude.{◌≡◌, ◌+◌, ◌≤◌, ◌++◌, length, drop, MatchOption};
ghost use Rattle.sw_edge.specs.declared.TheConstants.{MAX_OUTPUT};
ghost use Rattle.real_net.specs.Datagrams.{Bears, BearsNone, datagram_of};

use sw_edge::{MAX_OUTPUT, MAX_PACKET, MAX_PORT};

// The bytes of the port.
const HEAD: usize = 2;

// The bytes of the longest datagram that is sent. One that comes in is cut to so many, and is still too long for a packet.
pub const LONGEST: usize = HEAD + MAX_OUTPUT;

/// The port and the packet of a datagram; nothing where it is too short or too long, and where the switch has no such port.
pub fn arrival_of(datagram: &[u8]) -> Option<(u16, &[u8])>
    ensures { MatchOption result (BearsNone datagram.now) (λ a. Bears datagram.now a.0 a.1.now) }
{
    if datagram.len() < HEAD {
        return None;
    }
    let port = u16::from_be_bytes([datagram[0], datagram[1]]);
    let packet = &datagram[HEAD..];
    if port > MAX_PORT || packet.len() > MAX_PACKET {
        return None;
    }
    Some((port, packet))
}

/// Writes a packet's datagram into the front of the room, and says how long it is.
pub fn write_datagram(room: &mut [u8], port: u16, packet: &[u8]) -> usize
    requires packet { length packet.now ≤ MAX_OUTPUT }
    requires room { length room.old ≡ 2 + MAX_OUTPUT }
    ensures length { result ≡ 2 + length packet.now }
    ensures written { room.new ≡ datagram_of port packet.now ++ drop result room.old }
{
    let end = HEAD + packet.len();
    room[..HEAD].copy_from_slice(&port.to_be_bytes());
    room[HEAD..end].copy_from_slice(packet);
    end
}
