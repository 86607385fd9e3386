// Packets over UDP.
use crate::places::{at, control_port, packet_port};
use crate::waits::taken;
use real_net::{Loopback, RealNet};
use std::io;
use std::net::{Net as Network, UdpSocket};
use std::process::Abort;
use std::test::Fail;
use std::time::Duration;
use sw_edge::{MAX_OUTPUT, MAX_PACKET, Net, Opened, Ports, Sent, Taken};

// From where packets are sent, and to which port.
struct Sender {
    socket: UdpSocket,
    to: u16,
}

// Written out, so that those who let one go need not look into it.
impl Drop for Sender {
    fn drop(self) {
        let Self {
            socket: _socket,
            to: _,
        } = self;
    }
}

impl Sender {
    fn open<R: Network>(rt: &R, to: u16) -> io::Result<Sender> {
        let socket = UdpSocket::bind(rt, at(0))?;
        Ok(Sender { socket, to })
    }

    fn send(&self, bytes: &[u8]) -> io::Result<()> {
        self.socket.send_to(bytes, at(self.to))?;
        Ok(())
    }
}

fn come_in<R: Abort, P: Ports>(rt: &R, ports: &mut P, sender: &Sender) -> Result<(), Fail> {
    let mut buf = [0; MAX_PACKET];
    assert!(rt;
        matches!(ports.take(&mut buf), Taken::Quiet),
        "before a packet comes"
    );
    sender.send(&[1, 254, 0xaa, 0xbb, 0xcc])?;
    assert!(rt; matches!(taken(ports, &mut buf), Taken::Packet { port: 510, len: 3 }));
    assert!(rt; buf[..3] == [0xaa, 0xbb, 0xcc]);
    sender.send(&[0, 7])?;
    assert!(rt; matches!(taken(ports, &mut buf), Taken::Packet { port: 7, len: 0 }));
    Ok(())
}

fn is_passed_over<P: Ports>(ports: &mut P, sender: &Sender, bytes: &[u8]) -> io::Result<bool> {
    let mut buf = [0; MAX_PACKET];
    sender.send(bytes)?;
    Ok(matches!(ports.take(&mut buf), Taken::Quiet))
}

// What is too short, and a packet at a port above the last.
fn pass_over<R: Abort, P: Ports>(rt: &R, ports: &mut P, sender: &Sender) -> Result<(), Fail> {
    for bytes in [&[1, 255, 0xaa][..], &[7], &[]] {
        assert!(rt; is_passed_over(ports, sender, bytes)?);
    }
    Ok(())
}

// The longest packet comes in, and what is longer is passed over.
fn come_in_at_length<R: Abort, P: Ports>(
    rt: &R,
    ports: &mut P,
    sender: &Sender,
) -> Result<(), Fail> {
    let mut buf = [0; MAX_PACKET];
    let long = [1; MAX_OUTPUT + 3];
    sender.send(&long[..2 + MAX_PACKET])?;
    assert!(rt;
        matches!(
            taken(ports, &mut buf),
            Taken::Packet {
                port: 257,
                len: 9_216
            }
        )
    );
    for len in [3 + MAX_PACKET, 3 + MAX_OUTPUT] {
        assert!(rt; is_passed_over(ports, sender, &long[..len])?, "{len} bytes");
    }
    Ok(())
}

fn go_out<R: Abort, P: Ports>(rt: &R, ports: &mut P, outputs: &UdpSocket) -> Result<(), Fail> {
    assert!(rt; matches!(ports.put(258, b"xyz"), Sent::All));
    let mut told = [0; 8];
    let (len, _) = outputs.recv_from(&mut told)?;
    assert!(rt; told[..len] == [1, 2, b'x', b'y', b'z']);
    let long = [1; MAX_OUTPUT + 1];
    assert!(rt; matches!(ports.put(1, &long), Sent::Failed));
    Ok(())
}

fn carry<N: Net, R: Network + Abort>(
    rt: &R,
    net: &mut N,
    packets: u16,
    outputs: &UdpSocket,
) -> Result<(), Fail> {
    let sender = Sender::open(rt, packets)?;
    let Opened::Ports(mut ports) = net.ports() else {
        return Err(Fail::new("no ports were opened"));
    };
    come_in(rt, &mut ports, &sender)?;
    pass_over(rt, &mut ports, &sender)?;
    come_in_at_length(rt, &mut ports, &sender)?;
    go_out(rt, &mut ports, outputs)
}

#[test]
fn packets_come_in_and_go_out_behind_their_ports(rt: HostRuntime) -> Result<(), Fail> {
    let (packets, outputs) = packet_port(&rt)?;
    outputs.set_read_timeout(Some(Duration::from_secs(5)))?;
    let control = control_port(&rt)?;
    let mut net = RealNet::new(Loopback::new(&rt, rt.alloc()));
    assert!(rt; matches!(net.listen(control, packets), Sent::All));
    carry(&rt, &mut net, packets, &outputs)?;
    Ok(())
}
