// Links over TCP.
use crate::places::{at, control_port};
use crate::waits::{accepted, pulled};
use real_net::{Loopback, RealNet};
use std::io::{Read, Write};
use std::net::{Ipv4Addr, Net as Network, SocketAddr, TcpListener, TcpStream};
use std::process::Abort;
use std::test::Fail;
use sw_edge::{Accepted, Link, Net, Opened, Pulled, Sent};

// A link, and the client at its other end.
struct Ends<L> {
    link: L,
    client: TcpStream,
}

// Written out, so that the tests need not look into it.
impl<L: Drop> Drop for Ends<L> {
    fn drop(self) {
        let Self {
            link: _link,
            client: _client,
        } = self;
    }
}

impl<L: Drop> Ends<L> {
    // The link, whose client is gone.
    fn hang_up(self) -> L {
        let Self { link, client } = self;
        drop(client);
        link
    }
}

// Connects a client, whose link the net accepts.
fn connected<N: Net, R: Network<Listener = TcpListener, Stream = TcpStream>>(
    rt: &R,
    net: &mut N,
    control: u16,
) -> Result<Ends<N::Link>, Fail> {
    let client = TcpStream::connect(rt, at(control))?;
    let Accepted::Link(link) = accepted(net) else {
        return Err(Fail::new("no link was accepted"));
    };
    Ok(Ends { link, client })
}

fn fails_to_accept<N: Net>(net: &mut N) -> bool {
    matches!(net.accept(), Accepted::Failed)
}

fn is_quiet<N: Net>(net: &mut N) -> bool {
    matches!(net.accept(), Accepted::Quiet)
}

fn has_no_ports<N: Net>(net: &mut N) -> bool {
    matches!(net.ports(), Opened::Failed)
}

// Whether nobody listens at this port of another address of this machine.
fn is_closed_elsewhere<R: Network<Listener = TcpListener, Stream = TcpStream>>(
    rt: &R,
    control: u16,
) -> bool {
    let other = SocketAddr::from((Ipv4Addr::new(127, 0, 0, 2), control));
    TcpStream::connect(rt, other).is_err()
}

fn carry_in<R: Abort, L: Link>(rt: &R, link: &mut L, client: &mut TcpStream) -> Result<(), Fail> {
    let mut buf = [0; 8];
    assert!(rt;
        matches!(link.pull(&mut buf), Pulled::Quiet),
        "before bytes come"
    );
    client.write_all(b"to switch")?;
    assert!(rt; matches!(pulled(link, &mut buf), Pulled::Bytes(8)));
    assert!(rt; buf == *b"to switc");
    assert!(rt; matches!(pulled(link, &mut buf), Pulled::Bytes(1)));
    assert!(rt; buf[0] == b'h');
    Ok(())
}

fn carry_out<R: Abort, L: Link>(rt: &R, link: &mut L, client: &mut TcpStream) -> Result<(), Fail> {
    assert!(rt; matches!(link.push(b"from it"), Sent::All));
    let mut told = [0; 7];
    client.read_exact(&mut told)?;
    assert!(rt; told == *b"from it");
    Ok(())
}

fn end<R: Abort, L: Link>(rt: &R, link: &mut L) {
    let mut buf = [0; 8];
    assert!(rt; matches!(pulled(link, &mut buf), Pulled::End));
    assert!(rt; matches!(pulled(link, &mut buf), Pulled::End), "again");
}

fn carry_to_the_end<R: Abort, L: Link + Drop>(rt: &R, ends: Ends<L>) -> Result<(), Fail> {
    let mut ends = ends;
    carry_in(rt, &mut ends.link, &mut ends.client)?;
    carry_out(rt, &mut ends.link, &mut ends.client)?;
    let mut link = ends.hang_up();
    end(rt, &mut link);
    Ok(())
}

// Whether a push fails before so many bytes are taken that no system keeps them.
fn fails_when_full<L: Link>(link: &mut L) -> bool {
    for _ in 0..4096 {
        if let Sent::Failed = link.push(&[0; 65_536]) {
            return true;
        }
    }
    false
}

#[test]
fn a_link_is_accepted_and_carries_bytes_to_its_end(rt: HostRuntime) -> Result<(), Fail> {
    let control = control_port(&rt)?;
    let mut net = RealNet::new(Loopback::new(&rt, rt.alloc()));
    assert!(rt; fails_to_accept(&mut net), "before it listens");
    assert!(rt; matches!(net.listen(control, 0), Sent::All));
    assert!(rt; is_quiet(&mut net), "before a link comes");
    assert!(rt; is_closed_elsewhere(&rt, control), "at another address");
    let ends = connected(&rt, &mut net, control)?;
    carry_to_the_end(&rt, ends)?;
    assert!(rt; has_no_ports(&mut net), "without a port of packets");
    Ok(())
}

#[test]
fn a_port_that_is_in_use_is_refused(rt: HostRuntime) -> Result<(), Fail> {
    let control = control_port(&rt)?;
    let mut first = RealNet::new(Loopback::new(&rt, rt.alloc()));
    let mut second = RealNet::new(Loopback::new(&rt, rt.alloc()));
    assert!(rt; matches!(first.listen(control, 0), Sent::All));
    assert!(rt; matches!(second.listen(control, 0), Sent::Failed));
    assert!(rt; fails_to_accept(&mut second));
    assert!(rt;
        matches!(second.listen(0, 65_535), Sent::Failed),
        "no port above"
    );
    Ok(())
}

#[test]
fn a_push_to_a_peer_that_reads_nothing_fails(rt: HostRuntime) -> Result<(), Fail> {
    let control = control_port(&rt)?;
    let mut net = RealNet::new(Loopback::new(&rt, rt.alloc()));
    assert!(rt; matches!(net.listen(control, 0), Sent::All));
    let mut ends = connected(&rt, &mut net, control)?;
    assert!(rt; fails_when_full(&mut ends.link));
    drop(ends);
    Ok(())
}
