// Ports of 127.0.0.1 that the system had free.
use std::io::{self, ErrorKind};
use std::net::{Ipv4Addr, Net, SocketAddr, TcpListener, TcpStream, UdpSocket};

// How often ports are looked for.
const LOOKS: u32 = 100;

pub(crate) fn at(port: u16) -> SocketAddr {
    SocketAddr::from((Ipv4Addr::LOCALHOST, port))
}

/// A port at which nobody listens.
pub(crate) fn control_port<R: Net<Listener = TcpListener, Stream = TcpStream>>(
    rt: &R,
) -> io::Result<u16> {
    let listener = TcpListener::bind(rt, at(0))?;
    Ok(listener.local_addr()?.port())
}

/// A port at which no datagrams are received, and a socket at the port above it.
pub(crate) fn packet_port<R: Net>(rt: &R) -> io::Result<(u16, UdpSocket)> {
    for _ in 0..LOOKS {
        let socket = UdpSocket::bind(rt, at(0))?;
        let port = socket.local_addr()?.port();
        if let Some(above) = port.checked_add(1) {
            if let Ok(outputs) = UdpSocket::bind(rt, at(above)) {
                return Ok((port, outputs));
            }
        }
    }
    Err(io::Error::from(ErrorKind::AddrInUse))
}
