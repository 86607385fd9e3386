// The system's TCP and UDP on 127.0.0.1.
ghost use Rattle.std.specs.Prelude.{⊤};

use crate::polled::{Pause, PolledStream};
use crate::system::{Datagrams, Listener, Network};
use std::alloc::Global;
use std::io::{self, ErrorKind};
use std::net::{self, Ipv4Addr, SocketAddr, TcpListener, TcpStream, UdpSocket};
use std::os::fd::OwnedFd;
use std::sync::Arc;
use std::time::Duration;

// How long a receive and an accept wait, in milliseconds.
const WAIT: u64 = 50;

// How long a send waits, in milliseconds.
const PATIENCE: u64 = 5_000;

fn after(milliseconds: u64) -> Option<Duration> {
    Some(Duration::from_millis(milliseconds))
}

fn at(port: u16) -> SocketAddr {
    SocketAddr::from((Ipv4Addr::LOCALHOST, port))
}

/// A socket of UDP, of which each handle is an owner of the one that the system gave.
#[derive(Drop)]
pub struct SharedSocket {
    socket: Arc<UdpSocket, Global>,
}

impl Datagrams for SharedSocket {
    ghost receives = { λ _ _ _ _. ⊤ };

    ghost sends = { λ _ _ _ _ _. ⊤ };

    ghost handles = { λ _ _. ⊤ };

    fn try_receive(&mut self, room: &mut [u8]) -> io::Result<usize> {
        self.socket.recv(room)
    }

    fn try_send(&mut self, datagram: &[u8], port: u16) -> io::Result<usize> {
        self.socket.send_to(datagram, at(port))
    }

    fn try_handle(&self) -> io::Result<SharedSocket> {
        match Arc::try_clone(&self.socket) {
            Ok(socket) => Ok(SharedSocket { socket }),
            Err(_) => Err(io::Error::from(ErrorKind::OutOfMemory)),
        }
    }
}

// A port of TCP, with what the streams that come there are made with.
#[derive(Drop)]
pub struct LoopbackListener<R> {
    rt: R,
    alloc: Global,
    listener: TcpListener,
    pause: Pause,
}

// The errors of Linux that say of one stream alone that it is not to be had now: no handle, no room, or a peer that is gone.
const ENFILE: i32 = 23;

const EMFILE: i32 = 24;

const ENOMEM: i32 = 12;

const ECONNABORTED: i32 = 103;

const ENOBUFS: i32 = 105;

// Whether later streams may be had where one gave this error.
fn passes(error: &io::Error) -> bool {
    match error.raw_os_error() {
        Some(code) => { [ENFILE, EMFILE, ENOMEM, ECONNABORTED, ENOBUFS].contains(&code) }
        None => error.kind() == ErrorKind::OutOfMemory,
    }
}

impl<R: net::Net> LoopbackListener<R> {
    fn next_stream(&mut self) -> io::Result<PolledStream> {
        let (stream, _) = self.listener.accept()?;
        PolledStream::new(&self.rt, self.alloc, stream)
    }
}

impl<R: net::Net> Listener for LoopbackListener<R> {
    type Stream = PolledStream;

    ghost accepts = { λ _ _ _. ⊤ };

    fn try_accept(&mut self) -> io::Result<PolledStream> {
        match self.next_stream() {
            Err(error) if passes(&error) => {
                self.pause.wait();
                Err(io::Error::from(ErrorKind::WouldBlock))
            }
            told => told,
        }
    }
}

// The time that a listener waits is set by the handle of a stream, since that of a listener has no call for it.
fn wait_shortly(listener: TcpListener) -> io::Result<TcpListener> {
    let handle = TcpStream::from(OwnedFd::from(listener));
    handle.set_read_timeout(after(WAIT))?;
    Ok(TcpListener::from(OwnedFd::from(handle)))
}

/// TCP and UDP on 127.0.0.1, by a handle of the network and with the memory in which links wait.
#[derive(Clone, Copy)]
pub struct Loopback<R> {
    rt: R,
    alloc: Global,
}

impl<R> Loopback<R> {
    /// By this handle, with memory from here.
    pub fn new(rt: R, alloc: Global) -> Loopback<R> {
        Loopback { rt, alloc }
    }
}

impl<R: net::Net<Listener = TcpListener, Stream = TcpStream> + Copy> Network for Loopback<R> {
    type Stream = PolledStream;

    type Listener = LoopbackListener<R>;

    type Socket = SharedSocket;

    ghost listens = { λ _ _ _. ⊤ };

    ghost binds = { λ _ _ _. ⊤ };

    fn try_listen(&self, port: u16) -> io::Result<LoopbackListener<R>> {
        let listener = wait_shortly(TcpListener::bind(&self.rt, at(port))?)?;
        Ok(LoopbackListener {
            rt: self.rt,
            alloc: self.alloc,
            listener,
            pause: Pause::new(&self.rt, self.alloc)?,
        })
    }

    fn try_bind(&self, port: u16) -> io::Result<SharedSocket> {
        let socket = UdpSocket::bind(&self.rt, at(port))?;
        socket.set_read_timeout(after(WAIT))?;
        socket.set_write_timeout(after(PATIENCE))?;
        match Arc::new(self.alloc, socket) {
            Ok(socket) => Ok(SharedSocket { socket }),
            Err(_) => Err(io::Error::from(ErrorKind::OutOfMemory)),
        }
    }
}
