// Streams of the system's TCP, whose reads another thread can end.
ghost use Rattle.std.specs.Prelude.{⊤};
ghost use Rattle.std.specs.Io.{WritesAtMost};

use crate::attempts::WAITS;
use crate::system::Stream;
use mio::unix::SourceFd;
use mio::{Events, Interest, Poll, Token};
use std::alloc::Global;
use std::io::{self, ErrorKind, Read, Write};
use std::net::{Net, TcpStream};
use std::os::fd::AsRawFd;
use std::time::Duration;
use sw_edge::LinkWaker;

// How long a read waits, in milliseconds.
const WAIT: u64 = 50;

// How long all the waits together of a write of which the peer takes nothing are, in milliseconds.
const PATIENCE: u64 = 5_000;

// How long one write waits, in milliseconds.
const WRITE_WAIT: u64 = PATIENCE / WAITS as u64;

// How many events are taken at once: the stream's and the waker's.
const EVENTS: usize = 2;

const BYTES: Token = Token(0);

const WOKEN: Token = Token(1);

// Where a thread waits.
#[derive(Drop)]
pub struct Pause {
    poll: Poll,
    events: Events,
}

impl Pause {
    pub fn new<R: Net>(rt: &R, alloc: Global) -> io::Result<Pause> {
        let poll = Poll::new(rt)?;
        match Events::with_capacity(alloc, EVENTS) {
            Ok(events) => Ok(Pause { poll, events }),
            Err(_) => Err(io::Error::from(ErrorKind::OutOfMemory)),
        }
    }

    // Until something comes, but not longer than a read waits.
    fn wait_for_any(&mut self) -> io::Result<()> {
        self.poll
            .poll(&mut self.events, Some(Duration::from_millis(WAIT)))
    }

    pub fn wait(&mut self) {
        let _woken = self.wait_for_any();
    }

    // Where a read of the stream waits, which does not wait by itself then.
    fn of<R: Net>(rt: &R, alloc: Global, stream: &TcpStream) -> io::Result<Pause> {
        let pause = Pause::new(rt, alloc)?;
        let fd = stream.as_raw_fd();
        pause
            .poll
            .registry()
            .register(&mut SourceFd(&fd), BYTES, Interest::READABLE)?;
        stream.set_nonblocking(true)?;
        Ok(pause)
    }
}

// A stream over TCP. Where the system has nothing at which its reads could wait, they wait by themselves, and nobody ends that.
#[derive(Drop)]
pub struct PolledStream {
    stream: TcpStream,
    pause: Option<Pause>,
}

impl PolledStream {
    pub fn new<R: Net>(rt: &R, alloc: Global, stream: TcpStream) -> io::Result<PolledStream> {
        stream.set_nodelay(true)?;
        stream.set_read_timeout(Some(Duration::from_millis(WAIT)))?;
        stream.set_write_timeout(Some(Duration::from_millis(WRITE_WAIT)))?;
        let pause = Pause::of(rt, alloc, &stream).ok();
        Ok(PolledStream { stream, pause })
    }

    // Writes some of the bytes, and waits for the peer where it has no room for any.
    fn write_waiting(&mut self, bytes: &[u8]) -> io::Result<usize>
        ensures { WritesAtMost result bytes.now }
    {
        self.stream.set_nonblocking(false)?;
        let written = self.stream.write(bytes);
        self.stream.set_nonblocking(true)?;
        written
    }
}

fn would_wait<T>(answer: &io::Result<T>) -> bool {
    match answer {
        Ok(_) => false,
        Err(error) => error.kind() == ErrorKind::WouldBlock,
    }
}

impl Stream for PolledStream {
    ghost reads = { λ _ _ _. ⊤ };

    ghost writes = { λ _ _ _ _. ⊤ };

    fn try_read(&mut self, buf: &mut [u8]) -> io::Result<usize> {
        let told = self.stream.read(buf);
        let Some(pause) = &mut self.pause else {
            return told;
        };
        if !would_wait(&told) {
            return told;
        }
        pause.wait_for_any()?;
        self.stream.read(buf)
    }

    fn try_write(&mut self, bytes: &[u8]) -> io::Result<usize> {
        let told = self.stream.write(bytes);
        if self.pause.is_some() && would_wait(&told) {
            return self.write_waiting(bytes);
        }
        told
    }

    fn waker(&self) -> Option<LinkWaker> {
        match &self.pause {
            Some(pause) => LinkWaker::new(pause.poll.registry(), WOKEN).ok(),
            None => None,
        }
    }
}
