// The sockets of the system, one try at a time. Which answers a try may give is a relation that stays open where tries
// are made of any socket: a proof there has an answer only from a try that was made.
ghost use Rattle.std.specs.Prelude.{◌≡◌, ℕ, List, Bool, length, Result};
ghost use Rattle.std.specs.Io.{ReadsAtMost, WritesAtMost};
ghost use Rattle.std.specs.declared.io.Error.{Error};
ghost use Rattle.real_net.specs.Attempts.{given};

use std::io;
use sw_edge::LinkWaker;

// A stream of bytes in both directions, of which single reads and writes are tried.
pub trait Stream {
    // The bytes that a read may give, and what the stream is then.
    ghost reads: { Self → Result (List ℕ) Error → Self → Type 0 };

    // How many of these bytes a write may take, and what the stream is then.
    ghost writes: { List ℕ → Self → Result ℕ Error → Self → Type 0 };

    fn try_read(&mut self, buf: &mut [u8]) -> io::Result<usize>
        ensures bound { ReadsAtMost result buf.new }
        ensures answer { reads self.old (given result buf.new) self.new };

    fn try_write(&mut self, bytes: &[u8]) -> io::Result<usize>
        ensures bound { WritesAtMost result bytes.now }
        ensures answer { writes bytes.now self.old result self.new };

    // What ends the wait of a read from another thread, where there is such a thing.
    fn waker(&self) -> Option<LinkWaker> {
        None
    }
}

// A socket of datagrams, of which single ones are tried to be received and sent.
pub trait Datagrams: Sized {
    // The datagram that may be received where there is room for so many bytes, cut to these, and what the socket is then.
    ghost receives: { ℕ → Self → Result (List ℕ) Error → Self → Type 0 };

    // How many bytes of this datagram may be sent to this port, and what the socket is then.
    ghost sends: { List ℕ → ℕ → Self → Result ℕ Error → Self → Type 0 };

    // Which other handle of the same socket may be given.
    ghost handles: { Self → Result Self Error → Type 0 };

    fn try_receive(&mut self, room: &mut [u8]) -> io::Result<usize>
        ensures bound { ReadsAtMost result room.new }
        ensures answer { receives (length room.new) self.old (given result room.new) self.new };

    fn try_send(&mut self, datagram: &[u8], port: u16) -> io::Result<usize>
        ensures bound { WritesAtMost result datagram.now }
        ensures answer { sends datagram.now port self.old result self.new };

    fn try_handle(&self) -> io::Result<Self>
        ensures { handles self.now result };
}

// A port at which streams arrive, of which single ones are tried to be taken.
pub trait Listener {
    type Stream: Drop;

    // Which stream may be given, and what the listener is then.
    ghost accepts: { Self → Result Self.Stream Error → Self → Type 0 };

    fn try_accept(&mut self) -> io::Result<Self::Stream>
        ensures { accepts self.old result self.new };
}

// A network, of which a listener and a socket are asked.
pub trait Network {
    type Stream: Stream + Drop;

    type Listener: Listener<Stream = Self::Stream> + Drop;

    type Socket: Datagrams + Drop;

    // Which listener may be given at this port.
    ghost listens: { ℕ → Self → Result Self.Listener Error → Type 0 };

    // Which socket of datagrams may be given at this port.
    ghost binds: { ℕ → Self → Result Self.Socket Error → Type 0 };

    fn try_listen(&self, port: u16) -> io::Result<Self::Listener>
        ensures { listens port self.now result };

    fn try_bind(&self, port: u16) -> io::Result<Self::Socket>
        ensures { binds port self.now result };
}

// A flag that may change at any time.
pub trait Signal {
    // What a look at it may show.
    ghost shows: { Self → Bool → Type 0 };

    fn is_set(&self) -> bool
        ensures { shows self.now result };
}
