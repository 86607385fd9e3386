//! A connection.
ghost use Rattle.std.specs.Prelude.{◌≡◌, ◌≤◌, ◌<◌, ◌++◌, [], length, take, None, OnOk, OnErr, IfOk, IsErr};
ghost use Rattle.h2_streams.specs.declared.stream.Waiting.TheVariants as waitings;
ghost use Rattle.h2_conn.specs.Bytes.{with_goaway, run, code_of, opening, output_of, without_output, Feeds, AreQuietToLast, FeedsSome};
ghost use Rattle.h2_conn.specs.Sends.{sent, headers_sent, data_sent};
ghost use Rattle.h2_conn.specs.Frames.{greeting};
ghost use Rattle.h2_conn.specs.declared.phase.Phase.TheVariants as phases;

use crate::breach::Breach;
use crate::event::H2Event;
use crate::phase::Phase;
use crate::pieces::{advance, count_of};
use crate::receiver::Receiver;
use crate::state::State;
use h2_frames::{Frame, H2Code, Setting, write_goaway};
use h2_streams::{Message, Waiting};
use hpack_tables::{Header, encode};
use list_types::{ByteList, List, NoMemory, Refusal};
use std::alloc::Global;
use std::marker::Model;

// How many streams the peer may have open.
const MAX_CONCURRENT_STREAMS: u32 = 100;

fn greet(alloc: Global, conn: &mut State) -> Result<(), NoMemory>
    ensures { OnOk result (conn.new ≡ greeting conn.old) }
{
    let mut settings = List::new(alloc);
    settings.push(Setting {
        identifier: Setting::MAX_CONCURRENT_STREAMS,
        value: MAX_CONCURRENT_STREAMS,
    })?;
    let frame = Frame::Settings {
        ack: false,
        settings,
    };
    conn.outgoing.send_frame(alloc, &frame)
}

// A connection that a breach ends.
fn ended(alloc: Global, conn: Receiver, breach: Breach) -> Result<Phase, NoMemory>
    ensures { IfOk result (λ phase. phase ≡ phases.Broken breach.code (with_goaway breach conn.outgoing.output)) }
{
    let mut conn = conn;
    let mut output = conn.take_output(alloc);
    let code = breach.code;
    write_goaway(alloc, breach.last_stream, code.number(), &mut output)?;
    Ok(Phase::Broken { code, output })
}

fn feed_open(
    alloc: Global,
    conn: Receiver,
    piece: &[u8],
) -> Result<(Phase, List<H2Event>), NoMemory>
    ensures { IfOk result (λ x. (x.0, x.1) ≡ run (phases.Open conn) piece.now) }
{
    let mut conn = conn;
    let mut events = List::new(alloc);
    match advance(alloc, &mut conn, &mut events, piece) {
        Ok(()) => Ok((Phase::Open(conn), events)),
        Err(Refusal::NoMemory) => Err(NoMemory),
        Err(Refusal::For(breach)) => Ok((ended(alloc, conn, breach)?, events)),
    }
}

fn code_of(phase: &Phase) -> Option<H2Code>
    ensures { result ≡ code_of phase.now }
{
    match phase {
        Phase::Broken { code, .. } => Some(*code),
        Phase::Open(_) | Phase::OutOfMemory => None,
    }
}

/// The connection of a server. A contract sees whether it goes on, and what it is. Where there is no
/// memory for a call, the connection is lost: each later call finds none either. One that a breach has
/// ended asks for no memory. What it keeps has limits (`laws::always_bounded`), and what is to be sent
/// grows only by the bytes that come and by what it is given to send (`laws::output_bounded`).
pub struct Conn {
    phase: Phase,
}

impl Model for Conn {
    ghost use Rattle.h2_conn.specs.declared.phase.Phase.{Phase};

    ghost Value = { Phase };

    ghost view = { λ conn. conn.phase };
}

// Written out, so that those who let one go need not look into it.
impl Drop for Conn {
    fn drop(self) {
        let Self { phase: _phase } = self;
    }
}

impl Conn {
    /// A connection of which nothing has come. SETTINGS are to be sent, with 100 streams at most.
    pub fn new(alloc: Global) -> Result<Conn, NoMemory>
        ensures { IfOk result (λ conn. conn ≡ opening) }
    {
        let mut state = State::new(alloc);
        greet(alloc, &mut state)?;
        Ok(Conn {
            phase: Phase::Open(Receiver::new(state)),
        })
    }

    /// The next bytes of the peer: the events of all bytes so far less those given before, however
    /// the bytes are cut, and the code of the first breach of a connection rule. After a breach the
    /// code is answered again, and no event; GOAWAY is the last of what is to be sent. A frame that is
    /// whole in a piece is read where it stands, and one that comes in pieces is gathered. So a payload
    /// is copied once: into its event or the header block, or where it is gathered, which then becomes
    /// the event or the block. CONTINUATION that comes in pieces is gathered in the block itself.
    pub fn feed(
        &mut self,
        alloc: Global,
        piece: &[u8],
    ) -> Result<(List<H2Event>, Option<H2Code>), NoMemory>
        ensures { Feeds result self.old self.new piece.now }
    {
        match std::mem::replace(&mut self.phase, Phase::OutOfMemory) {
            Phase::Open(conn) => {
                let (phase, events) = feed_open(alloc, conn, piece)?;
                let code = code_of(&phase);
                self.phase = phase;
                Ok((events, code))
            }
            Phase::Broken { code, output } => {
                self.phase = Phase::Broken { code, output };
                Ok((List::new(alloc), Some(code)))
            }
            Phase::OutOfMemory => Err(NoMemory),
        }
    }

    // How many of the next bytes are read together: a frame at most, and all behind a breach.
    fn count(&self, piece: &[u8]) -> usize
        ensures within { (result ≤ length piece.now) × (0 < length piece.now → 0 < result) }
        ensures quiet { AreQuietToLast self.now (take result piece.now) }
    {
        if piece.is_empty() {
            return 0;
        }
        match &self.phase {
            Phase::Open(conn) => count_of(conn, piece),
            Phase::Broken { .. } | Phase::OutOfMemory => piece.len(),
        }
    }

    /// The same of the first bytes of a piece alone, and how many these are: not more than a frame, and one at
    /// least where there is one. None of them but the last gives an event or anything to send. So what each
    /// byte causes may be taken and sent before a later byte is read, without a call for each byte.
    pub fn feed_some(
        &mut self,
        alloc: Global,
        piece: &[u8],
    ) -> Result<(usize, List<H2Event>, Option<H2Code>), NoMemory>
        ensures { FeedsSome result self.old self.new piece.now }
    {
        let used = self.count(piece);
        let (front, _) = piece.split_at(used);
        let (events, code) = self.feed(alloc, front)?;
        Ok((used, events, code))
    }

    fn send(
        &mut self,
        alloc: Global,
        stream: u32,
        waiting: Waiting,
        end_stream: bool,
    ) -> Result<(), NoMemory>
        ensures ok { OnOk result (self.new ≡ sent stream waiting end_stream self.old) }
        ensures found { OnOk result (¬ (self.old ≡ phases.OutOfMemory)) }
        ensures err { OnErr result (self.new ≡ phases.OutOfMemory) }
        ensures goes_on { OnErr result (code_of self.old ≡ None) }
    {
        match std::mem::replace(&mut self.phase, Phase::OutOfMemory) {
            Phase::Open(conn) => {
                let next = conn.queue(alloc, stream, waiting, end_stream)?;
                self.phase = Phase::Open(next);
                Ok(())
            }
            Phase::Broken { code, output } => {
                self.phase = Phase::Broken { code, output };
                Ok(())
            }
            Phase::OutOfMemory => Err(NoMemory),
        }
    }

    /// Sends headers on a stream, or trailers, behind the data that waits there; this side ends the
    /// stream with them where the flag says so. On a stream that was reset, or that this side has
    /// ended, nothing is sent, nor after a breach.
    pub fn send_headers(
        &mut self,
        alloc: Global,
        stream: u32,
        headers: &[Header],
        end_stream: bool,
    ) -> Result<(), NoMemory>
        ensures ok { OnOk result (self.new ≡ headers_sent stream headers.now end_stream self.old) }
        ensures found { OnOk result (¬ (self.old ≡ phases.OutOfMemory)) }
        ensures err { OnErr result (self.new ≡ phases.OutOfMemory) }
        ensures goes_on { OnErr result (code_of self.old ≡ None) }
    {
        if let Phase::Broken { .. } = &self.phase {
            return Ok(());
        }
        let Ok(block) = encode(alloc, headers) else {
            self.phase = Phase::OutOfMemory;
            return Err(NoMemory);
        };
        self.send(
            alloc,
            stream,
            Waiting::Headers { block, end_stream },
            end_stream,
        )
    }

    /// Sends a message on a stream, as far as the windows allow; the rest waits. No bytes send no
    /// frame. The bytes are copied once. On a stream that was reset, or that this side has ended,
    /// nothing is sent, nor after a breach.
    pub fn send_data(&mut self, alloc: Global, stream: u32, bytes: ByteList) -> Result<(), NoMemory>
        ensures ok { OnOk result (self.new ≡ data_sent stream bytes self.old) }
        ensures found { OnOk result (¬ (self.old ≡ phases.OutOfMemory)) }
        ensures err { OnErr result (self.new ≡ phases.OutOfMemory) }
        ensures goes_on { OnErr result (code_of self.old ≡ None) }
    {
        self.send(alloc, stream, Waiting::Data(Message::new(bytes)), false)
    }

    /// Takes the bytes that are to be sent. They are kept until then, so they should be taken behind
    /// each call.
    pub fn take_output(&mut self, alloc: Global) -> ByteList
        ensures taken { result ≡ output_of self.old }
        ensures left { self.new ≡ without_output self.old }
    {
        match &mut self.phase {
            Phase::Open(conn) => conn.take_output(alloc),
            Phase::Broken { output, .. } => std::mem::replace(output, ByteList::new(alloc)),
            Phase::OutOfMemory => ByteList::new(alloc),
        }
    }
}
