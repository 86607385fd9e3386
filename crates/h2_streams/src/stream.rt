//! A stream, and what waits on it.
ghost use Rattle.std.specs.Prelude.{◌≡◌, ◌+◌, ◌-◌, ◌≤◌, ◌<◌, ◌^◌, [], ◌∷◌, ◌++◌, length, take, drop, slice_get, true, false, OnOk, IsErr, Ok, Err};
ghost use Rattle.h2_streams.specs.Streams.{window_of, is_too_wide, spent, granted, received, ended_by_peer, reset, queued, opened, max_window};

use list_types::{ByteList, NoMemory};
use std::alloc::Global;
use std::collections::VecDeque;
use std::marker::Model;

/// Bytes that wait, of which a front may have been sent; a contract sees what is left.
#[derive(Drop)]
pub struct Message {
    bytes: ByteList,
    sent: usize,
}

impl Model for Message {
    ghost use Rattle.std.specs.Prelude.{List, ℕ, drop, length, ◌≤◌};

    ghost Value = { List ℕ };

    ghost view = { λ message. drop message.sent message.bytes };

    ghost invariant = { λ message. message.sent ≤ length message.bytes };
}

impl Message {
    /// A message of which nothing was sent. It takes no memory.
    pub fn new(bytes: ByteList) -> Message
        ensures { result ≡ bytes }
    {
        Message { bytes, sent: 0 }
    }

    /// How many bytes are left.
    pub fn len(&self) -> usize
        ensures { result ≡ length self.now }
    {
        self.bytes.len() - self.sent
    }

    /// The first of the bytes that are left.
    pub fn front(&self, count: usize) -> &[u8]
        requires { count ≤ length self.now }
        ensures { result.now ≡ take count self.now }
    {
        let left = &self.bytes.as_slice()[self.sent..];
        &left[..count]
    }

    /// So many bytes more of the message were sent.
    pub fn advance(&mut self, count: usize)
        requires { count ≤ length self.old }
        ensures { self.new ≡ drop count self.old }
    {
        self.sent = self.bytes.len() - (self.len() - count);
    }
}

/// What waits on a stream: a message, or a header block.
#[derive(Drop)]
pub enum Waiting {
    Data(Message),
    Headers { block: ByteList, end_stream: bool },
}

/// What waits on a stream, first in first out; a contract sees the list.
#[derive(Drop)]
pub struct Queue {
    items: VecDeque<Waiting>,
}

impl Model for Queue {
    ghost use Rattle.std.specs.Prelude as spec;
    ghost use Rattle.h2_streams.specs.declared.stream.Waiting.{Waiting};

    ghost Value = { spec.List Waiting };

    ghost view = { λ queue. queue.items.items };
}

impl Queue {
    /// Nothing waits. It takes no memory.
    pub fn new(alloc: Global) -> Queue
        ensures { result ≡ [] }
    {
        Queue {
            items: VecDeque::new(alloc),
        }
    }

    /// How many messages and header blocks wait to be sent on the stream.
    pub fn len(&self) -> usize
        ensures { result ≡ length self.now }
    {
        self.items.len()
    }

    /// Adds at the end.
    pub fn push(&mut self, waiting: Waiting) -> Result<(), NoMemory>
        ensures { OnOk result (self.new ≡ self.old ++ waiting ∷ []) }
    {
        self.items.push_back(waiting)?;
        Ok(())
    }

    /// Puts back what was taken from the front.
    pub fn put_back(&mut self, waiting: Waiting) -> Result<(), NoMemory>
        ensures { OnOk result (self.new ≡ waiting ∷ self.old) }
    {
        self.items.push_front(waiting)?;
        Ok(())
    }

    /// Takes what waits longest.
    pub fn next(&mut self) -> Option<Waiting>
        ensures first { result ≡ slice_get self.old 0 }
        ensures rest { self.new ≡ drop 1 self.old }
    {
        self.items.pop_front()
    }
}

/// A stream that the peer opened (RFC 9113, section 5.1).
#[derive(Drop)]
pub struct Stream {
    /// A number of 31 bits.
    pub number: u32,
    /// The peer sent END_STREAM or RST_STREAM.
    pub peer_ended: bool,
    /// END_STREAM or RST_STREAM was sent.
    pub ended: bool,
    /// END_STREAM was sent, or waits, or RST_STREAM was sent.
    pub closing: bool,
    /// How many bytes of DATA the peer may still send.
    pub receive_window: u32,
    /// Bytes that the peer gave beyond the initial size, and that were not sent.
    pub credit: u32,
    /// Bytes that were sent of the initial size.
    pub debt: u32,
    pub waiting: Queue,
}

impl Stream {
    /// A stream of which nothing has come yet.
    pub fn open(alloc: Global, number: u32, peer_ended: bool, ended: bool) -> Stream
        ensures { result ≡ opened number peer_ended ended }
    {
        Stream {
            number,
            peer_ended,
            ended,
            closing: ended,
            receive_window: 65_535,
            credit: 0,
            debt: 0,
            waiting: Queue::new(alloc),
        }
    }

    /// The window for what is sent, in bytes; 0 where it is negative.
    pub fn window(&self, initial: u32) -> u64
        ensures { result ≡ window_of initial self.now }
    {
        (u64::from(initial) + u64::from(self.credit)).saturating_sub(u64::from(self.debt))
    }

    /// The window is above 2^31 - 1 bytes.
    pub fn is_too_wide(&self, initial: u32) -> bool
        ensures { result ≡ is_too_wide initial self.now }
    {
        let debt = u64::from(self.debt);
        u64::from(initial) + u64::from(self.credit) > 0x7fff_ffff + debt
    }

    /// So many bytes are sent.
    pub fn spend(&mut self, initial: u32, count: u32)
        requires { count ≤ window_of initial self.old }
        ensures { self.new ≡ spent count self.old }
    {
        let beyond = count.saturating_sub(self.credit);
        self.credit = self.credit.saturating_sub(count);
        self.debt += beyond;
    }

    /// With so many bytes more the window is above 2^31 - 1 bytes.
    pub fn is_too_wide_with(&self, initial: u32, count: u32) -> bool
        ensures { result ≡ is_too_wide initial (granted count self.now) }
    {
        let debt = u64::from(self.debt);
        u64::from(initial) + u64::from(self.credit) + u64::from(count) > 0x7fff_ffff + debt
    }

    /// The peer gives so many bytes more.
    pub fn grant(&mut self, initial: u32, count: u32)
        requires { is_too_wide initial (granted count self.old) ≡ false }
        ensures { self.new ≡ granted count self.old }
    {
        let _initial = initial;
        let beyond = count.saturating_sub(self.debt);
        self.debt = self.debt.saturating_sub(count);
        self.credit += beyond;
    }

    /// A DATA frame of so many bytes, padding and all, came. Where no side has ended the stream, the
    /// peer is given as many again, so its window stays.
    pub fn receive(&mut self, count: u32, end_stream: bool)
        ensures { self.new ≡ received count end_stream self.old }
    {
        self.peer_ended = end_stream;
        if end_stream || self.ended {
            self.receive_window = self.receive_window.saturating_sub(count);
        }
    }

    /// The peer ends the stream where the flag says so.
    pub fn end_by_peer(&mut self, end_stream: bool)
        ensures { self.new ≡ ended_by_peer end_stream self.old }
    {
        self.peer_ended = end_stream;
    }

    /// Both sides end the stream.
    pub fn reset(&mut self)
        ensures { self.new ≡ reset self.old }
    {
        self.peer_ended = true;
        self.ended = true;
    }

    /// This waits from now on; this side ends the stream with it where the flag says so.
    pub fn queue(&mut self, waiting: Waiting, end_stream: bool) -> Result<(), NoMemory>
        ensures { OnOk result (self.new ≡ queued waiting end_stream self.old) }
    {
        self.waiting.push(waiting)?;
        self.closing = end_stream;
        Ok(())
    }
}
