// Bytes in memory that are read from the front, and room in memory that is filled.
ghost use Rattle.std.specs.Prelude.{◌≡◌, ◌+◌, ◌-◌, ◌<◌, ◌≤◌, ◌++◌, ◌↔◌, [], length, take, drop, IfOk, vec_capacity};
ghost use Rattle.sw_edge.specs.Memory.{Unread, Written, next_count};

use crate::Sent;
use std::alloc::{AllocError, Global};
use std::marker::Model;

// Bytes that are read in pieces of at most a length.
#[derive(Drop)]
pub struct Pieces {
    bytes: Vec<u8>,
    at: usize,
    piece: usize,
}

impl Model for Pieces {
    ghost Value = { Unread };

    ghost view = { λ p. record { left = drop p.at p.bytes.items; piece = p.piece } };

    ghost invariant = { λ p. (p.at ≤ length p.bytes.items) × (0 < p.piece) };
}

impl Pieces {
    /// These bytes, read in pieces of at most so many.
    pub fn new(bytes: Vec<u8>, piece: usize) -> Pieces
        requires { 0 < piece }
        ensures { result ≡ record { left = bytes.items; piece = piece } }
    {
        Pieces {
            bytes,
            at: 0,
            piece,
        }
    }

    /// Moves the next bytes into the front of the buffer, as many as it takes and the piece allows, and says how many; 0 is the end.
    pub fn read_into(&mut self, buf: &mut [u8]) -> usize
        requires { 0 < length buf.old }
        ensures fits { result ≤ length buf.new }
        ensures count { result ≡ next_count self.old (length buf.new) }
        ensures taken { self.old.left ≡ take result buf.new ++ self.new.left }
        ensures end { result ≡ 0 → self.old.left ≡ [] }
        ensures piece { (result ≤ self.old.piece) × (self.new.piece ≡ self.old.piece) }
    {
        let left = self.bytes.len() - self.at;
        let n = left.min(buf.len()).min(self.piece);
        let end = self.at + n;
        buf[..n].copy_from_slice(&self.bytes[self.at..end]);
        self.at = end;
        n
    }
}

// Bytes that were written into room that was made before.
#[derive(Drop)]
pub struct Store {
    bytes: Vec<u8>,
    room: usize,
}

impl Model for Store {
    ghost Value = { Written };

    ghost view = { λ s. record { sent = s.bytes.items; room = s.room } };

    ghost invariant = { λ s. (length s.bytes.items ≤ s.room) × (s.room ≤ vec_capacity s.bytes) };
}

impl Store {
    /// A store with room for so many bytes; refused for memory alone.
    pub fn new(alloc: Global, room: usize) -> Result<Store, AllocError>
        ensures { IfOk result (λ s. s ≡ record { sent = []; room = room }) }
    {
        Ok(Store {
            bytes: Vec::with_capacity(alloc, room)?,
            room,
        })
    }

    /// The bytes that were added, in order.
    pub fn bytes(&self) -> &[u8]
        ensures { result.now ≡ self.now.sent }
    {
        &self.bytes
    }

    /// How many bytes there is still room for.
    pub fn left(&self) -> usize
        ensures is { result ≡ self.now.room - length self.now.sent }
        ensures all { length self.now.sent + result ≡ self.now.room }
    {
        self.room - self.bytes.len()
    }

    /// Adds the bytes, or as many as there is room for.
    pub fn add(&mut self, bytes: &[u8]) -> Sent
        ensures added { self.new.sent ≡ self.old.sent ++ take (self.old.room - length self.old.sent) bytes.now }
        ensures full { (result ≡ Sent.Failed) ↔ (self.old.room < length self.old.sent + length bytes.now) }
        ensures room { self.new.room ≡ self.old.room }
    {
        let left = self.room - self.bytes.len();
        let n = left.min(bytes.len());
        self.bytes.extend_from_slice(&bytes[..n]).unwrap();
        if n < bytes.len() {
            Sent::Failed
        } else {
            Sent::All
        }
    }
}
