//! The list of what waits for one controller.
ghost use Rattle.std.specs.Prelude.{◌≡◌, ◌==◌, ◌≤◌, ◌++◌, ◌↔◌, [], ◌∷◌, length, drop, slice_get, IsErr, IfOk, IfErr, OnOk, OnErr};

use circular_buffer::HeapCircularBuffer;
use list_types::NoMemory;
use std::alloc::Global;
use std::marker::Model;

/// From so many items on no packet is taken.
pub const PACKET_LIMIT: usize = 192;

/// With so many items no notice is taken, which is all that an outbox has room for.
pub const NOTICE_LIMIT: usize = 256;

/// What waits for a controller, first in first out; a contract sees the list of its items. Packets
/// and digest lists leave room for notices. Its calls but `open` take no memory.
#[derive(Drop)]
pub struct Outbox<T> {
    waiting: HeapCircularBuffer<T>,
}

impl<T> Model for Outbox<T> {
    ghost use Rattle.std.specs.Prelude as spec;
    ghost use Rattle.std.specs.Prelude.{◌≡◌, ◌≤◌, length};
    ghost use Rattle.mail_room.specs.declared.outbox.TheConstants.{NOTICE_LIMIT};

    ghost Value = { spec.List T };

    ghost view = { λ outbox. outbox.waiting.items };

    ghost invariant = { λ outbox. (outbox.waiting.capacity ≡ NOTICE_LIMIT) × (length outbox.waiting.items ≤ NOTICE_LIMIT) };
}

impl<T> Outbox<T> {
    /// No item, with room for `NOTICE_LIMIT`.
    pub fn open(alloc: Global) -> Result<Outbox<T>, NoMemory>
        ensures { IfOk result (λ outbox. outbox ≡ []) }
    {
        let waiting = HeapCircularBuffer::with_capacity(alloc, NOTICE_LIMIT)?;
        Ok(Outbox { waiting })
    }

    /// How many items wait.
    pub fn len(&self) -> usize
        ensures len { result ≡ length self.now }
        ensures few { result ≤ NOTICE_LIMIT }
    {
        self.waiting.len()
    }

    /// Whether nothing waits to be sent to the controller.
    pub fn is_empty(&self) -> bool
        ensures { result ≡ (length self.now == 0) }
    {
        self.waiting.is_empty()
    }

    /// Adds a packet or a digest list at the end, or gives it back where `PACKET_LIMIT` items or more wait.
    pub fn put_packet(&mut self, item: T) -> Result<(), T>
        ensures refused { IsErr result ↔ (PACKET_LIMIT ≤ length self.old) }
        ensures put { OnOk result (self.new ≡ self.old ++ item ∷ []) }
        ensures kept { OnErr result (self.new ≡ self.old) }
        ensures given_back { IfErr result (λ back. back ≡ item) }
    {
        if self.waiting.len() >= PACKET_LIMIT {
            return Err(item);
        }
        self.waiting.try_push_back(item)
    }

    /// Adds a notice at the end, or gives it back where `NOTICE_LIMIT` items wait.
    pub fn put_notice(&mut self, item: T) -> Result<(), T>
        ensures refused { IsErr result ↔ (length self.old ≡ NOTICE_LIMIT) }
        ensures put { OnOk result (self.new ≡ self.old ++ item ∷ []) }
        ensures kept { OnErr result (self.new ≡ self.old) }
        ensures given_back { IfErr result (λ back. back ≡ item) }
    {
        self.waiting.try_push_back(item)
    }

    /// Takes the item that waits longest, if one waits.
    pub fn next(&mut self) -> Option<T>
        ensures oldest { result ≡ slice_get self.old 0 }
        ensures rest { self.new ≡ drop 1 self.old }
    {
        self.waiting.pop_front()
    }

    /// Drops every item, and takes no memory.
    pub fn clear(&mut self)
    where
        T: Drop,
        ensures { self.new ≡ [] }
    {
        self.waiting.clear();
    }
}
