//! Bytes that stay in the buffer of their payload.
ghost use Rattle.std.specs.Prelude.{◌≡◌, ◌==◌, ◌≤◌, ◌++◌, length, take, drop, OnOk, OnErr};

use list_types::ByteList;
use std::alloc::AllocError;
use std::marker::Model;

/// Bytes of a payload, which stay where they are in its buffer, behind the fields that were read of it. A contract sees the
/// bytes.
#[derive(Drop)]
pub struct Fragment {
    buffer: ByteList,
    start: usize,
}

impl Model for Fragment {
    ghost use Rattle.std.specs.Prelude.{List, ℕ, ◌≤◌, length, drop};

    ghost Value = { List ℕ };

    ghost view = { λ fragment. drop fragment.start fragment.buffer };

    ghost invariant = { λ fragment. fragment.start ≤ length fragment.buffer };
}

impl Fragment {
    /// All bytes of a buffer, which are not copied.
    pub fn whole(buffer: ByteList) -> Fragment
        ensures { result ≡ buffer }
    {
        Fragment { buffer, start: 0 }
    }

    /// The bytes that are left, in order.
    pub fn as_slice(&self) -> &[u8]
        ensures { result.now ≡ self.now }
    {
        &self.buffer.as_slice()[self.start..]
    }

    /// How many bytes are left.
    pub fn len(&self) -> usize
        ensures { result ≡ length self.now }
    {
        self.buffer.len() - self.start
    }

    /// Whether no byte is left.
    pub fn is_empty(&self) -> bool
        ensures { result ≡ (length self.now == 0) }
    {
        self.len() == 0
    }

    /// Passes over bytes at the front.
    pub(crate) fn advance(&mut self, count: usize)
        requires { count ≤ length self.old }
        ensures { self.new ≡ drop count self.old }
    {
        let rest = self.len() - count;
        self.start = self.buffer.len() - rest;
    }

    /// So many of the bytes, from the front on.
    pub(crate) fn truncated(self, count: usize) -> Fragment
        requires { count ≤ length self }
        ensures { result ≡ take count self }
    {
        let mut bytes = self.buffer.into_vec();
        bytes.truncate(self.start + count);
        Fragment {
            buffer: ByteList::from_vec(bytes),
            start: self.start,
        }
    }

    /// Adds bytes at the end; without memory for all of them it adds none.
    pub fn extend_from_slice(&mut self, bytes: &[u8]) -> Result<(), AllocError>
        ensures ok { OnOk result (self.new ≡ self.old ++ bytes.now) }
        ensures err { OnErr result (self.new ≡ self.old) }
    {
        self.buffer.extend_from_slice(bytes)
    }
}
