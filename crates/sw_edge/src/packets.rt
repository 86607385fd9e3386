// Packets in memory.
ghost use Rattle.std.specs.Prelude.{◌≡◌, ◌≤◌, ℕ, List, [], length, IfOk, vec_capacity};
ghost use Rattle.sw_edge.specs.declared.TheConstants.{MAX_OUTPUT, MAX_PACKET, MAX_PORT};

use crate::{MAX_OUTPUT, MAX_PACKET, MAX_PORT};
use std::alloc::{AllocError, Global};
use std::marker::Model;

/// A packet that comes in at a port of the switch.
#[derive(Drop)]
pub struct Arrival {
    port: u16,
    bytes: Vec<u8>,
}

impl Model for Arrival {
    ghost Value = { ℕ × List ℕ };

    ghost view = { λ a. (a.port, a.bytes.items) };

    ghost invariant = { λ a. (a.port ≤ MAX_PORT) × (length a.bytes.items ≤ MAX_PACKET) };
}

impl Arrival {
    /// A packet of at most 9,216 bytes that comes in at a port of 0 to 510.
    pub fn new(port: u16, bytes: Vec<u8>) -> Arrival
        requires port { port ≤ MAX_PORT }
        requires length { length bytes.items ≤ MAX_PACKET }
        ensures { result ≡ (port, bytes.items) }
    {
        Arrival { port, bytes }
    }

    /// The port at which the packet comes in, 0 to 510.
    pub fn port(&self) -> u16
        ensures is { result ≡ self.now.0 }
        ensures bound { result ≤ MAX_PORT }
    {
        self.port
    }

    /// The bytes of the packet, at most 9,216.
    pub fn bytes(&self) -> &[u8]
        ensures are { result.now ≡ self.now.1 }
        ensures bound { length result.now ≤ MAX_PACKET }
    {
        &self.bytes
    }
}

/// A packet that went out of a port.
#[derive(Drop)]
pub struct Departure {
    port: u16,
    bytes: Vec<u8>,
}

impl Model for Departure {
    ghost Value = { ℕ × List ℕ };

    ghost view = { λ d. (d.port, d.bytes.items) };
}

impl Departure {
    /// The port at which the packet leaves.
    pub fn port(&self) -> u16
        ensures { result ≡ self.now.0 }
    {
        self.port
    }

    /// The bytes of the packet, at most 10,240.
    pub fn bytes(&self) -> &[u8]
        ensures { result.now ≡ self.now.1 }
    {
        &self.bytes
    }
}

// Room for one packet that goes out.
#[derive(Drop)]
pub struct Blank {
    bytes: Vec<u8>,
    ghost empty: { bytes.items ≡ [] },
    ghost room: { MAX_OUTPUT ≤ vec_capacity bytes },
}

impl Blank {
    /// An output that has room for the longest packet, 10,240 bytes; refused for memory alone.
    pub fn new(alloc: Global) -> Result<Blank, AllocError> {
        Ok(Blank {
            bytes: Vec::with_capacity(alloc, MAX_OUTPUT)?,
        })
    }

    /// The packet of these bytes, at most 10,240, which leaves at this port.
    pub fn fill(self, port: u16, bytes: &[u8]) -> Departure
        requires { length bytes.now ≤ MAX_OUTPUT }
        ensures { result ≡ (port, bytes.now) }
    {
        let Blank { bytes: mut filled } = self;
        filled.extend_from_slice(bytes).unwrap();
        Departure {
            port,
            bytes: filled,
        }
    }
}
