//! The records of a tape.
use crate::calls::Method;
use list_types::ByteList;

/// A controller's lane or a worker's.
#[derive(Clone, Copy)]
pub enum Who {
    /// Controller lanes are 0 to 31.
    Controller(u16),
    /// Worker lanes are 0 to 15.
    Worker(u16),
}

/// One record of a tape, the end record left out.
#[derive(Drop)]
pub enum TapeRecord {
    /// A call of a controller, with its protobuf message of at most 8 MiB.
    Call {
        lane: u16,
        method: Method,
        message: ByteList,
    },
    /// A packet of at most 9,216 bytes that a worker gets from a port, 0 to 510.
    Packet {
        lane: u16,
        port: u16,
        packet: ByteList,
    },
    /// The end of a controller's stream.
    Leave {
        lane: u16,
    },
    /// A worker waits here until this call, from 1, of this controller's lane, 0 to 31, is made; its packets behind see what the call changed.
    Meet {
        lane: u16,
        controller: u16,
        call: u32,
    },
}
