//! Calls as controllers' lanes bring them, and what workers' lanes bring.
use list_types::ByteList;
use p4_types::calls::Method;

/// A call as its lane brings it.
#[derive(Drop)]
pub enum LaneCall {
    /// A message of this method.
    Asks { method: Method, message: ByteList },
    /// The end of the lane's stream.
    Leaves,
}

/// What stands on a tape for a worker's lane.
#[derive(Drop)]
pub enum WorkerItem {
    /// A packet of at most 9,216 bytes that it gets from a port, 0 to 510.
    Brings { port: u16, packet: ByteList },
    /// It waits until this call, from 1, of this controller's lane is made.
    Meets { controller: u16, call: u32 },
}
