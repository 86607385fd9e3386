//! How the service of ports ends.

/// How the service of ports ended.
#[derive(Clone, Copy)]
pub enum PortsEnd {
    /// The ports met their end.
    Closed,
    /// The ports failed. Of what the packets made leave, some first was put.
    Fault,
    /// It was asked to stop.
    Stopped,
    /// There was no memory, and no packet was taken.
    Memory,
}
