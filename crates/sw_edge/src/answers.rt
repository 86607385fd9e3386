// The answers of the calls to the outside.

/// The answer of a read: some bytes, the end of what there is, or a fault.
#[derive(Clone, Copy)]
pub enum Got {
    Bytes(usize),
    End,
    Failed,
}

/// The answer of a pull from a link: some bytes, none for now, the end of the link, or a fault.
#[derive(Clone, Copy)]
pub enum Pulled {
    Bytes(usize),
    Quiet,
    End,
    Failed,
}

/// The answer of a take from the ports: a packet, none for now, the end of the ports, or a fault.
#[derive(Clone, Copy)]
pub enum Taken {
    Packet { port: u16, len: usize },
    Quiet,
    End,
    Failed,
}

/// The answer of a call that hands something over: it was done, or there was a fault.
#[derive(Clone, Copy)]
pub enum Sent {
    All,
    Failed,
}

/// The answer of a wait for a link: one, none for now, the end of the net, or a fault.
#[derive(Drop)]
pub enum Accepted<L> {
    Link(L),
    Quiet,
    End,
    Failed,
}

/// The answer of a call for ports: they are open, or there was a fault.
#[derive(Drop)]
pub enum Opened<P> {
    Ports(P),
    Failed,
}
