// What the links and the ports of one test share.
use std::alloc::{AllocError, Global};
use std::sync::atomic::{AtomicBool, AtomicU64, AtomicUsize, Ordering};
use std::sync::{Mutex, Wait};

/// How often a link or ports are quiet before they go on by themselves.
pub const PATIENCE: u64 = 10_000_000;

/// What links were sent, and how many bytes that is.
pub struct Place {
    sent: Mutex<Vec<u8>>,
    length: AtomicUsize,
}

// Written out, as that of a stage is, so that the tests need not look into it.
impl Drop for Place {
    fn drop(self) {
        let Self {
            sent: _sent,
            length: _length,
        } = self;
    }
}

impl Place {
    fn new(alloc: Global) -> Place {
        Place {
            sent: Mutex::new(Vec::new(alloc)),
            length: AtomicUsize::new(0),
        }
    }

    /// How many bytes were sent.
    pub fn length(&self) -> usize {
        self.length.load(Ordering::SeqCst)
    }

    /// Notes bytes that were sent.
    pub fn note<W: Wait>(&self, rt: &W, bytes: &[u8]) -> Result<(), AllocError> {
        let mut sent = self.sent.lock(rt);
        sent.extend_from_slice(bytes)?;
        self.length.store(sent.len(), Ordering::SeqCst);
        Ok(())
    }

    /// Whether just these bytes were sent.
    pub fn was_sent<W: Wait>(&self, rt: &W, bytes: &[u8]) -> bool {
        self.sent.lock(rt).as_slice() == bytes
    }
}

/// Two places, how many packets came in and how many links were let go, and whether links or ports waited in vain.
pub struct Stage {
    pub first: Place,
    pub second: Place,
    packets: AtomicU64,
    gone: AtomicU64,
    gave_up: AtomicBool,
}

impl Drop for Stage {
    fn drop(self) {
        let Self {
            first: _first,
            second: _second,
            packets: _packets,
            gone: _gone,
            gave_up: _gave_up,
        } = self;
    }
}

impl Stage {
    /// A stage on which nobody waits.
    pub fn new(alloc: Global) -> Stage {
        Stage {
            first: Place::new(alloc),
            second: Place::new(alloc),
            packets: AtomicU64::new(0),
            gone: AtomicU64::new(0),
            gave_up: AtomicBool::new(false),
        }
    }

    /// Notes that a packet came in.
    pub fn carry(&self) {
        self.packets.fetch_add(1, Ordering::SeqCst);
    }

    /// How many packets were taken so far.
    pub fn packets(&self) -> u64 {
        self.packets.load(Ordering::SeqCst)
    }

    /// Notes that a link was let go.
    pub fn let_go(&self) {
        self.gone.fetch_add(1, Ordering::SeqCst);
    }

    /// How many links were let go so far.
    pub fn gone(&self) -> u64 {
        self.gone.load(Ordering::SeqCst)
    }

    /// Notes that a link or ports waited in vain.
    pub fn give_up(&self) {
        self.gave_up.store(true, Ordering::SeqCst);
    }

    /// Whether a link or ports waited in vain.
    pub fn gave_up(&self) -> bool {
        self.gave_up.load(Ordering::SeqCst)
    }
}
