// A flag that threads share.
ghost use Rattle.std.specs.Prelude.{⊤};

use crate::system::Signal;
use std::sync::atomic::{AtomicBool, Ordering};

/// A flag that one thread sets and others look at. No contract can say what it holds, since any thread may set it.
#[derive(Drop)]
pub struct StopFlag {
    is_set: AtomicBool,
}

impl StopFlag {
    /// A flag that is not set.
    pub fn new() -> StopFlag {
        StopFlag {
            is_set: AtomicBool::new(false),
        }
    }

    /// Sets the flag for good.
    pub fn set(&self) {
        self.is_set.store(true, Ordering::SeqCst);
    }
}

impl Signal for &StopFlag {
    ghost shows = { λ _ _. ⊤ };

    fn is_set(&self) -> bool {
        self.is_set.load(Ordering::SeqCst)
    }
}
