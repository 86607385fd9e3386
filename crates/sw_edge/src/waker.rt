//! What ends the wait of a link from another thread.
use mio::{Registry, Token, Waker};
use std::io;

/// Ends the wait of a link's pull from another thread: of the one that waits, or else of the next that would.
#[derive(Drop)]
pub struct LinkWaker {
    waker: Waker,
}

impl LinkWaker {
    /// Of what waits at this registry, under a token that no source there has.
    pub fn new(registry: &Registry, token: Token) -> io::Result<LinkWaker> {
        Ok(LinkWaker {
            waker: Waker::new(registry, token)?,
        })
    }

    /// Ends the wait. Where the system refuses that, the wait ends by itself.
    pub fn wake(&self) {
        let _refused = self.waker.wake();
    }
}
