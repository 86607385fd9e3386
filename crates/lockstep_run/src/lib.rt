//! Runs in lockstep: the records of a tape are played one after the other, and the bytes of lanes that bring them make calls in their turn.
#![tactic(auto)]

mod journal;
mod lanes;
mod playing;
mod session;
mod speaker;

pub use playing::play;
