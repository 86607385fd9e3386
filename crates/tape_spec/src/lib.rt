//! What a tape is where lanes bring the bytes of a transport: its items and their grammar; and laws about them.
#![tactic(auto)]

mod item;
pub mod laws;

pub use item::TapeItem;
