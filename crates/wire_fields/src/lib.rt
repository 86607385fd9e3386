//! The fields of a protobuf message, read and written (Protocol Buffers encoding).
#![tactic(auto)]

mod cursor;
pub mod laws;
mod reading;
mod wire;
mod writing;

pub use cursor::Fields;
pub use reading::varint;
pub use wire::{Field, WireFault};
pub use writing::Writer;
