//! A packet's bytes read into a store by a program's parser, and written from it by its deparser.
#![tactic(auto)]

mod deparsing;
mod eights;
mod entering;
mod fields;
mod headers;
mod laying;
mod ones;
mod packet_buf;
mod parsing;
mod reading;
mod sums;

pub use deparsing::deparse;
pub use entering::enter;
pub use packet_buf::PacketBuf;
pub use parsing::{Parsed, parse};
pub use reading::read;
pub use sums::{update_sums, verify_sums};
