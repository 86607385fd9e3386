//! Header blocks of HTTP/2, read and written (RFC 7541).
#![tactic(auto)]

mod code;
mod decoder;
mod fault;
mod header;
mod integer;
pub mod laws;
mod reading;
mod static_table;
mod strings;
mod table;
mod writing;

pub use decoder::Decoder;
pub use fault::HpackFault;
pub use header::Header;
pub use writing::{encode, encode_size_update};
