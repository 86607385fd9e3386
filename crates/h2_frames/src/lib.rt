//! The frames of HTTP/2, read and written (RFC 9113, sections 4 and 6).
#![tactic(auto)]

mod codes;
mod fragment;
mod frame;
mod head;
pub mod laws;
mod reading;
mod writing;

pub use codes::H2Code;
pub use fragment::Fragment;
pub use frame::{Frame, Setting, StreamPriority};
pub use head::{Head, read_head};
pub use reading::{ends_headers, is_padded_data, read_gathered, read_padded_data, read_payload};
pub use writing::{
    write_continuation, write_data, write_frame, write_goaway, write_headers, write_rst_stream,
    write_window_update,
};
