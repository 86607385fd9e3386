//! The frames of a connection, by their kinds.
use crate::fragment::Fragment;
use list_types::{ByteList, List};

/// The priority of a stream (RFC 9113, section 6.3).
#[derive(Clone, Copy)]
pub struct StreamPriority {
    pub exclusive: bool,
    /// A number of 31 bits.
    pub stream_dependency: u32,
    /// One less than the weight, as it stands in the frame.
    pub weight: u8,
}

/// A setting (RFC 9113, section 6.5.1).
#[derive(Clone, Copy)]
pub struct Setting {
    pub identifier: u16,
    pub value: u32,
}

impl Setting {
    /// The greatest dynamic table, in bytes, with which the sender of the setting decodes.
    pub const HEADER_TABLE_SIZE: u16 = 1;

    pub const ENABLE_PUSH: u16 = 2;

    pub const MAX_CONCURRENT_STREAMS: u16 = 3;
    /// The window of a new stream, in bytes.
    pub const INITIAL_WINDOW_SIZE: u16 = 4;
    /// The longest payload, in bytes.
    pub const MAX_FRAME_SIZE: u16 = 5;

    pub const MAX_HEADER_LIST_SIZE: u16 = 6;
}

/// A frame without its padding (RFC 9113, section 6). The numbers of streams have 31 bits.
#[derive(Drop)]
pub enum Frame {
    Data {
        stream: u32,
        end_stream: bool,
        data: ByteList,
    },
    Headers {
        stream: u32,
        end_stream: bool,
        end_headers: bool,
        priority: Option<StreamPriority>,
        field_block_fragment: Fragment,
    },
    Priority {
        stream: u32,
        priority: StreamPriority,
    },
    RstStream {
        stream: u32,
        error_code: u32,
    },
    Settings {
        ack: bool,
        settings: List<Setting>,
    },
    PushPromise {
        stream: u32,
        end_headers: bool,
        promised_stream: u32,
        field_block_fragment: Fragment,
    },
    Ping {
        ack: bool,
        /// The eight bytes as a number, most significant first.
        opaque_data: u64,
    },
    GoAway {
        last_stream: u32,
        error_code: u32,
        debug_data: Fragment,
    },
    WindowUpdate {
        stream: u32,
        /// A number of 31 bits, in bytes.
        window_size_increment: u32,
    },
    Continuation {
        stream: u32,
        end_headers: bool,
        field_block_fragment: Fragment,
    },
    /// A frame of a kind above 9.
    Unknown {
        kind: u8,
        flags: u8,
        stream: u32,
        payload: ByteList,
    },
}
