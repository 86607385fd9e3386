//! A connection that no breach has ended.
ghost use Rattle.std.specs.Prelude.{◌≡◌};
ghost use Rattle.h2_conn.specs.Frames.{fresh_state};

use crate::decoder::BlockDecoder;
use crate::unread::Unread;
use h2_frames::Fragment;
use h2_streams::{Outgoing, Streams};
use list_types::List;
use std::alloc::Global;

/// A header block so far.
#[derive(Drop)]
pub struct HeaderBlock {
    pub stream: u32,
    pub end_stream: bool,
    pub fragment: Fragment,
}

/// Odd numbers that the peer skipped, from the first to the last.
#[derive(Clone, Copy)]
pub struct Skipped {
    pub first: u32,
    pub last: u32,
}

/// A connection that no breach has ended.
#[derive(Drop)]
pub struct State {
    /// What has come since the last whole frame.
    pub unread: Unread,
    /// The preface is whole.
    pub greeted: bool,
    /// SETTINGS have come.
    pub settled: bool,
    /// A header block that is not whole.
    pub block: Option<HeaderBlock>,
    pub decoder: BlockDecoder,
    pub streams: Streams,
    /// The greatest stream that the peer opened, or 0.
    pub greatest: u32,
    pub skipped: List<Skipped>,
    pub outgoing: Outgoing,
}

impl State {
    /// Nothing has come, and nothing is to be sent.
    pub fn new(alloc: Global) -> State
        ensures { result ≡ fresh_state }
    {
        State {
            unread: Unread::new(alloc),
            greeted: false,
            settled: false,
            block: None,
            decoder: BlockDecoder::new(alloc),
            streams: Streams::new(alloc),
            greatest: 0,
            skipped: List::new(alloc),
            outgoing: Outgoing::new(alloc),
        }
    }
}
