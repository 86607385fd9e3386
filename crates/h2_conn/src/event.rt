//! What a connection gives.
ghost use Rattle.std.specs.Prelude.{◌≡◌, None};

use hpack_tables::Header;
use list_types::{ByteList, List};

/// What the peer did on a stream.
#[derive(Drop)]
pub enum H2Event {
    /// Headers, or trailers.
    Headers { stream: u32, headers: List<Header> },
    /// The data of a DATA frame, without its padding.
    Data { stream: u32, bytes: ByteList },
    /// The peer ended the stream.
    End { stream: u32 },
    /// The peer reset the stream.
    Reset { stream: u32 },
}

/// What a frame gives: at most an event, and the number of a stream that it ends.
#[derive(Drop)]
pub struct Given {
    pub event: Option<H2Event>,
    pub end_of: Option<u32>,
}

/// A frame gives nothing.
pub(crate) fn nothing() -> Given
    ensures { result ≡ record { event = None; end_of = None } }
{
    Given {
        event: None,
        end_of: None,
    }
}
