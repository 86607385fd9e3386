//! What a controller is given next on its stream channel.
use p4_types::messages::StreamMessageResponse;
use p4_types::records::Output;

/// What a controller is given next.
#[derive(Drop)]
pub enum Next {
    Message(StreamMessageResponse),
    /// What the controller's own packet made leave.
    Output(Output),
    /// A notice found `NOTICE_LIMIT` messages waiting and was dropped: the stream ends with RESOURCE_EXHAUSTED.
    Overflow,
}
