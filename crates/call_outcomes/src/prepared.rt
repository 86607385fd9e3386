//! An answer before its events are handed on.
use list_types::{ByteList, List};
use p4_types::calls::Notice;
use p4_types::code::Code;
use p4_types::events::Event;
use plane_state::Config;

/// A reply's code, messages and notices, the events of its call, which were made in the image and can be undone, and the
/// packet that it makes enter.
#[derive(Drop)]
pub struct Prepared {
    pub code: Code,
    pub messages: List<ByteList>,
    pub notices: List<Notice>,
    pub events: List<Event<Config>>,
    pub packet: Option<ByteList>,
}
