//! Messages in bytes.
ghost use Rattle.p4v1_read.specs.MessageFields.{fields_of};
ghost use Rattle.wire_messages.specs.Answers.{Reads};

use wire_messages::{Message, Unreadable};

/// The message that the bytes are.
pub(crate) fn opened(bytes: &[u8]) -> Result<Message<'_>, Unreadable>
    ensures { Reads (λ message. message) result (fields_of bytes.now) }
{
    Message::read(bytes)
}
