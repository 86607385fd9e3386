//! What the readers of messages share.
ghost use Rattle.std.specs.Prelude.{◌≡◌, Some};
ghost use Rattle.std.specs.Prelude as spec;
ghost use Rattle.p4v1_read.specs.MessageFields.{fields_of};
ghost use Rattle.p4v1_read.specs.Nested.{read, one_at, all_at, inside_at, member_at, opaque_at};
ghost use Rattle.wire_fields.specs.Fields.{WireField};
ghost use Rattle.wire_messages.specs.Answers.{Reads, ReadsInMemory};
ghost use Rattle.wire_messages.specs.Message.{each, bytes_at, text_at, uint32s_at, message_at};

use list_types::{ByteList, List, Refusal, Text};
use std::alloc::Global;
use wire_messages::{Message, Unreadable};

/// A message that is read by its fields.
pub(crate) trait Readable: Drop {
    ghost meaning: { spec.List WireField → spec.Option Self };

    fn read(alloc: Global, message: &Message<'_>) -> Result<Self, Refusal<Unreadable>>
        ensures { ReadsInMemory (λ x. x) result (meaning message.now) };
}

pub(crate) fn fields(bytes: &[u8]) -> Result<Message<'_>, Unreadable>
    ensures { Reads (λ message. message) result (fields_of bytes.now) }
{
    Message::read(bytes)
}

pub(crate) fn from_bytes<T: Readable>(alloc: Global, bytes: &[u8]) -> Result<T, Refusal<Unreadable>>
    ensures { ReadsInMemory (λ x. x) result (read T.meaning bytes.now) }
{
    let message = fields(bytes)?;
    T::read(alloc, &message)
}

#[tactic(auto, unfolding(crate::specs::Nested::one_at))]
pub(crate) fn one<T: Readable>(
    alloc: Global,
    message: &Message<'_>,
    number: u32,
) -> Result<Option<T>, Refusal<Unreadable>>
    ensures { ReadsInMemory (λ x. x) result (one_at T.meaning number message.now) }
{
    match message.message(number)? {
        Some(bytes) => Ok(Some(from_bytes(alloc, bytes)?)),
        None => Ok(None),
    }
}

#[tactic(auto, unfolding(crate::specs::Nested::all_at))]
pub(crate) fn all<T: Readable>(
    alloc: Global,
    message: &Message<'_>,
    number: u32,
) -> Result<List<T>, Refusal<Unreadable>>
    ensures { ReadsInMemory (λ x. x) result (all_at T.meaning number message.now) }
{
    let mut list = List::new(alloc);
    let mut left = message.messages(number);
    'messages: while let Some(bytes) = left.next()? {
        list.push(from_bytes(alloc, bytes)?)?;
    }
    Ok(list)
}

#[tactic(auto, unfolding(crate::specs::Nested::inside_at))]
pub(crate) fn inside<'a>(message: &Message<'a>, number: u32) -> Result<Message<'a>, Unreadable>
    ensures { Reads (λ message. message) result (inside_at number message.now) }
{
    match message.message(number)? {
        Some(bytes) => fields(bytes),
        None => Err(Unreadable),
    }
}

#[tactic(auto, unfolding(crate::specs::Nested::member_at))]
pub(crate) fn member<T: Readable>(
    alloc: Global,
    message: &Message<'_>,
    number: u32,
) -> Result<T, Refusal<Unreadable>>
    ensures { ReadsInMemory (λ x. x) result (member_at T.meaning number message.now) }
{
    let inside = inside(message, number)?;
    T::read(alloc, &inside)
}

#[tactic(auto, unfolding(crate::specs::Nested::opaque_at))]
pub(crate) fn opaque(message: &Message<'_>, number: u32) -> Result<bool, Unreadable>
    ensures { Reads (λ x. x) result (opaque_at number message.now) }
{
    Ok(message.message(number)?.is_some())
}

pub(crate) fn copied(alloc: Global, bytes: &[u8]) -> Result<ByteList, Refusal<Unreadable>>
    ensures { ReadsInMemory (λ list. list) result (Some bytes.now) }
{
    let mut list = List::new(alloc);
    list.extend_from_slice(bytes)?;
    Ok(list)
}

pub(crate) fn bytes(
    alloc: Global,
    message: &Message<'_>,
    number: u32,
) -> Result<ByteList, Refusal<Unreadable>>
    ensures { ReadsInMemory (λ list. list) result (bytes_at number message.now) }
{
    copied(alloc, message.bytes(number)?)
}

pub(crate) fn text(
    alloc: Global,
    message: &Message<'_>,
    number: u32,
) -> Result<Text, Refusal<Unreadable>>
    ensures { ReadsInMemory (λ text. text) result (text_at number message.now) }
{
    let mut text = String::new(alloc);
    text.push_str(message.text(number)?)?;
    Ok(Text::from_string(text))
}

pub(crate) fn uint32s(
    alloc: Global,
    message: &Message<'_>,
    number: u32,
) -> Result<List<u32>, Refusal<Unreadable>>
    ensures { ReadsInMemory (λ list. list) result (uint32s_at number message.now) }
{
    Ok(List::from_vec(message.uint32s(alloc, number)?))
}

/// The bytes of a message that is carried unread.
pub(crate) fn carried(
    alloc: Global,
    message: &Message<'_>,
    number: u32,
) -> Result<Option<ByteList>, Refusal<Unreadable>>
    ensures { ReadsInMemory (λ x. x) result (message_at number message.now) }
{
    match message.message(number)? {
        Some(bytes) => Ok(Some(copied(alloc, bytes)?)),
        None => Ok(None),
    }
}
