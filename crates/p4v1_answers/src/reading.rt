//! What the readers of answers share.
ghost use Rattle.std.specs.Prelude.{◌≡◌, Some};
ghost use Rattle.std.specs.Prelude as spec;
ghost use Rattle.p4v1_read.specs.MessageFields.{fields_of};
ghost use Rattle.p4v1_read.specs.Nested.{read, one_at, all_at, inside_at, member_at};
ghost use Rattle.wire_fields.specs.Fields.{WireField};
ghost use Rattle.wire_messages.specs.Answers.{Reads, ReadsInMemory};
ghost use Rattle.wire_messages.specs.Message.{each, bytes_at, text_at};

use list_types::{ByteList, List, Refusal, Text};
use std::alloc::Global;
use wire_messages::{Message, Unreadable};

/// A message that is read from its bytes.
pub(crate) trait Readable: Drop {
    ghost meaning: { spec.List WireField → spec.Option Self };

    fn read(alloc: Global, bytes: &[u8]) -> Result<Self, Refusal<Unreadable>>
        ensures { ReadsInMemory (λ x. x) result (read meaning bytes.now) };
}

pub(crate) fn fields(bytes: &[u8]) -> Result<Message<'_>, Unreadable>
    ensures { Reads (λ message. message) result (fields_of bytes.now) }
{
    Message::read(bytes)
}

#[tactic(auto, unfolding(p4v1_read::specs::Nested::one_at))]
pub(crate) fn one<T: Readable>(
    alloc: Global,
    message: &Message<'_>,
    number: u32,
) -> Result<Option<T>, Refusal<Unreadable>>
    ensures { ReadsInMemory (λ x. x) result (one_at T.meaning number message.now) }
{
    match message.message(number)? {
        Some(bytes) => Ok(Some(T::read(alloc, bytes)?)),
        None => Ok(None),
    }
}

#[tactic(auto, unfolding(p4v1_read::specs::Nested::all_at))]
pub(crate) fn all<T: Readable>(
    alloc: Global,
    message: &Message<'_>,
    number: u32,
) -> Result<List<T>, Refusal<Unreadable>>
    ensures { ReadsInMemory (λ x. x) result (all_at T.meaning number message.now) }
{
    let mut list = List::new(alloc);
    let mut left = message.messages(number);
    'messages: while let Some(bytes) = left.next()? {
        list.push(T::read(alloc, bytes)?)?;
    }
    Ok(list)
}

#[tactic(auto, unfolding(p4v1_read::specs::Nested::inside_at))]
pub(crate) fn inside<'a>(message: &Message<'a>, number: u32) -> Result<Message<'a>, Unreadable>
    ensures { Reads (λ message. message) result (inside_at number message.now) }
{
    match message.message(number)? {
        Some(bytes) => fields(bytes),
        None => Err(Unreadable),
    }
}

#[tactic(auto, unfolding(p4v1_read::specs::Nested::member_at, p4v1_read::specs::Nested::inside_at))]
pub(crate) fn member<T: Readable>(
    alloc: Global,
    message: &Message<'_>,
    number: u32,
) -> Result<T, Refusal<Unreadable>>
    ensures { ReadsInMemory (λ x. x) result (member_at T.meaning number message.now) }
{
    match message.message(number)? {
        Some(bytes) => T::read(alloc, bytes),
        None => Err(Refusal::For(Unreadable)),
    }
}

pub(crate) fn bytes(
    alloc: Global,
    message: &Message<'_>,
    number: u32,
) -> Result<ByteList, Refusal<Unreadable>>
    ensures { ReadsInMemory (λ list. list) result (bytes_at number message.now) }
{
    let mut list = List::new(alloc);
    list.extend_from_slice(message.bytes(number)?)?;
    Ok(list)
}

pub(crate) fn text(
    alloc: Global,
    message: &Message<'_>,
    number: u32,
) -> Result<Text, Refusal<Unreadable>>
    ensures { ReadsInMemory (λ text. text) result (text_at number message.now) }
{
    let mut text = String::new(alloc);
    text.push_str(message.text(number)?)?;
    Ok(Text::from_string(text))
}
