//! A question that is asked of each message of a repeated field, and how many messages it has.
ghost use Rattle.std.specs.Prelude.{◌≡◌, Some, IfSome, nat_lt, length};
ghost use Rattle.std.specs.Prelude as spec;
ghost use Rattle.std.specs.List.{list_any};
ghost use Rattle.wire_fields.specs.Fields.{WireField};
ghost use Rattle.wire_messages.specs.Answers.{Reads, ReadsInMemory};
ghost use Rattle.p4v1_read.specs.Nested.{all_at};

use crate::opened::opened;
use crate::readable::Readable;
use list_types::Refusal;
use std::alloc::Global;
use wire_messages::{Message, Unreadable};

/// A question about what a message is read as.
pub(crate) trait Question<T> {
    ghost meaning: { spec.List WireField → spec.Option T };

    ghost answer: { Self → T → spec.Bool };

    fn ask(&self, alloc: Global, message: &Message<'_>) -> Result<bool, Refusal<Unreadable>>
        ensures { IfSome (meaning message.now) (λ object. ReadsInMemory (λ x. x) result (Some (answer self.now object))) };
}

/// Whether the answer is yes for one of the messages in a field.
#[tactic(auto, unfolding(p4v1_read::specs::Nested::all_at, wire_messages::specs::Message::messages_at))]
pub(crate) fn any<T, Q: Question<T>>(
    question: &Q,
    alloc: Global,
    message: &Message<'_>,
    number: u32,
) -> Result<bool, Refusal<Unreadable>>
    ensures { IfSome (all_at Q.meaning number message.now) (λ all. ReadsInMemory (λ x. x) result (Some (list_any (Q.answer question.now) all))) }
{
    let mut left = message.messages(number);
    'messages: while let Some(bytes) = left.next()? {
        if question.ask(alloc, &opened(bytes)?)? {
            return Ok(true);
        }
    }
    Ok(false)
}

/// Whether a field has more messages than the limit.
#[tactic(auto, unfolding(p4v1_read::specs::Nested::all_at, wire_messages::specs::Message::messages_at))]
pub(crate) fn exceeds<T: Readable>(
    message: &Message<'_>,
    number: u32,
    limit: u32,
) -> Result<bool, Unreadable>
    ensures { IfSome (all_at T.meaning number message.now) (λ all. Reads (λ x. x) result (Some (nat_lt limit (length all)))) }
{
    let mut left = message.messages(number);
    'messages: for _ in 0..limit {
        if left.next()?.is_none() {
            return Ok(false);
        }
    }
    Ok(left.next()?.is_some())
}
