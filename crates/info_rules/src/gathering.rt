//! What each message of a repeated field gives, gathered.
ghost use Rattle.std.specs.Prelude.{◌≡◌, ◌++◌, Some, IfSome, map};
ghost use Rattle.std.specs.Prelude as spec;
ghost use Rattle.std.specs.List.{flat_map};
ghost use Rattle.wire_fields.specs.Fields.{WireField};
ghost use Rattle.wire_messages.specs.Answers.{ReadsInMemory};
ghost use Rattle.p4v1_read.specs.Nested.{all_at};

use crate::opened::opened;
use list_types::Refusal;
use std::alloc::Global;
use wire_messages::{Message, Unreadable};

/// What a message gives, by what it is read as.
pub(crate) trait Gift<T, V> {
    ghost meaning: { spec.List WireField → spec.Option T };

    ghost gives: { Self → T → spec.List V };

    fn put(
        &self,
        alloc: Global,
        found: &mut Vec<V>,
        message: &Message<'_>,
    ) -> Result<(), Refusal<Unreadable>>
        ensures { IfSome (meaning message.now) (λ object. ReadsInMemory (λ _. found.new.items) result (Some (found.old.items ++ gives self.now object))) };
}

/// Adds what the messages in a field give, in their order.
#[tactic(auto, unfolding(p4v1_read::specs::Nested::all_at, wire_messages::specs::Message::messages_at))]
pub(crate) fn gather<T, V, G: Gift<T, V>>(
    gift: &G,
    alloc: Global,
    found: &mut Vec<V>,
    message: &Message<'_>,
    number: u32,
) -> Result<(), Refusal<Unreadable>>
    ensures { IfSome (all_at G.meaning number message.now) (λ all. ReadsInMemory (λ _. found.new.items) result (Some (found.old.items ++ flat_map (G.gives gift.now) all))) }
{
    let mut left = message.messages(number);
    'messages: while let Some(bytes) = left.next()? {
        gift.put(alloc, found, &opened(bytes)?)?;
    }
    Ok(())
}
