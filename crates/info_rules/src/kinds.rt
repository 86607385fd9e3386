//! The kinds of objects, with the id and the name that each has.
ghost use Rattle.std.specs.Prelude.{◌≡◌, ◌==◌, ◌++◌, [], ◌∷◌, Some, IfSome, length, map};
ghost use Rattle.std.specs.Prelude as spec;
ghost use Rattle.wire_fields.specs.Fields.{WireField};
ghost use Rattle.wire_messages.specs.Answers.{Reads, ReadsInMemory};
ghost use Rattle.p4_types.specs.declared.p4info.Preamble as declared;
ghost use Rattle.p4v1_read.specs.Nested.{one_at, all_at};
ghost use Rattle.p4v1_read.specs.P4Infos.{preamble_of, table_of, action_of, action_profile_of, counter_of, direct_counter_of, controller_packet_metadata_of, digest_of};
ghost use Rattle.info_rules.specs.Objects.{id_of, name_of, is_of_another_kind};

use crate::asking::Question;
use crate::gathering::Gift;
use crate::opened::opened;
use list_types::Refusal;
use p4_types::p4info::{
    Action, ActionProfile, ControllerPacketMetadata, Counter, Digest, DirectCounter, Table,
};
use std::alloc::Global;
use wire_messages::{Message, Unreadable};

/// What an object is read as, and what its preamble says.
pub(crate) trait Kind: Sized {
    ghost meaning: { spec.List WireField → spec.Option Self };

    ghost given: { Self → spec.Option declared.Preamble };

    /// The id, 0 where there is no preamble.
    fn id(message: &Message<'_>) -> Result<u32, Unreadable>
        ensures { IfSome (meaning message.now) (λ object. Reads (λ x. x) result (Some (id_of (given object)))) };

    /// The name, empty where there is no preamble.
    fn name<'a>(message: &Message<'a>) -> Result<&'a str, Unreadable>
        ensures { IfSome (meaning message.now) (λ object. Reads (λ x. x.now) result (Some (name_of (given object)))) };
}

#[tactic(auto, unfolding(p4v1_read::specs::Nested::one_at, p4v1_read::specs::P4Infos::preamble_of))]
fn id_in(message: &Message<'_>) -> Result<u32, Unreadable>
    ensures { IfSome (one_at preamble_of 1 message.now) (λ given. Reads (λ x. x) result (Some (id_of given))) }
{
    match message.message(1)? {
        Some(bytes) => opened(bytes)?.uint32(1),
        None => Ok(0),
    }
}

#[tactic(auto, unfolding(p4v1_read::specs::Nested::one_at, p4v1_read::specs::P4Infos::preamble_of))]
fn name_in<'a>(message: &Message<'a>) -> Result<&'a str, Unreadable>
    ensures { IfSome (one_at preamble_of 1 message.now) (λ given. Reads (λ x. x.now) result (Some (name_of given))) }
{
    match message.message(1)? {
        Some(bytes) => opened(bytes)?.text(2),
        None => Ok(""),
    }
}

impl Kind for Table {
    ghost meaning = { table_of };

    ghost given = { λ x. x.preamble };

    #[tactic(auto, unfolding(p4v1_read::specs::P4Infos::table_of))]
    fn id(message: &Message<'_>) -> Result<u32, Unreadable> {
        id_in(message)
    }

    #[tactic(auto, unfolding(p4v1_read::specs::P4Infos::table_of))]
    fn name<'a>(message: &Message<'a>) -> Result<&'a str, Unreadable> {
        name_in(message)
    }
}

impl Kind for Action {
    ghost meaning = { action_of };

    ghost given = { λ x. x.preamble };

    #[tactic(auto, unfolding(p4v1_read::specs::P4Infos::action_of))]
    fn id(message: &Message<'_>) -> Result<u32, Unreadable> {
        id_in(message)
    }

    #[tactic(auto, unfolding(p4v1_read::specs::P4Infos::action_of))]
    fn name<'a>(message: &Message<'a>) -> Result<&'a str, Unreadable> {
        name_in(message)
    }
}

impl Kind for ActionProfile {
    ghost meaning = { action_profile_of };

    ghost given = { λ x. x.preamble };

    #[tactic(auto, unfolding(p4v1_read::specs::P4Infos::action_profile_of))]
    fn id(message: &Message<'_>) -> Result<u32, Unreadable> {
        id_in(message)
    }

    #[tactic(auto, unfolding(p4v1_read::specs::P4Infos::action_profile_of))]
    fn name<'a>(message: &Message<'a>) -> Result<&'a str, Unreadable> {
        name_in(message)
    }
}

impl Kind for Counter {
    ghost meaning = { counter_of };

    ghost given = { λ x. x.preamble };

    #[tactic(auto, unfolding(p4v1_read::specs::P4Infos::counter_of))]
    fn id(message: &Message<'_>) -> Result<u32, Unreadable> {
        id_in(message)
    }

    #[tactic(auto, unfolding(p4v1_read::specs::P4Infos::counter_of))]
    fn name<'a>(message: &Message<'a>) -> Result<&'a str, Unreadable> {
        name_in(message)
    }
}

impl Kind for DirectCounter {
    ghost meaning = { direct_counter_of };

    ghost given = { λ x. x.preamble };

    #[tactic(auto, unfolding(p4v1_read::specs::P4Infos::direct_counter_of))]
    fn id(message: &Message<'_>) -> Result<u32, Unreadable> {
        id_in(message)
    }

    #[tactic(auto, unfolding(p4v1_read::specs::P4Infos::direct_counter_of))]
    fn name<'a>(message: &Message<'a>) -> Result<&'a str, Unreadable> {
        name_in(message)
    }
}

impl Kind for ControllerPacketMetadata {
    ghost meaning = { controller_packet_metadata_of };

    ghost given = { λ x. x.preamble };

    #[tactic(auto, unfolding(p4v1_read::specs::P4Infos::controller_packet_metadata_of))]
    fn id(message: &Message<'_>) -> Result<u32, Unreadable> {
        id_in(message)
    }

    #[tactic(auto, unfolding(p4v1_read::specs::P4Infos::controller_packet_metadata_of))]
    fn name<'a>(message: &Message<'a>) -> Result<&'a str, Unreadable> {
        name_in(message)
    }
}

impl Kind for Digest {
    ghost meaning = { digest_of };

    ghost given = { λ x. x.preamble };

    #[tactic(auto, unfolding(p4v1_read::specs::P4Infos::digest_of))]
    fn id(message: &Message<'_>) -> Result<u32, Unreadable> {
        id_in(message)
    }

    #[tactic(auto, unfolding(p4v1_read::specs::P4Infos::digest_of))]
    fn name<'a>(message: &Message<'a>) -> Result<&'a str, Unreadable> {
        name_in(message)
    }
}

/// The id of an object.
pub(crate) struct Id;

impl<K: Kind> Gift<K, u32> for Id {
    ghost meaning = { K.meaning };

    ghost gives = { λ _ object. id_of (K.given object) ∷ [] };

    fn put(
        &self,
        _: Global,
        found: &mut Vec<u32>,
        message: &Message<'_>,
    ) -> Result<(), Refusal<Unreadable>> {
        found.push(K::id(message)?)?;
        Ok(())
    }
}

/// Whether an object's id has another high byte than this.
#[derive(Clone, Copy)]
pub(crate) struct OtherKind {
    pub(crate) high: u32,
}

impl<K: Kind> Question<K> for OtherKind {
    ghost meaning = { K.meaning };

    ghost answer = { λ kind object. is_of_another_kind kind.high (id_of (K.given object)) };

    fn ask(&self, _: Global, message: &Message<'_>) -> Result<bool, Refusal<Unreadable>> {
        Ok(K::id(message)? >> 24 != self.high)
    }
}

/// Adds the names of the objects in a field.
#[tactic(auto, unfolding(p4v1_read::specs::Nested::all_at, wire_messages::specs::Message::messages_at))]
pub(crate) fn push_names<'a, K: Kind>(
    names: &mut Vec<&'a str>,
    message: &Message<'a>,
    number: u32,
) -> Result<(), Refusal<Unreadable>>
    ensures { IfSome (all_at K.meaning number message.now) (λ all. ReadsInMemory (λ _. map (λ x. x.now) names.new.items) result
        (Some (map (λ x. x.now) names.old.items ++ map (λ x. name_of (K.given x)) all))) }
{
    let mut left = message.messages(number);
    'messages: while let Some(bytes) = left.next()? {
        names.push(K::name(&opened(bytes)?)?)?;
    }
    Ok(())
}
