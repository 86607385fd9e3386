//! Whether a P4Info is read at all: its messages are read as they would be to be kept, and nothing is kept.
ghost use Rattle.std.specs.Prelude.{◌≡◌, IsErrOf, None, OnErr, OnOk, is_some, true};
ghost use Rattle.std.specs.Prelude as spec;
ghost use Rattle.wire_fields.specs.Fields.{WireField};
ghost use Rattle.wire_messages.specs.Message.{texts_at};
ghost use Rattle.p4v1_read.specs.Nested.{one_at, all_at};
ghost use Rattle.p4v1_read.specs.P4Infos.{preamble_of, match_field_of, action_ref_of, table_of, param_of, action_of, action_profile_of, counter_spec_of, counter_of, direct_counter_of, metadata_of, controller_packet_metadata_of, digest_of, p4info_of};
ghost use Rattle.list_types.specs.declared.memory.Refusal.TheVariants as refusals;

use crate::opened::opened;
use list_types::Refusal;
use p4_types::p4info::{
    Action, ActionProfile, ActionRef, ControllerPacketMetadata, Counter, CounterSpec, Digest,
    DirectCounter, MatchField, Metadata, P4Info, Param, Preamble, Table,
};
use std::alloc::Global;
use wire_messages::{Message, Unreadable};

/// A message that is read by its fields.
pub(crate) trait Readable: Sized {
    ghost meaning: { spec.List WireField → spec.Option Self };

    fn check(alloc: Global, message: &Message<'_>) -> Result<(), Refusal<Unreadable>>
        ensures read { OnOk result (is_some (meaning message.now) ≡ true) }
        ensures unreadable { IsErrOf result (refusals.For (record {})) → meaning message.now ≡ None };
}

#[tactic(auto, unfolding(p4v1_read::specs::Nested::one_at))]
fn check_one<T: Readable>(
    alloc: Global,
    message: &Message<'_>,
    number: u32,
) -> Result<(), Refusal<Unreadable>>
    ensures read { OnOk result (is_some (one_at T.meaning number message.now) ≡ true) }
    ensures unreadable { IsErrOf result (refusals.For (record {})) → one_at T.meaning number message.now ≡ None }
{
    match message.message(number)? {
        Some(bytes) => T::check(alloc, &opened(bytes)?),
        None => Ok(()),
    }
}

#[tactic(auto, unfolding(p4v1_read::specs::Nested::all_at, wire_messages::specs::Message::messages_at))]
fn check_all<T: Readable>(
    alloc: Global,
    message: &Message<'_>,
    number: u32,
) -> Result<(), Refusal<Unreadable>>
    ensures read { OnOk result (is_some (all_at T.meaning number message.now) ≡ true) }
    ensures unreadable { IsErrOf result (refusals.For (record {})) → all_at T.meaning number message.now ≡ None }
{
    let mut left = message.messages(number);
    'messages: while let Some(bytes) = left.next()? {
        T::check(alloc, &opened(bytes)?)?;
    }
    Ok(())
}

#[tactic(auto, unfolding(wire_messages::specs::Message::texts_at))]
fn check_texts(message: &Message<'_>, number: u32) -> Result<(), Unreadable>
    ensures read { OnOk result (is_some (texts_at number message.now) ≡ true) }
    ensures unreadable { OnErr result (texts_at number message.now ≡ None) }
{
    let mut left = message.messages(number);
    'messages: while let Some(bytes) = left.next()? {
        match str::from_utf8(bytes) {
            Ok(_) => {}
            Err(_) => return Err(Unreadable),
        }
    }
    Ok(())
}

impl Readable for Preamble {
    ghost meaning = { preamble_of };

    #[tactic(auto, unfolding(p4v1_read::specs::P4Infos::preamble_of))]
    fn check(_: Global, message: &Message<'_>) -> Result<(), Refusal<Unreadable>> {
        message.uint32(1)?;
        message.text(2)?;
        message.text(3)?;
        check_texts(message, 4)?;
        Ok(())
    }
}

impl Readable for MatchField {
    ghost meaning = { match_field_of };

    #[tactic(auto, unfolding(p4v1_read::specs::P4Infos::match_field_of))]
    fn check(_: Global, message: &Message<'_>) -> Result<(), Refusal<Unreadable>> {
        message.uint32(1)?;
        message.text(2)?;
        message.int32(4)?;
        message.int32(5)?;
        Ok(())
    }
}

impl Readable for ActionRef {
    ghost meaning = { action_ref_of };

    #[tactic(auto, unfolding(p4v1_read::specs::P4Infos::action_ref_of))]
    fn check(_: Global, message: &Message<'_>) -> Result<(), Refusal<Unreadable>> {
        message.uint32(1)?;
        message.int32(3)?;
        Ok(())
    }
}

impl Readable for Table {
    ghost meaning = { table_of };

    #[tactic(auto, unfolding(p4v1_read::specs::P4Infos::table_of))]
    fn check(alloc: Global, message: &Message<'_>) -> Result<(), Refusal<Unreadable>> {
        check_one::<Preamble>(alloc, message, 1)?;
        check_all::<MatchField>(alloc, message, 2)?;
        check_all::<ActionRef>(alloc, message, 3)?;
        message.uint32(4)?;
        message.uint32(6)?;
        message.uint32s(alloc, 7)?;
        message.int64(8)?;
        message.int32(9)?;
        message.boolean(10)?;
        Ok(())
    }
}

impl Readable for Param {
    ghost meaning = { param_of };

    #[tactic(auto, unfolding(p4v1_read::specs::P4Infos::param_of))]
    fn check(_: Global, message: &Message<'_>) -> Result<(), Refusal<Unreadable>> {
        message.uint32(1)?;
        message.text(2)?;
        message.int32(4)?;
        Ok(())
    }
}

impl Readable for Action {
    ghost meaning = { action_of };

    #[tactic(auto, unfolding(p4v1_read::specs::P4Infos::action_of))]
    fn check(alloc: Global, message: &Message<'_>) -> Result<(), Refusal<Unreadable>> {
        check_one::<Preamble>(alloc, message, 1)?;
        check_all::<Param>(alloc, message, 2)?;
        Ok(())
    }
}

impl Readable for ActionProfile {
    ghost meaning = { action_profile_of };

    #[tactic(auto, unfolding(p4v1_read::specs::P4Infos::action_profile_of))]
    fn check(alloc: Global, message: &Message<'_>) -> Result<(), Refusal<Unreadable>> {
        check_one::<Preamble>(alloc, message, 1)?;
        message.uint32s(alloc, 2)?;
        message.boolean(3)?;
        message.int64(4)?;
        message.int32(5)?;
        Ok(())
    }
}

impl Readable for CounterSpec {
    ghost meaning = { counter_spec_of };

    #[tactic(auto, unfolding(p4v1_read::specs::P4Infos::counter_spec_of))]
    fn check(_: Global, message: &Message<'_>) -> Result<(), Refusal<Unreadable>> {
        message.int32(1)?;
        Ok(())
    }
}

impl Readable for Counter {
    ghost meaning = { counter_of };

    #[tactic(auto, unfolding(p4v1_read::specs::P4Infos::counter_of))]
    fn check(alloc: Global, message: &Message<'_>) -> Result<(), Refusal<Unreadable>> {
        check_one::<Preamble>(alloc, message, 1)?;
        check_one::<CounterSpec>(alloc, message, 2)?;
        message.int64(3)?;
        Ok(())
    }
}

impl Readable for DirectCounter {
    ghost meaning = { direct_counter_of };

    #[tactic(auto, unfolding(p4v1_read::specs::P4Infos::direct_counter_of))]
    fn check(alloc: Global, message: &Message<'_>) -> Result<(), Refusal<Unreadable>> {
        check_one::<Preamble>(alloc, message, 1)?;
        check_one::<CounterSpec>(alloc, message, 2)?;
        message.uint32(3)?;
        Ok(())
    }
}

impl Readable for Metadata {
    ghost meaning = { metadata_of };

    #[tactic(auto, unfolding(p4v1_read::specs::P4Infos::metadata_of))]
    fn check(_: Global, message: &Message<'_>) -> Result<(), Refusal<Unreadable>> {
        message.uint32(1)?;
        message.text(2)?;
        message.int32(4)?;
        Ok(())
    }
}

impl Readable for ControllerPacketMetadata {
    ghost meaning = { controller_packet_metadata_of };

    #[tactic(auto, unfolding(p4v1_read::specs::P4Infos::controller_packet_metadata_of))]
    fn check(alloc: Global, message: &Message<'_>) -> Result<(), Refusal<Unreadable>> {
        check_one::<Preamble>(alloc, message, 1)?;
        check_all::<Metadata>(alloc, message, 2)?;
        Ok(())
    }
}

impl Readable for Digest {
    ghost meaning = { digest_of };

    #[tactic(auto, unfolding(p4v1_read::specs::P4Infos::digest_of))]
    fn check(alloc: Global, message: &Message<'_>) -> Result<(), Refusal<Unreadable>> {
        check_one::<Preamble>(alloc, message, 1)?;
        message.message(2)?;
        Ok(())
    }
}

impl Readable for P4Info {
    ghost meaning = { p4info_of };

    #[tactic(auto, unfolding(p4v1_read::specs::P4Infos::p4info_of))]
    fn check(alloc: Global, message: &Message<'_>) -> Result<(), Refusal<Unreadable>> {
        check_all::<Table>(alloc, message, 2)?;
        check_all::<Action>(alloc, message, 3)?;
        check_all::<ActionProfile>(alloc, message, 4)?;
        check_all::<Counter>(alloc, message, 5)?;
        check_all::<DirectCounter>(alloc, message, 6)?;
        check_all::<ControllerPacketMetadata>(alloc, message, 9)?;
        check_all::<Digest>(alloc, message, 12)?;
        Ok(())
    }
}
