//! The rules of a P4Info, a function for each.
ghost use Rattle.std.specs.Prelude.{◌≡◌, ◌≤◌, ◌==◌, ◌%◌, ◌++◌, Some, IfSome, IfOk, map, is_none, not, nat_lt, length, sum_by, unwrap_or, count_by};
ghost use Rattle.std.specs.List.{list_any};
ghost use Rattle.wire_messages.specs.Answers.{Reads, ReadsInMemory};
ghost use Rattle.p4v1_read.specs.Nested.{all_at};
ghost use Rattle.p4v1_read.specs.P4Infos.{p4info_of, table_of, action_of, action_profile_of, counter_of, controller_packet_metadata_of, match_field_of, metadata_of};
ghost use Rattle.info_rules.specs.Numbers.{width_of, size_of, kind_of, is_lpm};
ghost use Rattle.info_rules.specs.Objects.{id_of, ids_clash, names_clash, name_of, is_of_another_kind};
ghost use Rattle.info_rules.specs.Rules.{breaks_i2, breaks_i3, breaks_i4, breaks_i6, breaks_i7, breaks_i8, breaks_i9, table_breaks_i7, table_breaks_i8, profile_breaks_i8, exceeds_limits, has_two_lpm, bits_of};

use crate::asking::{Question, any, exceeds};
use crate::gathering::gather;
use crate::kinds::{Id, Kind, OtherKind, push_names};
use crate::opened::opened;
use crate::parts::{NoWidth, UnknownKind, UnknownScope, ids_clash, part_ids_clash};
use crate::{numbers, repeats};
use list_types::{NoMemory, Refusal};
use p4_types::info::MatchKind;
use p4_types::p4info::{
    Action, ActionProfile, ActionRef, ControllerPacketMetadata, Counter, Digest, DirectCounter,
    MatchField, Metadata, Param, Table,
};
use std::alloc::Global;
use wire_messages::{Message, Unreadable};

// The high bytes of ids.
const ACTION: u32 = 0x01;

const TABLE: u32 = 0x02;

const CONTROLLER_HEADER: u32 = 0x04;

const ACTION_PROFILE: u32 = 0x11;

const COUNTER: u32 = 0x12;

const DIRECT_COUNTER: u32 = 0x13;

const DIGEST: u32 = 0x17;

// How many there may be of each.
const TABLES: u32 = 128;

const ACTIONS: u32 = 512;

const OBJECTS: u32 = 128;

const MATCH_FIELDS: u32 = 16;

const PARAMS: u32 = 8;

const HEADER_FIELDS: u32 = 128;

/// I2: an id is 0 or occurs twice.
#[tactic(auto, using(crate::proofs::Gathered::flat_map_single), unfolding(p4v1_read::specs::P4Infos::p4info_of))]
pub(crate) fn breaks_i2(alloc: Global, message: &Message<'_>) -> Result<bool, Refusal<Unreadable>>
    ensures { IfSome (p4info_of message.now) (λ info. ReadsInMemory (λ x. x) result (Some (breaks_i2 info))) }
{
    let mut ids = Vec::new(alloc);
    gather::<Table, u32, Id>(&Id, alloc, &mut ids, message, 2)?;
    gather::<Action, u32, Id>(&Id, alloc, &mut ids, message, 3)?;
    gather::<ActionProfile, u32, Id>(&Id, alloc, &mut ids, message, 4)?;
    gather::<Counter, u32, Id>(&Id, alloc, &mut ids, message, 5)?;
    gather::<DirectCounter, u32, Id>(&Id, alloc, &mut ids, message, 6)?;
    gather::<ControllerPacketMetadata, u32, Id>(&Id, alloc, &mut ids, message, 9)?;
    gather::<Digest, u32, Id>(&Id, alloc, &mut ids, message, 12)?;
    Ok(ids_clash(alloc, ids.as_slice())?)
}

fn has_other_kind<K: Kind>(
    alloc: Global,
    message: &Message<'_>,
    number: u32,
    high: u32,
) -> Result<bool, Refusal<Unreadable>>
    ensures { IfSome (all_at K.meaning number message.now) (λ all. ReadsInMemory (λ x. x) result
        (Some (list_any (λ x. is_of_another_kind high (id_of (K.given x))) all))) }
{
    any::<K, OtherKind>(&OtherKind { high }, alloc, message, number)
}

/// I3: an id's high byte is not that of its kind.
#[tactic(auto, unfolding(p4v1_read::specs::P4Infos::p4info_of))]
pub(crate) fn breaks_i3(alloc: Global, message: &Message<'_>) -> Result<bool, Refusal<Unreadable>>
    ensures { IfSome (p4info_of message.now) (λ info. ReadsInMemory (λ x. x) result (Some (breaks_i3 info))) }
{
    Ok(
        has_other_kind::<Table>(alloc, message, 2, TABLE)?
            || has_other_kind::<Action>(alloc, message, 3, ACTION)?
            || has_other_kind::<ActionProfile>(alloc, message, 4, ACTION_PROFILE)?
            || has_other_kind::<Counter>(alloc, message, 5, COUNTER)?
            || has_other_kind::<DirectCounter>(alloc, message, 6, DIRECT_COUNTER)?
            || has_other_kind::<ControllerPacketMetadata>(alloc, message, 9, CONTROLLER_HEADER)?
            || has_other_kind::<Digest>(alloc, message, 12, DIGEST)?,
    )
}

fn has_empty(names: &[&str]) -> bool
    ensures { result ≡ list_any (λ x. length x.now == 0) names.now }
{
    names.iter().any(|name| name.is_empty())
}

#[tactic(auto, using(crate::proofs::Sameness::list_any_map), unfolding(crate::specs::Objects::names_clash))]
fn texts_clash(alloc: Global, names: &[&str]) -> Result<bool, NoMemory>
    ensures { IfOk result (λ answer. answer ≡ names_clash (map (λ x. x.now) names.now)) }
{
    if has_empty(names) {
        return Ok(true);
    }
    repeats::texts_repeat(alloc, names)
}

// Whether a name of the objects in a field is empty or occurs twice among them.
fn object_names_clash<K: Kind>(
    alloc: Global,
    message: &Message<'_>,
    number: u32,
) -> Result<bool, Refusal<Unreadable>>
    ensures { IfSome (all_at K.meaning number message.now) (λ all. ReadsInMemory (λ x. x) result
        (Some (names_clash (map (λ x. name_of (K.given x)) all)))) }
{
    let mut names = Vec::new(alloc);
    push_names::<K>(&mut names, message, number)?;
    Ok(texts_clash(alloc, names.as_slice())?)
}

/// I4: a name is empty or occurs twice in its kind.
#[tactic(auto, unfolding(p4v1_read::specs::P4Infos::p4info_of))]
pub(crate) fn breaks_i4(alloc: Global, message: &Message<'_>) -> Result<bool, Refusal<Unreadable>>
    ensures { IfSome (p4info_of message.now) (λ info. ReadsInMemory (λ x. x) result (Some (breaks_i4 info))) }
{
    Ok(
        object_names_clash::<Table>(alloc, message, 2)?
            || object_names_clash::<Action>(alloc, message, 3)?
            || object_names_clash::<ActionProfile>(alloc, message, 4)?
            || object_names_clash::<Counter>(alloc, message, 5)?
            || object_names_clash::<DirectCounter>(alloc, message, 6)?
            || object_names_clash::<ControllerPacketMetadata>(alloc, message, 9)?
            || object_names_clash::<Digest>(alloc, message, 12)?,
    )
}

/// Whether a part has a width below 1 or above 128.
struct NarrowOrWide;

impl Question<Table> for NarrowOrWide {
    ghost meaning = { table_of };

    ghost answer = { λ _ table. list_any (λ x. is_none (width_of x.bitwidth)) table.match_fields };

    #[tactic(auto, unfolding(p4v1_read::specs::P4Infos::table_of))]
    fn ask(&self, alloc: Global, message: &Message<'_>) -> Result<bool, Refusal<Unreadable>> {
        any::<MatchField, NoWidth>(&NoWidth, alloc, message, 2)
    }
}

impl Question<Action> for NarrowOrWide {
    ghost meaning = { action_of };

    ghost answer = { λ _ action. list_any (λ x. is_none (width_of x.bitwidth)) action.params };

    #[tactic(auto, unfolding(p4v1_read::specs::P4Infos::action_of))]
    fn ask(&self, alloc: Global, message: &Message<'_>) -> Result<bool, Refusal<Unreadable>> {
        any::<Param, NoWidth>(&NoWidth, alloc, message, 2)
    }
}

impl Question<ControllerPacketMetadata> for NarrowOrWide {
    ghost meaning = { controller_packet_metadata_of };

    ghost answer = { λ _ header. list_any (λ x. is_none (width_of x.bitwidth)) header.metadata };

    #[tactic(auto, unfolding(p4v1_read::specs::P4Infos::controller_packet_metadata_of))]
    fn ask(&self, alloc: Global, message: &Message<'_>) -> Result<bool, Refusal<Unreadable>> {
        any::<Metadata, NoWidth>(&NoWidth, alloc, message, 2)
    }
}

/// I6: a bit width is below 1 or above 128.
#[tactic(auto, unfolding(p4v1_read::specs::P4Infos::p4info_of))]
pub(crate) fn breaks_i6(alloc: Global, message: &Message<'_>) -> Result<bool, Refusal<Unreadable>>
    ensures { IfSome (p4info_of message.now) (λ info. ReadsInMemory (λ x. x) result (Some (breaks_i6 info))) }
{
    Ok(
        any::<Table, NarrowOrWide>(&NarrowOrWide, alloc, message, 2)?
            || any::<Action, NarrowOrWide>(&NarrowOrWide, alloc, message, 3)?
            || any::<ControllerPacketMetadata, NarrowOrWide>(&NarrowOrWide, alloc, message, 9)?,
    )
}

/// Whether a match kind or scope is unknown, or the ids of parts are 0 or occur twice.
struct UnknownOrTwice;

impl Question<Table> for UnknownOrTwice {
    ghost meaning = { table_of };

    ghost answer = { λ _ table. table_breaks_i7 table };

    #[tactic(auto, unfolding(p4v1_read::specs::P4Infos::table_of))]
    fn ask(&self, alloc: Global, message: &Message<'_>) -> Result<bool, Refusal<Unreadable>> {
        Ok(
            any::<MatchField, UnknownKind>(&UnknownKind, alloc, message, 2)?
                || any::<ActionRef, UnknownScope>(&UnknownScope, alloc, message, 3)?
                || part_ids_clash::<MatchField>(alloc, message, 2)?,
        )
    }
}

impl Question<Action> for UnknownOrTwice {
    ghost meaning = { action_of };

    ghost answer = { λ _ action. ids_clash (map (λ x. x.id) action.params) };

    #[tactic(auto, unfolding(p4v1_read::specs::P4Infos::action_of))]
    fn ask(&self, alloc: Global, message: &Message<'_>) -> Result<bool, Refusal<Unreadable>> {
        part_ids_clash::<Param>(alloc, message, 2)
    }
}

impl Question<ControllerPacketMetadata> for UnknownOrTwice {
    ghost meaning = { controller_packet_metadata_of };

    ghost answer = { λ _ header. ids_clash (map (λ x. x.id) header.metadata) };

    #[tactic(auto, unfolding(p4v1_read::specs::P4Infos::controller_packet_metadata_of))]
    fn ask(&self, alloc: Global, message: &Message<'_>) -> Result<bool, Refusal<Unreadable>> {
        part_ids_clash::<Metadata>(alloc, message, 2)
    }
}

/// I7: a match kind or scope is unknown, or ids of fields, parameters or metadata are 0 or occur twice in their object.
#[tactic(auto, unfolding(p4v1_read::specs::P4Infos::p4info_of))]
pub(crate) fn breaks_i7(alloc: Global, message: &Message<'_>) -> Result<bool, Refusal<Unreadable>>
    ensures { IfSome (p4info_of message.now) (λ info. ReadsInMemory (λ x. x) result (Some (breaks_i7 info))) }
{
    Ok(
        any::<Table, UnknownOrTwice>(&UnknownOrTwice, alloc, message, 2)?
            || any::<Action, UnknownOrTwice>(&UnknownOrTwice, alloc, message, 3)?
            || any::<ControllerPacketMetadata, UnknownOrTwice>(&UnknownOrTwice, alloc, message, 9)?,
    )
}

/// Whether a size is negative, or there are more parts than there may be.
struct TooMuch;

impl Question<Table> for TooMuch {
    ghost meaning = { table_of };

    ghost answer = { λ _ table. table_breaks_i8 table };

    #[tactic(auto, unfolding(p4v1_read::specs::P4Infos::table_of))]
    fn ask(&self, _: Global, message: &Message<'_>) -> Result<bool, Refusal<Unreadable>> {
        Ok(
            numbers::size_of(message.int64(8)?).is_none()
                || exceeds::<MatchField>(message, 2, MATCH_FIELDS)?,
        )
    }
}

impl Question<Action> for TooMuch {
    ghost meaning = { action_of };

    ghost answer = { λ _ action. nat_lt 8 (length action.params) };

    #[tactic(auto, unfolding(p4v1_read::specs::P4Infos::action_of))]
    fn ask(&self, _: Global, message: &Message<'_>) -> Result<bool, Refusal<Unreadable>> {
        Ok(exceeds::<Param>(message, 2, PARAMS)?)
    }
}

impl Question<ActionProfile> for TooMuch {
    ghost meaning = { action_profile_of };

    ghost answer = { λ _ profile. profile_breaks_i8 profile };

    #[tactic(auto, unfolding(p4v1_read::specs::P4Infos::action_profile_of))]
    fn ask(&self, _: Global, message: &Message<'_>) -> Result<bool, Refusal<Unreadable>> {
        Ok(
            numbers::size_of(message.int64(4)?).is_none()
                || numbers::small_size_of(message.int32(5)?).is_none(),
        )
    }
}

impl Question<Counter> for TooMuch {
    ghost meaning = { counter_of };

    ghost answer = { λ _ counter. is_none (size_of counter.size) };

    #[tactic(auto, unfolding(p4v1_read::specs::P4Infos::counter_of))]
    fn ask(&self, _: Global, message: &Message<'_>) -> Result<bool, Refusal<Unreadable>> {
        Ok(numbers::size_of(message.int64(3)?).is_none())
    }
}

impl Question<ControllerPacketMetadata> for TooMuch {
    ghost meaning = { controller_packet_metadata_of };

    ghost answer = { λ _ header. nat_lt 128 (length header.metadata) };

    #[tactic(auto, unfolding(p4v1_read::specs::P4Infos::controller_packet_metadata_of))]
    fn ask(&self, _: Global, message: &Message<'_>) -> Result<bool, Refusal<Unreadable>> {
        Ok(exceeds::<Metadata>(message, 2, HEADER_FIELDS)?)
    }
}

#[tactic(auto, unfolding(p4v1_read::specs::P4Infos::p4info_of))]
fn exceeds_limits(message: &Message<'_>) -> Result<bool, Unreadable>
    ensures { IfSome (p4info_of message.now) (λ info. Reads (λ x. x) result (Some (exceeds_limits info))) }
{
    Ok(
        exceeds::<Table>(message, 2, TABLES)?
            || exceeds::<Action>(message, 3, ACTIONS)?
            || exceeds::<ActionProfile>(message, 4, OBJECTS)?
            || exceeds::<Counter>(message, 5, OBJECTS)?
            || exceeds::<DirectCounter>(message, 6, OBJECTS)?
            || exceeds::<ControllerPacketMetadata>(message, 9, OBJECTS)?
            || exceeds::<Digest>(message, 12, OBJECTS)?,
    )
}

/// I8: a size is negative, or a limit is exceeded.
#[tactic(auto, unfolding(p4v1_read::specs::P4Infos::p4info_of))]
pub(crate) fn breaks_i8(alloc: Global, message: &Message<'_>) -> Result<bool, Refusal<Unreadable>>
    ensures { IfSome (p4info_of message.now) (λ info. ReadsInMemory (λ x. x) result (Some (breaks_i8 info))) }
{
    Ok(
        exceeds_limits(message)?
            || any::<Table, TooMuch>(&TooMuch, alloc, message, 2)?
            || any::<Action, TooMuch>(&TooMuch, alloc, message, 3)?
            || any::<ActionProfile, TooMuch>(&TooMuch, alloc, message, 4)?
            || any::<Counter, TooMuch>(&TooMuch, alloc, message, 5)?
            || any::<ControllerPacketMetadata, TooMuch>(&TooMuch, alloc, message, 9)?,
    )
}

#[tactic(auto, unfolding(p4v1_read::specs::P4Infos::match_field_of))]
fn is_lpm(message: &Message<'_>) -> Result<bool, Unreadable>
    ensures { IfSome (match_field_of message.now) (λ field. Reads (λ x. x) result (Some (is_lpm (kind_of field.match_type)))) }
{
    Ok(matches!(numbers::kind_of(message.int32(5)?), Some(MatchKind::Lpm)))
}

#[tactic(auto, unfolding(p4v1_read::specs::Nested::all_at, wire_messages::specs::Message::messages_at))]
fn two_lpm(message: &Message<'_>) -> Result<bool, Unreadable>
    ensures { IfSome (all_at match_field_of 2 message.now) (λ fields. Reads (λ x. x) result
        (Some (nat_lt 1 (count_by (λ x. is_lpm (kind_of x.match_type)) fields)))) }
{
    let mut found = false;
    let mut left = message.messages(2);
    'messages: while let Some(bytes) = left.next()? {
        if is_lpm(&opened(bytes)?)? {
            if found {
                return Ok(true);
            }
            found = true;
        }
    }
    Ok(false)
}

/// Whether a table has two LPM fields.
struct TwoLpm;

impl Question<Table> for TwoLpm {
    ghost meaning = { table_of };

    ghost answer = { λ _ table. has_two_lpm table };

    #[tactic(auto, unfolding(p4v1_read::specs::P4Infos::table_of))]
    fn ask(&self, _: Global, message: &Message<'_>) -> Result<bool, Refusal<Unreadable>> {
        Ok(two_lpm(message)?)
    }
}

#[tactic(auto, unfolding(p4v1_read::specs::P4Infos::metadata_of))]
fn bits(message: &Message<'_>) -> Result<u32, Unreadable>
    ensures bits { IfSome (metadata_of message.now) (λ field. Reads (λ x. x) result (Some (unwrap_or (width_of field.bitwidth) 0))) }
    ensures few { IfOk result (λ bits. bits ≤ 128) }
{
    Ok(numbers::width_of(message.int32(4)?).unwrap_or(0))
}

// The bits of a controller header that are beyond its whole bytes.
#[tactic(auto, unfolding(p4v1_read::specs::Nested::all_at, wire_messages::specs::Message::messages_at))]
fn bits_beyond_bytes(message: &Message<'_>) -> Result<u32, Unreadable>
    ensures { IfSome (all_at metadata_of 2 message.now) (λ fields. Reads (λ x. x) result
        (Some (sum_by (λ x. unwrap_or (width_of x.bitwidth) 0) fields % 8))) }
{
    let mut beyond = 0;
    let mut left = message.messages(2);
    'messages: while let Some(bytes) = left.next()? {
        beyond = (beyond + bits(&opened(bytes)?)?) % 8;
    }
    Ok(beyond)
}

/// Whether a controller header's bits are not whole bytes.
struct NoWholeBytes;

impl Question<ControllerPacketMetadata> for NoWholeBytes {
    ghost meaning = { controller_packet_metadata_of };

    ghost answer = { λ _ header. not (bits_of header % 8 == 0) };

    #[tactic(auto, unfolding(p4v1_read::specs::P4Infos::controller_packet_metadata_of))]
    fn ask(&self, _: Global, message: &Message<'_>) -> Result<bool, Refusal<Unreadable>> {
        Ok(bits_beyond_bytes(message)? != 0)
    }
}

/// I9: a table has two LPM fields, or a controller header's bits are not whole bytes.
#[tactic(auto, unfolding(p4v1_read::specs::P4Infos::p4info_of))]
pub(crate) fn breaks_i9(alloc: Global, message: &Message<'_>) -> Result<bool, Refusal<Unreadable>>
    ensures { IfSome (p4info_of message.now) (λ info. ReadsInMemory (λ x. x) result (Some (breaks_i9 info))) }
{
    Ok(
        any::<Table, TwoLpm>(&TwoLpm, alloc, message, 2)?
            || any::<ControllerPacketMetadata, NoWholeBytes>(&NoWholeBytes, alloc, message, 9)?,
    )
}
