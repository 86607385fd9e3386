//! Entities, each read by the fields of its message.
ghost use Rattle.std.specs.Prelude.{◌≡◌, [], ◌∷◌};
ghost use Rattle.p4v1_read.specs.Entities.{param_of, action_of, exact_of, ternary_of, lpm_of, range_of, optional_of, kind_by, kind_of, field_match_of, profile_action_of, action_set_of, table_action_by, table_action_of, counter_data_of, table_entry_of, profile_member_of, group_member_of, profile_group_of, index_of, counter_entry_of, direct_counter_entry_of, replica_of, multicast_group_of, replication_entry_of, digest_config_of, digest_entry_of, entity_by, entity_of};
ghost use Rattle.wire_messages.specs.Answers.{ReadsInMemory};
ghost use Rattle.p4v1_read.specs.Nested.{member_at};

use crate::reading;
use crate::reading::Readable;
use list_types::Refusal;
use p4_types::messages::{
    Action, ActionProfileAction, ActionProfileActionSet, ActionProfileGroup, ActionProfileMember,
    CounterData, CounterEntry, DigestConfig, DigestEntry, DirectCounterEntry, Entity, FieldMatch,
    FieldMatchKind, Index, Member, MulticastGroupEntry, PacketReplicationEngineEntry, Param,
    Replica, TableAction, TableEntry,
};
use std::alloc::Global;
use wire_messages::{Message, Unreadable};

impl Readable for Param {
    ghost meaning = { param_of };

    #[tactic(auto, unfolding(crate::specs::Entities::param_of))]
    fn read(alloc: Global, message: &Message<'_>) -> Result<Param, Refusal<Unreadable>> {
        let param_id = message.uint32(2)?;
        let value = reading::bytes(alloc, message, 3)?;
        Ok(Param { param_id, value })
    }
}

impl Readable for Action {
    ghost meaning = { action_of };

    #[tactic(auto, unfolding(crate::specs::Entities::action_of))]
    fn read(alloc: Global, message: &Message<'_>) -> Result<Action, Refusal<Unreadable>> {
        let action_id = message.uint32(1)?;
        let params = reading::all(alloc, message, 4)?;
        Ok(Action { action_id, params })
    }
}

#[tactic(auto, unfolding(crate::specs::Nested::member_at, crate::specs::Entities::exact_of))]
fn exact(alloc: Global, message: &Message<'_>) -> Result<FieldMatchKind, Refusal<Unreadable>>
    ensures { ReadsInMemory (λ x. x) result (member_at exact_of 2 message.now) }
{
    let inside = reading::inside(message, 2)?;
    let value = reading::bytes(alloc, &inside, 1)?;
    Ok(FieldMatchKind::Exact { value })
}

#[tactic(auto, unfolding(crate::specs::Nested::member_at, crate::specs::Entities::ternary_of))]
fn ternary(alloc: Global, message: &Message<'_>) -> Result<FieldMatchKind, Refusal<Unreadable>>
    ensures { ReadsInMemory (λ x. x) result (member_at ternary_of 3 message.now) }
{
    let inside = reading::inside(message, 3)?;
    let value = reading::bytes(alloc, &inside, 1)?;
    let mask = reading::bytes(alloc, &inside, 2)?;
    Ok(FieldMatchKind::Ternary { value, mask })
}

#[tactic(auto, unfolding(crate::specs::Nested::member_at, crate::specs::Entities::lpm_of))]
fn lpm(alloc: Global, message: &Message<'_>) -> Result<FieldMatchKind, Refusal<Unreadable>>
    ensures { ReadsInMemory (λ x. x) result (member_at lpm_of 4 message.now) }
{
    let inside = reading::inside(message, 4)?;
    let value = reading::bytes(alloc, &inside, 1)?;
    let prefix_len = inside.int32(2)?;
    Ok(FieldMatchKind::Lpm { value, prefix_len })
}

#[tactic(auto, unfolding(crate::specs::Nested::member_at, crate::specs::Entities::range_of))]
fn range(alloc: Global, message: &Message<'_>) -> Result<FieldMatchKind, Refusal<Unreadable>>
    ensures { ReadsInMemory (λ x. x) result (member_at range_of 6 message.now) }
{
    let inside = reading::inside(message, 6)?;
    let low = reading::bytes(alloc, &inside, 1)?;
    let high = reading::bytes(alloc, &inside, 2)?;
    Ok(FieldMatchKind::Range { low, high })
}

#[tactic(auto, unfolding(crate::specs::Nested::member_at, crate::specs::Entities::optional_of))]
fn optional(alloc: Global, message: &Message<'_>) -> Result<FieldMatchKind, Refusal<Unreadable>>
    ensures { ReadsInMemory (λ x. x) result (member_at optional_of 7 message.now) }
{
    let inside = reading::inside(message, 7)?;
    let value = reading::bytes(alloc, &inside, 1)?;
    Ok(FieldMatchKind::Optional { value })
}

#[tactic(auto, unfolding(crate::specs::Entities::kind_by))]
fn kind_of_member(
    alloc: Global,
    message: &Message<'_>,
    member: u32,
) -> Result<FieldMatchKind, Refusal<Unreadable>>
    ensures { ReadsInMemory (λ x. x) result (kind_by message.now member) }
{
    match member {
        2 => exact(alloc, message),
        3 => ternary(alloc, message),
        4 => lpm(alloc, message),
        6 => range(alloc, message),
        7 => optional(alloc, message),
        _ => Err(Refusal::For(Unreadable)),
    }
}

#[tactic(auto, unfolding(crate::specs::Entities::kind_of))]
fn kind(alloc: Global, message: &Message<'_>) -> Result<Option<FieldMatchKind>, Refusal<Unreadable>>
    ensures { ReadsInMemory (λ x. x) result (kind_of message.now) }
{
    match message.choice(&[2, 3, 4, 6, 7])? {
        Some(member) => Ok(Some(kind_of_member(alloc, message, member)?)),
        None => Ok(None),
    }
}

impl Readable for FieldMatch {
    ghost meaning = { field_match_of };

    #[tactic(auto, unfolding(crate::specs::Entities::field_match_of))]
    fn read(alloc: Global, message: &Message<'_>) -> Result<FieldMatch, Refusal<Unreadable>> {
        let field_id = message.uint32(1)?;
        let kind = kind(alloc, message)?;
        Ok(FieldMatch { field_id, kind })
    }
}

impl Readable for ActionProfileAction {
    ghost meaning = { profile_action_of };

    #[tactic(auto, unfolding(crate::specs::Entities::profile_action_of))]
    fn read(
        alloc: Global,
        message: &Message<'_>,
    ) -> Result<ActionProfileAction, Refusal<Unreadable>> {
        let action = reading::one(alloc, message, 1)?;
        let weight = message.int32(2)?;
        let watch = message.uint32(3)?;
        let watch_port = reading::bytes(alloc, message, 4)?;
        Ok(ActionProfileAction {
            action,
            weight,
            watch,
            watch_port,
        })
    }
}

impl Readable for ActionProfileActionSet {
    ghost meaning = { action_set_of };

    #[tactic(auto, unfolding(crate::specs::Entities::action_set_of))]
    fn read(
        alloc: Global,
        message: &Message<'_>,
    ) -> Result<ActionProfileActionSet, Refusal<Unreadable>> {
        let action_profile_actions = reading::all(alloc, message, 1)?;
        Ok(ActionProfileActionSet {
            action_profile_actions,
        })
    }
}

#[tactic(auto, unfolding(crate::specs::Entities::table_action_by))]
fn table_action(
    alloc: Global,
    message: &Message<'_>,
    member: u32,
) -> Result<TableAction, Refusal<Unreadable>>
    ensures { ReadsInMemory (λ x. x) result (table_action_by message.now member) }
{
    match member {
        1 => Ok(TableAction::Action(reading::member(alloc, message, 1)?)),
        2 => Ok(TableAction::ActionProfileMemberId(message.uint32(2)?)),
        3 => Ok(TableAction::ActionProfileGroupId(message.uint32(3)?)),
        4 => Ok(TableAction::ActionProfileActionSet(reading::member(alloc, message, 4)?)),
        _ => Err(Refusal::For(Unreadable)),
    }
}

impl Readable for Option<TableAction> {
    ghost meaning = { table_action_of };

    #[tactic(auto, unfolding(crate::specs::Entities::table_action_of))]
    fn read(
        alloc: Global,
        message: &Message<'_>,
    ) -> Result<Option<TableAction>, Refusal<Unreadable>> {
        match message.choice(&[1, 2, 3, 4])? {
            Some(member) => Ok(Some(table_action(alloc, message, member)?)),
            None => Ok(None),
        }
    }
}

impl Readable for CounterData {
    ghost meaning = { counter_data_of };

    #[tactic(auto, unfolding(crate::specs::Entities::counter_data_of))]
    fn read(alloc: Global, message: &Message<'_>) -> Result<CounterData, Refusal<Unreadable>> {
        let byte_count = message.int64(1)?;
        let packet_count = message.int64(2)?;
        Ok(CounterData {
            byte_count,
            packet_count,
        })
    }
}

impl Readable for TableEntry {
    ghost meaning = { table_entry_of };

    #[tactic(auto, unfolding(crate::specs::Entities::table_entry_of))]
    fn read(alloc: Global, message: &Message<'_>) -> Result<TableEntry, Refusal<Unreadable>> {
        let table_id = message.uint32(1)?;
        let matches = reading::all(alloc, message, 2)?;
        let action = reading::one(alloc, message, 3)?;
        let priority = message.int32(4)?;
        let controller_metadata = message.uint64(5)?;
        let meter_config = reading::opaque(message, 6)?;
        let counter_data = reading::one(alloc, message, 7)?;
        let is_default_action = message.boolean(8)?;
        let idle_timeout_ns = message.int64(9)?;
        let time_since_last_hit = reading::opaque(message, 10)?;
        Ok(TableEntry {
            table_id,
            matches,
            action,
            priority,
            controller_metadata,
            meter_config,
            counter_data,
            is_default_action,
            idle_timeout_ns,
            time_since_last_hit,
        })
    }
}

impl Readable for ActionProfileMember {
    ghost meaning = { profile_member_of };

    #[tactic(auto, unfolding(crate::specs::Entities::profile_member_of))]
    fn read(
        alloc: Global,
        message: &Message<'_>,
    ) -> Result<ActionProfileMember, Refusal<Unreadable>> {
        let action_profile_id = message.uint32(1)?;
        let member_id = message.uint32(2)?;
        let action = reading::one(alloc, message, 3)?;
        Ok(ActionProfileMember {
            action_profile_id,
            member_id,
            action,
        })
    }
}

impl Readable for Member {
    ghost meaning = { group_member_of };

    #[tactic(auto, unfolding(crate::specs::Entities::group_member_of))]
    fn read(alloc: Global, message: &Message<'_>) -> Result<Member, Refusal<Unreadable>> {
        let member_id = message.uint32(1)?;
        let weight = message.int32(2)?;
        let watch = message.uint32(3)?;
        let watch_port = reading::bytes(alloc, message, 4)?;
        Ok(Member {
            member_id,
            weight,
            watch,
            watch_port,
        })
    }
}

impl Readable for ActionProfileGroup {
    ghost meaning = { profile_group_of };

    #[tactic(auto, unfolding(crate::specs::Entities::profile_group_of))]
    fn read(
        alloc: Global,
        message: &Message<'_>,
    ) -> Result<ActionProfileGroup, Refusal<Unreadable>> {
        let action_profile_id = message.uint32(1)?;
        let group_id = message.uint32(2)?;
        let members = reading::all(alloc, message, 3)?;
        let max_size = message.int32(4)?;
        Ok(ActionProfileGroup {
            action_profile_id,
            group_id,
            members,
            max_size,
        })
    }
}

impl Readable for Index {
    ghost meaning = { index_of };

    #[tactic(auto, unfolding(crate::specs::Entities::index_of))]
    fn read(alloc: Global, message: &Message<'_>) -> Result<Index, Refusal<Unreadable>> {
        let index = message.int64(1)?;
        Ok(Index { index })
    }
}

impl Readable for CounterEntry {
    ghost meaning = { counter_entry_of };

    #[tactic(auto, unfolding(crate::specs::Entities::counter_entry_of))]
    fn read(alloc: Global, message: &Message<'_>) -> Result<CounterEntry, Refusal<Unreadable>> {
        let counter_id = message.uint32(1)?;
        let index = reading::one(alloc, message, 2)?;
        let content = reading::one(alloc, message, 3)?;
        Ok(CounterEntry {
            counter_id,
            index,
            content,
        })
    }
}

impl Readable for DirectCounterEntry {
    ghost meaning = { direct_counter_entry_of };

    #[tactic(auto, unfolding(crate::specs::Entities::direct_counter_entry_of))]
    fn read(
        alloc: Global,
        message: &Message<'_>,
    ) -> Result<DirectCounterEntry, Refusal<Unreadable>> {
        let table_entry = reading::one(alloc, message, 1)?;
        let content = reading::one(alloc, message, 2)?;
        Ok(DirectCounterEntry {
            table_entry,
            content,
        })
    }
}

impl Readable for Replica {
    ghost meaning = { replica_of };

    #[tactic(auto, unfolding(crate::specs::Entities::replica_of))]
    fn read(alloc: Global, message: &Message<'_>) -> Result<Replica, Refusal<Unreadable>> {
        let egress_port = message.uint32(1)?;
        let instance = message.uint32(2)?;
        Ok(Replica {
            egress_port,
            instance,
        })
    }
}

impl Readable for MulticastGroupEntry {
    ghost meaning = { multicast_group_of };

    #[tactic(auto, unfolding(crate::specs::Entities::multicast_group_of))]
    fn read(
        alloc: Global,
        message: &Message<'_>,
    ) -> Result<MulticastGroupEntry, Refusal<Unreadable>> {
        let multicast_group_id = message.uint32(1)?;
        let replicas = reading::all(alloc, message, 2)?;
        Ok(MulticastGroupEntry {
            multicast_group_id,
            replicas,
        })
    }
}

impl Readable for PacketReplicationEngineEntry {
    ghost meaning = { replication_entry_of };

    #[tactic(auto, unfolding(crate::specs::Entities::replication_entry_of))]
    fn read(
        alloc: Global,
        message: &Message<'_>,
    ) -> Result<PacketReplicationEngineEntry, Refusal<Unreadable>> {
        let multicast_group_entry = reading::one(alloc, message, 1)?;
        Ok(PacketReplicationEngineEntry {
            multicast_group_entry,
        })
    }
}

impl Readable for DigestConfig {
    ghost meaning = { digest_config_of };

    #[tactic(auto, unfolding(crate::specs::Entities::digest_config_of))]
    fn read(alloc: Global, message: &Message<'_>) -> Result<DigestConfig, Refusal<Unreadable>> {
        let max_timeout_ns = message.int64(1)?;
        let max_list_size = message.int32(2)?;
        let ack_timeout_ns = message.int64(3)?;
        Ok(DigestConfig {
            max_timeout_ns,
            max_list_size,
            ack_timeout_ns,
        })
    }
}

const NO_DIGEST_CONFIG: DigestConfig = DigestConfig {
    max_timeout_ns: 0,
    max_list_size: 0,
    ack_timeout_ns: 0,
};

impl Readable for DigestEntry {
    ghost meaning = { digest_entry_of };

    #[tactic(auto, unfolding(crate::specs::Entities::digest_entry_of))]
    fn read(alloc: Global, message: &Message<'_>) -> Result<DigestEntry, Refusal<Unreadable>> {
        let digest_id = message.uint32(1)?;
        let config = reading::one(alloc, message, 2)?.unwrap_or(NO_DIGEST_CONFIG);
        Ok(DigestEntry { digest_id, config })
    }
}

#[tactic(auto, unfolding(crate::specs::Entities::entity_by))]
fn entity(alloc: Global, message: &Message<'_>, member: u32) -> Result<Entity, Refusal<Unreadable>>
    ensures { ReadsInMemory (λ x. x) result (entity_by message.now member) }
{
    match member {
        2 => Ok(Entity::TableEntry(reading::member(alloc, message, 2)?)),
        3 => Ok(Entity::ActionProfileMember(reading::member(alloc, message, 3)?)),
        4 => Ok(Entity::ActionProfileGroup(reading::member(alloc, message, 4)?)),
        7 => Ok(Entity::CounterEntry(reading::member(alloc, message, 7)?)),
        8 => Ok(Entity::DirectCounterEntry(reading::member(alloc, message, 8)?)),
        9 => Ok(Entity::PacketReplicationEngineEntry(reading::member(alloc, message, 9)?)),
        12 => Ok(Entity::DigestEntry(reading::member(alloc, message, 12)?)),
        _ => {
            message.message(member)?;
            Ok(Entity::Other(member))
        }
    }
}

impl Readable for Option<Entity> {
    ghost meaning = { entity_of };

    #[tactic(auto, unfolding(crate::specs::Entities::entity_of))]
    fn read(alloc: Global, message: &Message<'_>) -> Result<Option<Entity>, Refusal<Unreadable>> {
        match message.choice(&[1, 2, 3, 4, 5, 6, 7, 8, 9, 10, 11, 12])? {
            Some(member) => Ok(Some(entity(alloc, message, member)?)),
            None => Ok(None),
        }
    }
}
