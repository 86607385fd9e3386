//! Entities, each written by the rows of its message.
ghost use Rattle.std.specs.Prelude.{◌≡◌};
ghost use Rattle.p4v1_wire.specs.EntityRows.{ActionInRange, ActionSetInRange, CounterDataInRange, CounterEntryInRange, DigestConfigInRange, DigestEntryInRange, DirectCounterEntryInRange, EntityInRange, FieldMatchInRange, GroupMemberInRange, IndexInRange, KindChoiceInRange, KindInRange, MulticastGroupInRange, ParamInRange, ProfileActionInRange, ProfileGroupInRange, ProfileMemberInRange, ReplicaInRange, ReplicationEntryInRange, TableActionInRange, TableEntryInRange, action_rows, action_set_rows, counter_data_rows, counter_entry_rows, digest_config_rows, digest_entry_rows, direct_counter_entry_rows, entity_rows, field_match_rows, group_member_rows, index_rows, kind_choice_rows, kind_rows, param_rows, profile_action_rows, profile_group_rows, profile_member_rows, table_action_rows, table_entry_rows, multicast_group_rows, replica_rows, replication_entry_rows};
ghost use Rattle.std.specs.Prelude.{OnOk};
ghost use Rattle.p4v1_wire.specs.EntityRows.{kind_member};
ghost use Rattle.wire_messages.specs.Written.{with_rows};

use crate::writing;
use crate::writing::Writable;
use list_types::NoMemory;
use p4_types::messages::{
    Action, ActionProfileAction, ActionProfileActionSet, ActionProfileGroup, ActionProfileMember,
    CounterData, CounterEntry, DigestConfig, DigestEntry, DirectCounterEntry, Entity, FieldMatch,
    FieldMatchKind, Index, Member, MulticastGroupEntry, PacketReplicationEngineEntry, Param,
    Replica, TableAction, TableEntry,
};
use std::alloc::Global;
use wire_fields::Writer;
use wire_messages::write;

impl Writable for Param {
    ghost rows = { param_rows };

    ghost in_range = { ParamInRange };

    #[tactic(auto, unfolding(crate::specs::EntityRows::param_rows, crate::specs::EntityRows::ParamInRange))]
    fn write(&self, alloc: Global, writer: &mut Writer) -> Result<(), NoMemory> {
        write::uint32(writer, 2, self.param_id)?;
        write::bytes(writer, 3, self.value.as_slice())?;
        Ok(())
    }
}

impl Writable for Action {
    ghost rows = { action_rows };

    ghost in_range = { ActionInRange };

    #[tactic(auto, unfolding(crate::specs::EntityRows::action_rows, crate::specs::EntityRows::ActionInRange))]
    fn write(&self, alloc: Global, writer: &mut Writer) -> Result<(), NoMemory> {
        write::uint32(writer, 1, self.action_id)?;
        writing::messages(alloc, writer, 4, self.params.as_slice())?;
        Ok(())
    }
}

impl Writable for FieldMatchKind {
    ghost rows = { kind_rows };

    ghost in_range = { KindInRange };

    #[tactic(auto, unfolding(crate::specs::EntityRows::kind_rows))]
    fn write(&self, _alloc: Global, writer: &mut Writer) -> Result<(), NoMemory> {
        match self {
            FieldMatchKind::Exact { value } => write::bytes(writer, 1, value.as_slice()),
            FieldMatchKind::Ternary { value, mask } => {
                write::bytes(writer, 1, value.as_slice())?;
                write::bytes(writer, 2, mask.as_slice())
            }
            FieldMatchKind::Lpm { value, prefix_len } => {
                write::bytes(writer, 1, value.as_slice())?;
                write::int32(writer, 2, *prefix_len)
            }
            FieldMatchKind::Range { low, high } => {
                write::bytes(writer, 1, low.as_slice())?;
                write::bytes(writer, 2, high.as_slice())
            }
            FieldMatchKind::Optional { value } => write::bytes(writer, 1, value.as_slice()),
        }
    }
}

fn kind_member(kind: &FieldMatchKind) -> u32
    ensures { result ≡ kind_member kind.now }
{
    match kind {
        FieldMatchKind::Exact { .. } => 2,
        FieldMatchKind::Ternary { .. } => 3,
        FieldMatchKind::Lpm { .. } => 4,
        FieldMatchKind::Range { .. } => 6,
        FieldMatchKind::Optional { .. } => 7,
    }
}

#[tactic(auto, unfolding(crate::specs::EntityRows::kind_choice_rows))]
fn kind_choice(
    alloc: Global,
    writer: &mut Writer,
    kind: &Option<FieldMatchKind>,
) -> Result<(), NoMemory>
    ensures ok { OnOk result (writer.new ≡ with_rows writer.old (kind_choice_rows kind.now)) }
    ensures in_range { OnOk result (KindChoiceInRange kind.now) }
{
    match kind {
        Some(kind) => writing::member(alloc, writer, kind_member(kind), kind),
        None => Ok(()),
    }
}

impl Writable for FieldMatch {
    ghost rows = { field_match_rows };

    ghost in_range = { FieldMatchInRange };

    #[tactic(auto, unfolding(crate::specs::EntityRows::field_match_rows, crate::specs::EntityRows::FieldMatchInRange))]
    fn write(&self, alloc: Global, writer: &mut Writer) -> Result<(), NoMemory> {
        write::uint32(writer, 1, self.field_id)?;
        kind_choice(alloc, writer, &self.kind)?;
        Ok(())
    }
}

impl Writable for ActionProfileAction {
    ghost rows = { profile_action_rows };

    ghost in_range = { ProfileActionInRange };

    #[tactic(auto, unfolding(crate::specs::EntityRows::profile_action_rows, crate::specs::EntityRows::ProfileActionInRange))]
    fn write(&self, alloc: Global, writer: &mut Writer) -> Result<(), NoMemory> {
        writing::optional(alloc, writer, 1, &self.action)?;
        write::int32(writer, 2, self.weight)?;
        write::uint32(writer, 3, self.watch)?;
        write::bytes(writer, 4, self.watch_port.as_slice())?;
        Ok(())
    }
}

impl Writable for ActionProfileActionSet {
    ghost rows = { action_set_rows };

    ghost in_range = { ActionSetInRange };

    #[tactic(auto, unfolding(crate::specs::EntityRows::action_set_rows, crate::specs::EntityRows::ActionSetInRange))]
    fn write(&self, alloc: Global, writer: &mut Writer) -> Result<(), NoMemory> {
        writing::messages(alloc, writer, 1, self.action_profile_actions.as_slice())?;
        Ok(())
    }
}

impl Writable for CounterData {
    ghost rows = { counter_data_rows };

    ghost in_range = { CounterDataInRange };

    #[tactic(auto, unfolding(crate::specs::EntityRows::counter_data_rows, crate::specs::EntityRows::CounterDataInRange))]
    fn write(&self, alloc: Global, writer: &mut Writer) -> Result<(), NoMemory> {
        write::int64(writer, 1, self.byte_count)?;
        write::int64(writer, 2, self.packet_count)?;
        Ok(())
    }
}

impl Writable for Option<TableAction> {
    ghost rows = { table_action_rows };

    ghost in_range = { TableActionInRange };

    #[tactic(auto, unfolding(crate::specs::EntityRows::table_action_rows, crate::specs::EntityRows::TableActionInRange))]
    fn write(&self, alloc: Global, writer: &mut Writer) -> Result<(), NoMemory> {
        match self {
            None => Ok(()),
            Some(TableAction::Action(action)) => writing::member(alloc, writer, 1, action),
            Some(TableAction::ActionProfileMemberId(id)) => write::chosen_uint32(writer, 2, *id),
            Some(TableAction::ActionProfileGroupId(id)) => write::chosen_uint32(writer, 3, *id),
            Some(TableAction::ActionProfileActionSet(set)) => {
                writing::member(alloc, writer, 4, set)
            }
        }
    }
}

impl Writable for TableEntry {
    ghost rows = { table_entry_rows };

    ghost in_range = { TableEntryInRange };

    #[tactic(auto, unfolding(crate::specs::EntityRows::table_entry_rows, crate::specs::EntityRows::TableEntryInRange))]
    fn write(&self, alloc: Global, writer: &mut Writer) -> Result<(), NoMemory> {
        write::uint32(writer, 1, self.table_id)?;
        writing::messages(alloc, writer, 2, self.matches.as_slice())?;
        writing::optional(alloc, writer, 3, &self.action)?;
        write::int32(writer, 4, self.priority)?;
        write::uint64(writer, 5, self.controller_metadata)?;
        writing::empty(writer, 6, self.meter_config)?;
        writing::optional(alloc, writer, 7, &self.counter_data)?;
        write::boolean(writer, 8, self.is_default_action)?;
        write::int64(writer, 9, self.idle_timeout_ns)?;
        writing::empty(writer, 10, self.time_since_last_hit)?;
        Ok(())
    }
}

impl Writable for ActionProfileMember {
    ghost rows = { profile_member_rows };

    ghost in_range = { ProfileMemberInRange };

    #[tactic(auto, unfolding(crate::specs::EntityRows::profile_member_rows, crate::specs::EntityRows::ProfileMemberInRange))]
    fn write(&self, alloc: Global, writer: &mut Writer) -> Result<(), NoMemory> {
        write::uint32(writer, 1, self.action_profile_id)?;
        write::uint32(writer, 2, self.member_id)?;
        writing::optional(alloc, writer, 3, &self.action)?;
        Ok(())
    }
}

impl Writable for Member {
    ghost rows = { group_member_rows };

    ghost in_range = { GroupMemberInRange };

    #[tactic(auto, unfolding(crate::specs::EntityRows::group_member_rows, crate::specs::EntityRows::GroupMemberInRange))]
    fn write(&self, alloc: Global, writer: &mut Writer) -> Result<(), NoMemory> {
        write::uint32(writer, 1, self.member_id)?;
        write::int32(writer, 2, self.weight)?;
        write::uint32(writer, 3, self.watch)?;
        write::bytes(writer, 4, self.watch_port.as_slice())?;
        Ok(())
    }
}

impl Writable for ActionProfileGroup {
    ghost rows = { profile_group_rows };

    ghost in_range = { ProfileGroupInRange };

    #[tactic(auto, unfolding(crate::specs::EntityRows::profile_group_rows, crate::specs::EntityRows::ProfileGroupInRange))]
    fn write(&self, alloc: Global, writer: &mut Writer) -> Result<(), NoMemory> {
        write::uint32(writer, 1, self.action_profile_id)?;
        write::uint32(writer, 2, self.group_id)?;
        writing::messages(alloc, writer, 3, self.members.as_slice())?;
        write::int32(writer, 4, self.max_size)?;
        Ok(())
    }
}

impl Writable for Index {
    ghost rows = { index_rows };

    ghost in_range = { IndexInRange };

    #[tactic(auto, unfolding(crate::specs::EntityRows::index_rows, crate::specs::EntityRows::IndexInRange))]
    fn write(&self, alloc: Global, writer: &mut Writer) -> Result<(), NoMemory> {
        write::int64(writer, 1, self.index)?;
        Ok(())
    }
}

impl Writable for CounterEntry {
    ghost rows = { counter_entry_rows };

    ghost in_range = { CounterEntryInRange };

    #[tactic(auto, unfolding(crate::specs::EntityRows::counter_entry_rows, crate::specs::EntityRows::CounterEntryInRange))]
    fn write(&self, alloc: Global, writer: &mut Writer) -> Result<(), NoMemory> {
        write::uint32(writer, 1, self.counter_id)?;
        writing::present(alloc, writer, 2, &self.index)?;
        writing::optional(alloc, writer, 3, &self.content)?;
        Ok(())
    }
}

impl Writable for DirectCounterEntry {
    ghost rows = { direct_counter_entry_rows };

    ghost in_range = { DirectCounterEntryInRange };

    #[tactic(auto, unfolding(crate::specs::EntityRows::direct_counter_entry_rows, crate::specs::EntityRows::DirectCounterEntryInRange))]
    fn write(&self, alloc: Global, writer: &mut Writer) -> Result<(), NoMemory> {
        writing::optional(alloc, writer, 1, &self.table_entry)?;
        writing::optional(alloc, writer, 2, &self.content)?;
        Ok(())
    }
}

impl Writable for Replica {
    ghost rows = { replica_rows };

    ghost in_range = { ReplicaInRange };

    #[tactic(auto, unfolding(crate::specs::EntityRows::replica_rows, crate::specs::EntityRows::ReplicaInRange))]
    fn write(&self, alloc: Global, writer: &mut Writer) -> Result<(), NoMemory> {
        write::uint32(writer, 1, self.egress_port)?;
        write::uint32(writer, 2, self.instance)?;
        Ok(())
    }
}

impl Writable for MulticastGroupEntry {
    ghost rows = { multicast_group_rows };

    ghost in_range = { MulticastGroupInRange };

    #[tactic(auto, unfolding(crate::specs::EntityRows::multicast_group_rows, crate::specs::EntityRows::MulticastGroupInRange))]
    fn write(&self, alloc: Global, writer: &mut Writer) -> Result<(), NoMemory> {
        write::uint32(writer, 1, self.multicast_group_id)?;
        writing::messages(alloc, writer, 2, self.replicas.as_slice())?;
        Ok(())
    }
}

impl Writable for PacketReplicationEngineEntry {
    ghost rows = { replication_entry_rows };

    ghost in_range = { ReplicationEntryInRange };

    #[tactic(auto, unfolding(crate::specs::EntityRows::replication_entry_rows, crate::specs::EntityRows::ReplicationEntryInRange))]
    fn write(&self, alloc: Global, writer: &mut Writer) -> Result<(), NoMemory> {
        writing::present(alloc, writer, 1, &self.multicast_group_entry)?;
        Ok(())
    }
}

impl Writable for DigestConfig {
    ghost rows = { digest_config_rows };

    ghost in_range = { DigestConfigInRange };

    #[tactic(auto, unfolding(crate::specs::EntityRows::digest_config_rows, crate::specs::EntityRows::DigestConfigInRange))]
    fn write(&self, alloc: Global, writer: &mut Writer) -> Result<(), NoMemory> {
        write::int64(writer, 1, self.max_timeout_ns)?;
        write::int32(writer, 2, self.max_list_size)?;
        write::int64(writer, 3, self.ack_timeout_ns)?;
        Ok(())
    }
}

impl Writable for DigestEntry {
    ghost rows = { digest_entry_rows };

    ghost in_range = { DigestEntryInRange };

    #[tactic(auto, unfolding(crate::specs::EntityRows::digest_entry_rows, crate::specs::EntityRows::DigestEntryInRange))]
    fn write(&self, alloc: Global, writer: &mut Writer) -> Result<(), NoMemory> {
        write::uint32(writer, 1, self.digest_id)?;
        writing::message(alloc, writer, 2, &self.config)?;
        Ok(())
    }
}

impl Writable for Entity {
    ghost rows = { entity_rows };

    ghost in_range = { EntityInRange };

    #[tactic(auto, unfolding(crate::specs::EntityRows::entity_rows, crate::specs::EntityRows::EntityInRange))]
    fn write(&self, alloc: Global, writer: &mut Writer) -> Result<(), NoMemory> {
        match self {
            Entity::TableEntry(entry) => writing::member(alloc, writer, 2, entry),
            Entity::ActionProfileMember(member) => writing::member(alloc, writer, 3, member),
            Entity::ActionProfileGroup(group) => writing::member(alloc, writer, 4, group),
            Entity::CounterEntry(entry) => writing::member(alloc, writer, 7, entry),
            Entity::DirectCounterEntry(entry) => writing::member(alloc, writer, 8, entry),
            Entity::PacketReplicationEngineEntry(entry) => {
                writing::member(alloc, writer, 9, entry)
            }
            Entity::DigestEntry(entry) => writing::member(alloc, writer, 12, entry),
            Entity::Other(_) => Ok(()),
        }
    }
}
