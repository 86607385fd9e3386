//! Why a Read is refused.
ghost use Rattle.std.specs.Prelude.{◌≡◌, is_some, map};
ghost use Rattle.plane_spec.specs.Objects.{action_profile_of};
ghost use Rattle.switch_spec.specs.Reading.{match_refusal, entry_refusal, id_refusal, direct_refusal, replication_refusal, entity_refusal, first_of};
ghost use Rattle.write_rules.specs.Widths.{HasWidths};

use p4_types::code::Code;
use p4_types::info::Table;
use p4_types::messages::{Entity, PacketReplicationEngineEntry, TableEntry};
use p4info_model::P4Info;
use write_rules::{is_canonical_match, is_malformed_match, is_too_wide};

fn match_refusal(table: &Table, asked: &TableEntry) -> Option<Code>
    requires { HasWidths table.now }
    ensures { result ≡ match_refusal table.now asked.now }
{
    if asked.matches.is_empty() {
        return None;
    }
    if is_malformed_match(table, asked) {
        return Some(Code::InvalidArgument);
    }
    if is_too_wide(table, asked) {
        return Some(Code::OutOfRange);
    }
    if is_canonical_match(table, asked) {
        None
    } else {
        Some(Code::InvalidArgument)
    }
}

fn entry_refusal(info: &P4Info, asked: &TableEntry) -> Option<Code>
    ensures { result ≡ entry_refusal info.now asked.now }
{
    if asked.table_id == 0 {
        return if asked.matches.is_empty() {
            None
        } else {
            Some(Code::InvalidArgument)
        };
    }
    match info.table(asked.table_id) {
        Some(table) => match_refusal(table, asked),
        None => Some(Code::NotFound),
    }
}

fn id_refusal(id: u32, known: bool) -> Option<Code>
    ensures { result ≡ id_refusal id known }
{
    if id == 0 || known {
        None
    } else {
        Some(Code::NotFound)
    }
}

fn profile_refusal(info: &P4Info, id: u32) -> Option<Code>
    ensures { result ≡ id_refusal id (is_some (action_profile_of id info.now)) }
{
    id_refusal(id, info.action_profile(id).is_some())
}

fn direct_refusal(info: &P4Info, asked: &Option<TableEntry>) -> Option<Code>
    ensures { result ≡ direct_refusal info.now asked.now }
{
    match asked {
        None => None,
        Some(asked) => entry_refusal(info, asked),
    }
}

fn replication_refusal(asked: &PacketReplicationEngineEntry) -> Option<Code>
    ensures { result ≡ replication_refusal asked.now.multicast_group_entry }
{
    match asked.multicast_group_entry {
        None => Some(Code::Unimplemented),
        Some(_) => None,
    }
}

fn entity_refusal(info: &P4Info, entity: &Option<Entity>) -> Option<Code>
    ensures { result ≡ entity_refusal info.now entity.now }
{
    match entity {
        Some(Entity::TableEntry(asked)) => entry_refusal(info, asked),
        Some(Entity::ActionProfileMember(asked)) => profile_refusal(info, asked.action_profile_id),
        Some(Entity::ActionProfileGroup(asked)) => profile_refusal(info, asked.action_profile_id),
        Some(Entity::PacketReplicationEngineEntry(asked)) => replication_refusal(asked),
        Some(Entity::DigestEntry(asked)) => {
            id_refusal(asked.digest_id, info.digest(asked.digest_id).is_some())
        }
        Some(Entity::CounterEntry(asked)) => {
            id_refusal(asked.counter_id, info.counter(asked.counter_id).is_some())
        }
        Some(Entity::DirectCounterEntry(asked)) => direct_refusal(info, &asked.table_entry),
        _ => Some(Code::Unimplemented),
    }
}

/// The code of the first entity asked for that is refused.
pub(crate) fn refusal(info: &P4Info, entities: &[Option<Entity>]) -> Option<Code>
    ensures { result ≡ first_of (map (entity_refusal info.now) entities.now) }
{
    for entity in entities {
        if let Some(code) = entity_refusal(info, entity) {
            return Some(code);
        }
    }
    None
}
