//! Entities, as they are read.
use p4_types::messages::{
    Action, CounterData, Entity, FieldMatch, FieldMatchKind, MulticastGroupEntry, TableAction,
    TableEntry,
};
use row_lines::{say, tell, tell_hex};
use std::alloc::Global;

fn tell_match(alloc: Global, told: &mut String, asked: &FieldMatch) {
    say(told, "field");
    tell(told, asked.field_id);
    match &asked.kind {
        None => say(told, "no kind"),
        Some(FieldMatchKind::Exact { value }) => {
            say(told, "exact");
            tell_hex(alloc, told, value.as_slice());
        }
        Some(FieldMatchKind::Optional { value }) => {
            say(told, "optional");
            tell_hex(alloc, told, value.as_slice());
        }
        Some(FieldMatchKind::Lpm { value, prefix_len }) => {
            say(told, "lpm");
            tell_hex(alloc, told, value.as_slice());
            tell(told, *prefix_len);
        }
        Some(FieldMatchKind::Ternary { value, mask }) => {
            say(told, "ternary");
            tell_hex(alloc, told, value.as_slice());
            tell_hex(alloc, told, mask.as_slice());
        }
        Some(FieldMatchKind::Range { low, high }) => {
            say(told, "range");
            tell_hex(alloc, told, low.as_slice());
            tell_hex(alloc, told, high.as_slice());
        }
    }
}

fn tell_action(alloc: Global, told: &mut String, action: &Action) {
    say(told, "action");
    tell(told, action.action_id);
    for param in action.params.as_slice() {
        say(told, "param");
        tell(told, param.param_id);
        tell_hex(alloc, told, param.value.as_slice());
    }
}

fn tell_number(told: &mut String, word: &str, number: u32) {
    say(told, word);
    tell(told, number);
}

fn tell_table_action(alloc: Global, told: &mut String, action: &Option<Option<TableAction>>) {
    match action {
        None => say(told, "no action"),
        Some(None) => say(told, "action of no kind"),
        Some(Some(TableAction::Action(action))) => tell_action(alloc, told, action),
        Some(Some(TableAction::ActionProfileMemberId(id))) => tell_number(told, "member", *id),
        Some(Some(TableAction::ActionProfileGroupId(id))) => tell_number(told, "group", *id),
        Some(Some(TableAction::ActionProfileActionSet(set))) => {
            say(told, "set");
            tell(told, set.action_profile_actions.len());
        }
    }
}

fn tell_figures(told: &mut String, figures: &Option<CounterData>) {
    match figures {
        None => say(told, "no figures"),
        Some(figures) => tell(told, (figures.packet_count, figures.byte_count)),
    }
}

fn tell_replicas(told: &mut String, group: &Option<MulticastGroupEntry>) {
    match group {
        None => say(told, "replication of no group"),
        Some(group) => {
            tell_number(told, "multicast group", group.multicast_group_id);
            for replica in group.replicas.as_slice() {
                tell(told, (replica.egress_port, replica.instance));
            }
        }
    }
}

/// Adds a table entry.
pub fn tell_entry(alloc: Global, told: &mut String, entry: &TableEntry) {
    tell_number(told, "entry", entry.table_id);
    tell(told, entry.priority);
    for asked in entry.matches.as_slice() {
        tell_match(alloc, told, asked);
    }
    tell_table_action(alloc, told, &entry.action);
    if entry.is_default_action {
        say(told, "default");
    }
    if entry.idle_timeout_ns != 0 {
        tell(told, entry.idle_timeout_ns);
    }
}

/// Adds an entity.
pub fn tell_entity(alloc: Global, told: &mut String, entity: &Option<Entity>) {
    match entity {
        None => say(told, "no entity"),
        Some(Entity::TableEntry(entry)) => tell_entry(alloc, told, entry),
        Some(Entity::ActionProfileMember(member)) => {
            tell_number(told, "profile", member.action_profile_id);
            tell_number(told, "member", member.member_id);
        }
        Some(Entity::ActionProfileGroup(group)) => {
            tell_number(told, "profile", group.action_profile_id);
            tell_number(told, "group", group.group_id);
            tell(told, group.members.len());
        }
        Some(Entity::CounterEntry(counter)) => {
            tell_number(told, "counter", counter.counter_id);
            tell_figures(told, &counter.content);
        }
        Some(Entity::DirectCounterEntry(counter)) => {
            say(told, "direct counter");
            match &counter.table_entry {
                None => say(told, "no entry"),
                Some(entry) => tell_entry(alloc, told, entry),
            }
            tell_figures(told, &counter.content);
        }
        Some(Entity::DigestEntry(digest)) => {
            tell_number(told, "digest", digest.digest_id);
            tell(told, digest.config.max_list_size);
        }
        Some(Entity::PacketReplicationEngineEntry(entry)) => {
            tell_replicas(told, &entry.multicast_group_entry)
        }
        Some(Entity::Other(number)) => tell_number(told, "entity", *number),
    }
}
