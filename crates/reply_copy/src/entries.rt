//! Table entries.
ghost use Rattle.std.specs.Prelude.{◌≡◌, IfOk};

use crate::bytes::copied_bytes;
use list_types::{List, NoMemory};
use p4_types::messages::{
    Action, ActionProfileAction, ActionProfileActionSet, FieldMatch, FieldMatchKind, Param,
    TableAction, TableEntry,
};
use std::alloc::Global;

fn copied_kind(alloc: Global, kind: &FieldMatchKind) -> Result<FieldMatchKind, NoMemory>
    ensures { IfOk result (λ copy. copy ≡ kind.now) }
{
    match kind {
        FieldMatchKind::Exact { value } => Ok(FieldMatchKind::Exact {
            value: copied_bytes(alloc, value)?,
        }),
        FieldMatchKind::Ternary { value, mask } => Ok(FieldMatchKind::Ternary {
            value: copied_bytes(alloc, value)?,
            mask: copied_bytes(alloc, mask)?,
        }),
        FieldMatchKind::Lpm { value, prefix_len } => Ok(FieldMatchKind::Lpm {
            value: copied_bytes(alloc, value)?,
            prefix_len: *prefix_len,
        }),
        FieldMatchKind::Range { low, high } => Ok(FieldMatchKind::Range {
            low: copied_bytes(alloc, low)?,
            high: copied_bytes(alloc, high)?,
        }),
        FieldMatchKind::Optional { value } => Ok(FieldMatchKind::Optional {
            value: copied_bytes(alloc, value)?,
        }),
    }
}

fn copied_match(alloc: Global, field: &FieldMatch) -> Result<FieldMatch, NoMemory>
    ensures { IfOk result (λ copy. copy ≡ field.now) }
{
    let kind = match &field.kind {
        None => None,
        Some(kind) => Some(copied_kind(alloc, kind)?),
    };
    Ok(FieldMatch {
        field_id: field.field_id,
        kind,
    })
}

fn copied_matches(alloc: Global, list: &List<FieldMatch>) -> Result<List<FieldMatch>, NoMemory>
    ensures { IfOk result (λ copy. copy ≡ list.now) }
{
    let mut copy = List::new(alloc);
    for field in list.as_slice() {
        copy.push(copied_match(alloc, field)?)?;
    }
    Ok(copy)
}

fn copied_params(alloc: Global, list: &List<Param>) -> Result<List<Param>, NoMemory>
    ensures { IfOk result (λ copy. copy ≡ list.now) }
{
    let mut copy = List::new(alloc);
    for param in list.as_slice() {
        copy.push(Param {
            param_id: param.param_id,
            value: copied_bytes(alloc, &param.value)?,
        })?;
    }
    Ok(copy)
}

fn copied_action(alloc: Global, action: &Action) -> Result<Action, NoMemory>
    ensures { IfOk result (λ copy. copy ≡ action.now) }
{
    Ok(Action {
        action_id: action.action_id,
        params: copied_params(alloc, &action.params)?,
    })
}

fn copied_member(alloc: Global, one: &ActionProfileAction) -> Result<ActionProfileAction, NoMemory>
    ensures { IfOk result (λ copy. copy ≡ one.now) }
{
    let action = match &one.action {
        None => None,
        Some(action) => Some(copied_action(alloc, action)?),
    };
    Ok(ActionProfileAction {
        action,
        weight: one.weight,
        watch: one.watch,
        watch_port: copied_bytes(alloc, &one.watch_port)?,
    })
}

fn copied_set(
    alloc: Global,
    set: &ActionProfileActionSet,
) -> Result<ActionProfileActionSet, NoMemory>
    ensures { IfOk result (λ copy. copy ≡ set.now) }
{
    let mut actions = List::new(alloc);
    for one in set.action_profile_actions.as_slice() {
        actions.push(copied_member(alloc, one)?)?;
    }
    Ok(ActionProfileActionSet {
        action_profile_actions: actions,
    })
}

fn copied_table_action(alloc: Global, action: &TableAction) -> Result<TableAction, NoMemory>
    ensures { IfOk result (λ copy. copy ≡ action.now) }
{
    match action {
        TableAction::Action(action) => Ok(TableAction::Action(copied_action(alloc, action)?)),
        TableAction::ActionProfileMemberId(id) => Ok(TableAction::ActionProfileMemberId(*id)),
        TableAction::ActionProfileGroupId(id) => Ok(TableAction::ActionProfileGroupId(*id)),
        TableAction::ActionProfileActionSet(set) => {
            Ok(TableAction::ActionProfileActionSet(copied_set(alloc, set)?))
        }
    }
}

fn copied_choice(
    alloc: Global,
    action: &Option<Option<TableAction>>,
) -> Result<Option<Option<TableAction>>, NoMemory>
    ensures { IfOk result (λ copy. copy ≡ action.now) }
{
    match action {
        None => Ok(None),
        Some(None) => Ok(Some(None)),
        Some(Some(action)) => Ok(Some(Some(copied_table_action(alloc, action)?))),
    }
}

fn copied_entry(alloc: Global, entry: &TableEntry) -> Result<TableEntry, NoMemory>
    ensures { IfOk result (λ copy. copy ≡ entry.now) }
{
    Ok(TableEntry {
        table_id: entry.table_id,
        matches: copied_matches(alloc, &entry.matches)?,
        action: copied_choice(alloc, &entry.action)?,
        priority: entry.priority,
        controller_metadata: entry.controller_metadata,
        meter_config: entry.meter_config,
        counter_data: entry.counter_data,
        is_default_action: entry.is_default_action,
        idle_timeout_ns: entry.idle_timeout_ns,
        time_since_last_hit: entry.time_since_last_hit,
    })
}

pub(crate) fn copied_entries(
    alloc: Global,
    list: &List<TableEntry>,
) -> Result<List<TableEntry>, NoMemory>
    ensures { IfOk result (λ copy. copy ≡ list.now) }
{
    let mut copy = List::new(alloc);
    for entry in list.as_slice() {
        copy.push(copied_entry(alloc, entry)?)?;
    }
    Ok(copy)
}
