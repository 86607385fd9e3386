//! Table entries and default actions as messages.
ghost use Rattle.std.specs.Prelude.{◌≡◌, map, fold, IfOk, OnOk, option_map};
ghost use Rattle.std.specs.List.{filter_map, zip};
ghost use Rattle.plane_spec.specs.Shown.{shown_kind, shown_match, matches_in, param_of, params_in, shown_action, shown_entry_action, bare_entry, plain_entry, shown_entry, shown_name, shown_default, placed};

use crate::order::place;
use crate::weights::shown_set;
use canon_bytes::write;
use list_types::{List, NoMemory};
use p4_types::info;
use p4_types::info::{MatchField, MatchKind, Table};
use p4_types::keys::FieldTest;
use p4_types::messages::{Action, FieldMatch, FieldMatchKind, Param, TableAction, TableEntry};
use p4_types::table::{ActionCall, DefaultAction, Entry, EntryAction};
use p4info_model::P4Info;
use std::alloc::Global;

fn shown_kind(
    alloc: Global,
    field: &MatchField,
    test: FieldTest,
) -> Result<Option<FieldMatchKind>, NoMemory>
    ensures { IfOk result (λ kind. kind ≡ shown_kind field.now test) }
{
    let kind = match test {
        FieldTest::Any => return Ok(None),
        FieldTest::Equal(value) => {
            let value = write(alloc, value)?;
            match field.kind {
                MatchKind::Optional => FieldMatchKind::Optional { value },
                _ => FieldMatchKind::Exact { value },
            }
        }
        FieldTest::Prefix { value, length, .. } => {
            let prefix_len = length.min(i32::MAX as u32) as i32;
            let value = write(alloc, value)?;
            FieldMatchKind::Lpm { value, prefix_len }
        }
        FieldTest::Masked { value, mask } => {
            let value = write(alloc, value)?;
            let mask = write(alloc, mask)?;
            FieldMatchKind::Ternary { value, mask }
        }
        FieldTest::Between { low, high } => {
            let low = write(alloc, low)?;
            let high = write(alloc, high)?;
            FieldMatchKind::Range { low, high }
        }
    };
    Ok(Some(kind))
}

fn shown_match(
    alloc: Global,
    field: &MatchField,
    test: FieldTest,
) -> Result<Option<FieldMatch>, NoMemory>
    ensures { IfOk result (λ shown. shown ≡ shown_match (field.now, test)) }
{
    match shown_kind(alloc, field, test)? {
        Some(kind) => Ok(Some(FieldMatch {
            field_id: field.id,
            kind: Some(kind),
        })),
        None => Ok(None),
    }
}

fn place_matches(
    alloc: Global,
    fields: &[MatchField],
    tests: &[FieldTest],
    sorted: &mut Vec<FieldMatch>,
) -> Result<(), NoMemory>
    ensures { OnOk result (sorted.new.items ≡ fold (λ list m. placed (λ m. m.field_id) m list) sorted.old.items (filter_map shown_match (zip fields.now tests.now))) }
{
    match fields {
        [] => Ok(()),
        [field, fields @ ..] => match tests {
            [] => Ok(()),
            [test, tests @ ..] => {
                if let Some(shown) = shown_match(alloc, field, *test)? {
                    place(sorted, shown)?;
                }
                place_matches(alloc, fields, tests, sorted)
            }
        },
    }
}

// The tests of a table's key, by rising id of the field.
fn matches_in(
    alloc: Global,
    table: Option<&Table>,
    tests: &[FieldTest],
) -> Result<List<FieldMatch>, NoMemory>
    ensures { IfOk result (λ list. list ≡ matches_in (option_map (λ table. table.now) table.entry) tests.now) }
{
    let mut sorted = Vec::new(alloc);
    if let Some(table) = table {
        place_matches(alloc, table.match_fields.as_slice(), tests, &mut sorted)?;
    }
    Ok(List::from_vec(sorted))
}

fn shown_param(alloc: Global, id: u32, value: u128) -> Result<Param, NoMemory>
    ensures { IfOk result (λ param. param ≡ param_of id value) }
{
    let value = write(alloc, value)?;
    Ok(Param {
        param_id: id,
        value,
    })
}

fn place_params(
    alloc: Global,
    params: &[info::Param],
    arguments: &[u128],
    sorted: &mut Vec<Param>,
) -> Result<(), NoMemory>
    ensures { OnOk result (sorted.new.items ≡ fold (λ list p. placed (λ p. p.param_id) p list) sorted.old.items (map (λ x. param_of x.0.id x.1) (zip params.now arguments.now))) }
{
    match params {
        [] => Ok(()),
        [param, params @ ..] => match arguments {
            [] => Ok(()),
            [argument, arguments @ ..] => {
                let shown = shown_param(alloc, param.id, *argument)?;
                place(sorted, shown)?;
                place_params(alloc, params, arguments, sorted)
            }
        },
    }
}

// The arguments of an action, by rising id of the parameter.
fn params_in(
    alloc: Global,
    action: Option<&info::Action>,
    arguments: &[u128],
) -> Result<List<Param>, NoMemory>
    ensures { IfOk result (λ list. list ≡ params_in (option_map (λ action. action.now) action.entry) arguments.now) }
{
    let mut sorted = Vec::new(alloc);
    if let Some(action) = action {
        place_params(alloc, action.params.as_slice(), arguments, &mut sorted)?;
    }
    Ok(List::from_vec(sorted))
}

/// An action as a message: its parameters by rising id, their values in canonical form.
pub(crate) fn shown_action(
    alloc: Global,
    info: &P4Info,
    call: &ActionCall,
) -> Result<Action, NoMemory>
    ensures { IfOk result (λ action. action ≡ shown_action info.now call.now) }
{
    let params = params_in(alloc, info.action(call.action), call.arguments.as_slice())?;
    Ok(Action {
        action_id: call.action,
        params,
    })
}

fn shown_entry_action(
    alloc: Global,
    info: &P4Info,
    action: &EntryAction,
) -> Result<TableAction, NoMemory>
    ensures { IfOk result (λ shown. shown ≡ shown_entry_action info.now action.now) }
{
    match action {
        EntryAction::Call(call) => Ok(TableAction::Action(shown_action(alloc, info, call)?)),
        EntryAction::Member { id, .. } => Ok(TableAction::ActionProfileMemberId(*id)),
        EntryAction::Group { id, .. } => Ok(TableAction::ActionProfileGroupId(*id)),
        EntryAction::Set { calls, .. } => {
            let set = shown_set(alloc, info, calls.get().as_slice())?;
            Ok(TableAction::ActionProfileActionSet(set))
        }
    }
}

// An entry of this table, match and priority, and nothing else.
fn bare_entry(table: u32, matches: List<FieldMatch>, priority: i32) -> TableEntry
    ensures { result ≡ bare_entry table matches priority }
{
    TableEntry {
        table_id: table,
        matches,
        action: None,
        priority,
        controller_metadata: 0,
        meter_config: false,
        counter_data: None,
        is_default_action: false,
        idle_timeout_ns: 0,
        time_since_last_hit: false,
    }
}

// The same with an action.
fn plain_entry(
    table: u32,
    matches: List<FieldMatch>,
    priority: i32,
    action: TableAction,
) -> TableEntry
    ensures { result ≡ plain_entry table matches priority action }
{
    let mut entry = bare_entry(table, matches, priority);
    entry.action = Some(Some(action));
    entry
}

/// The name of an entry as a message (TableEntry): its table, its match by rising id of the fields, in canonical form, and its priority. Without
/// memory there is none.
pub fn shown_name(alloc: Global, info: &P4Info, entry: &Entry) -> Result<TableEntry, NoMemory>
    ensures { IfOk result (λ shown. shown ≡ shown_name info.now entry.now) }
{
    let name = &entry.name;
    let matches = matches_in(alloc, info.table(name.table), name.tests.as_slice())?;
    Ok(bare_entry(name.table, matches, name.priority))
}

/// An entry as a message (TableEntry): its match and the parameters of its action by rising id, in canonical form. Without memory there is none.
pub fn shown_entry(alloc: Global, info: &P4Info, entry: &Entry) -> Result<TableEntry, NoMemory>
    ensures { IfOk result (λ shown. shown ≡ shown_entry info.now entry.now) }
{
    let name = &entry.name;
    let matches = matches_in(alloc, info.table(name.table), name.tests.as_slice())?;
    let action = shown_entry_action(alloc, info, &entry.action)?;
    let mut shown = plain_entry(name.table, matches, name.priority, action);
    shown.controller_metadata = entry.controller_metadata;
    Ok(shown)
}

/// A table's default action as a message (TableEntry with is_default_action). Without memory there is none.
pub fn shown_default(
    alloc: Global,
    info: &P4Info,
    default: &DefaultAction,
) -> Result<TableEntry, NoMemory>
    ensures { IfOk result (λ shown. shown ≡ shown_default info.now default.now) }
{
    let action = TableAction::Action(shown_action(alloc, info, &default.action)?);
    let mut shown = plain_entry(default.table, List::new(alloc), 0, action);
    shown.is_default_action = true;
    Ok(shown)
}
