//! What an update changes, or the first rule that it breaks.
ghost use Rattle.std.specs.Prelude.{◌≡◌, ◌≤◌, ℕ, length, Some, None, IfOk};
ghost use Rattle.std.specs.Prelude as spec;
ghost use Rattle.std.specs.Option.{option_map};
ghost use Rattle.p4_types.specs.declared.info.Info.{Info};
ghost use Rattle.plane_spec.specs.Objects.{table_of};
ghost use Rattle.plane_spec.specs.UpdateRules.{call_flaw, chosen_flaw, plain_flaw, profile_of_table, given_flaw, action_flaw, brought_flaw, entry_cause, name_of, given_call, action_by, given_action, change_by, entry_change, entry_resolution};
ghost use Rattle.plane_spec.specs.Updates.{entity_resolution, resolution};
ghost use Rattle.write_rules.specs.Widths.{HasWidths};

use crate::{actions, digests, groups, matches, members, multicast, rules, sets};
use list_types::NoMemory;
use p4_types::code::{Cause, Code, Rule};
use p4_types::info::{ActionProfile, Table};
use p4_types::keys::Tests;
use p4_types::messages::{Action, Entity, TableAction, TableEntry, Update};
use p4_types::table::{ActionCall, Change, EntryAction, EntryChange, EntryName, UpdateKind};
use p4info_model::P4Info;
use std::alloc::Global;

// What is wrong with a plain action.
fn call_flaw(info: &P4Info, table: &Table, default: bool, call: &Action) -> Option<Code>
    ensures { result ≡ call_flaw info.now table.now default call.now }
{
    if !actions::has_action(table, default, call.action_id) {
        return Some(Code::InvalidArgument);
    }
    match info.action(call.action_id) {
        Some(action) => actions::argument_flaw(action, call.params.as_slice()),
        None => Some(Code::InvalidArgument),
    }
}

// What is wrong with an action under an action profile.
fn chosen_flaw(info: &P4Info, profile: &ActionProfile, action: &TableAction) -> Option<Code>
    ensures { result ≡ chosen_flaw info.now profile.now action.now }
{
    match action {
        TableAction::ActionProfileMemberId(_) => None,
        TableAction::ActionProfileGroupId(_) if profile.with_selector => None,
        TableAction::ActionProfileActionSet(set) if profile.with_selector => {
            sets::set_flaw(info, profile, set.action_profile_actions.as_slice())
        }
        _ => Some(Code::InvalidArgument),
    }
}

// What is wrong with an action in a table without an action profile.
fn plain_flaw(info: &P4Info, table: &Table, default: bool, action: &TableAction) -> Option<Code>
    ensures { result ≡ plain_flaw info.now table.now default action.now }
{
    match action {
        TableAction::Action(call) => call_flaw(info, table, default, call),
        _ => Some(Code::InvalidArgument),
    }
}

// The action profile of a table, if it has one.
fn profile_of<'a>(info: &'a P4Info, table: &Table) -> Option<&'a ActionProfile>
    ensures { option_map (λ profile. profile.now) result ≡ profile_of_table info.now table.now }
{
    info.action_profile(table.action_profile.unwrap_or(0))
}

fn given_flaw(info: &P4Info, table: &Table, default: bool, action: &TableAction) -> Option<Code>
    ensures { result ≡ given_flaw info.now table.now default action.now (profile_of_table info.now table.now) }
{
    match profile_of(info, table) {
        None => plain_flaw(info, table, default, action),
        Some(profile) => chosen_flaw(info, profile, action),
    }
}

fn action_flaw(
    info: &P4Info,
    table: &Table,
    default: bool,
    action: &Option<Option<TableAction>>,
) -> Option<Code>
    ensures { result ≡ action_flaw info.now table.now default action.now }
{
    match action {
        None if default => None,
        Some(Some(action)) => given_flaw(info, table, default, action),
        _ => Some(Code::InvalidArgument),
    }
}

/// U9.
fn brought_flaw(info: &P4Info, table: &Table, kind: UpdateKind, entry: &TableEntry) -> Option<Code>
    ensures { result ≡ brought_flaw info.now table.now kind entry.now }
{
    if rules::brings(kind) {
        action_flaw(info, table, entry.is_default_action, &entry.action)
    } else {
        None
    }
}

// The first rule of U2 to U9 that an update of an entry of this table breaks.
#[tactic(auto, unfolding(plane_spec::specs::UpdateRules::entry_cause))]
fn entry_cause(
    info: &P4Info,
    scope: Option<&[u32]>,
    kind: UpdateKind,
    entry: &TableEntry,
    table: &Table,
) -> Option<Cause>
    requires { HasWidths table.now }
    ensures { result ≡ entry_cause info.now (option_map (λ ids. ids.now) scope.entry) kind entry.now (Some table.now) }
{
    if rules::is_unserved(kind, entry) {
        return rules::refused(Rule::U2, Code::Unimplemented);
    }
    if rules::is_foreign(scope, entry.table_id) {
        return rules::refused(Rule::U4, Code::PermissionDenied);
    }
    if rules::is_fixed(table, kind, entry) {
        return rules::refused(Rule::U5, Code::InvalidArgument);
    }
    if rules::is_malformed(table, entry) {
        return rules::refused(Rule::U6, Code::InvalidArgument);
    }
    if rules::is_too_wide(table, entry) {
        return rules::refused(Rule::U7, Code::OutOfRange);
    }
    if rules::is_inconsistent(table, entry) {
        return rules::refused(Rule::U8, Code::InvalidArgument);
    }
    rules::refused_by(Rule::U9, brought_flaw(info, table, kind, entry))
}

// The first of them where there is no such table.
#[tactic(auto, unfolding(plane_spec::specs::UpdateRules::entry_cause))]
fn unknown_cause(kind: UpdateKind, entry: &TableEntry) -> Cause
    ensures { (info : Info) (scope : spec.Option (spec.List ℕ)) → entry_cause info scope kind entry.now None ≡ Some result }
{
    if rules::is_unserved(kind, entry) {
        Cause {
            rule: Rule::U2,
            code: Code::Unimplemented,
        }
    } else {
        Cause {
            rule: Rule::U3,
            code: Code::NotFound,
        }
    }
}

/// The name of an entry: its table, a test for each field of the key, and its priority.
pub fn name_of(table: &Table, entry: &TableEntry) -> EntryName
    requires widths { HasWidths table.now }
    requires few { length table.now.match_fields ≤ 16 }
    ensures { result ≡ name_of (Some table.now) entry.now }
{
    EntryName {
        table: entry.table_id,
        tests: tests_of(table, entry),
        priority: entry.priority,
    }
}

fn tests_of(table: &Table, entry: &TableEntry) -> Tests
    requires widths { HasWidths table.now }
    requires few { length table.now.match_fields ≤ 16 }
    ensures { result ≡ (name_of (Some table.now) entry.now).tests }
{
    let mut tests = Tests::new();
    for field in table.match_fields.as_slice() {
        tests.push(matches::test_of(field, entry.matches.as_slice()));
    }
    tests
}

fn given_call(info: &P4Info, action: &Option<Option<TableAction>>) -> Option<ActionCall>
    ensures { result ≡ given_call info.now action.now }
{
    match action {
        Some(Some(TableAction::Action(call))) => Some(actions::call_in(info, call)),
        _ => None,
    }
}

// What an entry does by an action, in a table of this profile.
fn action_by(
    alloc: Global,
    info: &P4Info,
    profile: u32,
    action: &TableAction,
) -> Result<EntryAction, NoMemory>
    ensures { IfOk result (λ does. does ≡ action_by info.now profile action.now) }
{
    Ok(match action {
        TableAction::Action(call) => EntryAction::Call(actions::call_in(info, call)),
        TableAction::ActionProfileMemberId(id) => EntryAction::Member { profile, id: *id },
        TableAction::ActionProfileGroupId(id) => EntryAction::Group { profile, id: *id },
        TableAction::ActionProfileActionSet(set) => {
            let calls = sets::calls_of(alloc, info, set.action_profile_actions.as_slice())?;
            EntryAction::Set { profile, calls }
        }
    })
}

// What an entry does by the action that is given.
fn given_action(
    alloc: Global,
    info: &P4Info,
    profile: u32,
    action: &Option<Option<TableAction>>,
) -> Result<EntryAction, NoMemory>
    ensures { IfOk result (λ does. does ≡ given_action info.now profile action.now) }
{
    match action {
        Some(Some(action)) => action_by(alloc, info, profile, action),
        _ => Ok(EntryAction::Call(actions::no_call())),
    }
}

fn change_by(kind: UpdateKind, brought: EntryChange) -> Change
    ensures { result ≡ change_by kind brought }
{
    match kind {
        UpdateKind::Insert => Change::InsertEntry(brought),
        UpdateKind::Modify => Change::ModifyEntry(brought),
        UpdateKind::Delete => Change::DeleteEntry(brought.name),
    }
}

// What an update of an entry that breaks no rule changes. What a DELETE would do is not looked at.
fn entry_change(
    alloc: Global,
    info: &P4Info,
    table: &Table,
    kind: UpdateKind,
    entry: &TableEntry,
) -> Result<Change, NoMemory>
    requires widths { HasWidths table.now }
    requires few { length table.now.match_fields ≤ 16 }
    ensures { IfOk result (λ change. change ≡ entry_change info.now (Some table.now) kind entry.now) }
{
    if entry.is_default_action {
        return Ok(Change::ModifyDefault {
            table: entry.table_id,
            action: given_call(info, &entry.action),
        });
    }
    let name = name_of(table, entry);
    if let UpdateKind::Delete = kind {
        return Ok(Change::DeleteEntry(name));
    }
    let profile = table.action_profile.unwrap_or(0);
    let action = given_action(alloc, info, profile, &entry.action)?;
    let brought = EntryChange {
        name,
        controller_metadata: entry.controller_metadata,
        action,
    };
    Ok(change_by(kind, brought))
}

fn entry(
    alloc: Global,
    info: &P4Info,
    scope: Option<&[u32]>,
    kind: UpdateKind,
    entry: &TableEntry,
) -> Result<Result<Change, Cause>, NoMemory>
    ensures { IfOk result (λ r. r ≡ entry_resolution info.now (option_map (λ ids. ids.now) scope.entry) kind entry.now (table_of entry.now.table_id info.now)) }
{
    let Some(table) = info.table(entry.table_id) else {
        return Ok(Err(unknown_cause(kind, entry)));
    };
    if let Some(cause) = entry_cause(info, scope, kind, entry, table) {
        return Ok(Err(cause));
    }
    Ok(Ok(entry_change(alloc, info, table, kind, entry)?))
}

fn entity(
    alloc: Global,
    info: &P4Info,
    scope: Option<&[u32]>,
    kind: UpdateKind,
    entity: &Entity,
) -> Result<Result<Change, Cause>, NoMemory>
    ensures { IfOk result (λ r. r ≡ entity_resolution info.now (option_map (λ ids. ids.now) scope.entry) kind entity.now) }
{
    match entity {
        Entity::TableEntry(given) => entry(alloc, info, scope, kind, given),
        Entity::ActionProfileMember(given) => Ok(members::resolve(info, scope, kind, given)),
        Entity::ActionProfileGroup(given) => groups::resolve(alloc, info, scope, kind, given),
        Entity::PacketReplicationEngineEntry(given) => Ok(multicast::resolve(scope, kind, given)),
        Entity::DigestEntry(given) => Ok(digests::resolve(info, scope, kind, *given)),
        _ => Ok(Err(Cause {
            rule: Rule::U2,
            code: Code::Unimplemented,
        })),
    }
}

/// What an update changes under the program, by a role whose configuration has the ids of `scope` or that
/// has none; or the first rule of U1 to U9 that it breaks, with its code. It takes memory for the members of a group and for
/// the actions of a one-shot set alone.
#[tactic(auto, unfolding(plane_spec::specs::Updates::resolution))]
pub fn resolve(
    alloc: Global,
    info: &P4Info,
    scope: Option<&[u32]>,
    update: &Update,
) -> Result<Result<Change, Cause>, NoMemory>
    ensures { IfOk result (λ r. r ≡ resolution info.now (option_map (λ ids. ids.now) scope.entry) update.now) }
{
    let (Some(kind), Some(given)) = (rules::update_kind(update.kind), &update.entity) else {
        return Ok(Err(Cause {
            rule: Rule::U1,
            code: Code::InvalidArgument,
        }));
    };
    entity(alloc, info, scope, kind, given)
}
