//! The actions of an action profile, and one-shot sets of them (P4Runtime 1.3.0, "One Shot Action Selector Programming").
ghost use Rattle.std.specs.Prelude.{◌≡◌, map, is_some, Some, IfOk};
ghost use Rattle.std.specs.List.{list_all, list_any};
ghost use Rattle.plane_spec.specs.Objects.{table_of};
ghost use Rattle.plane_spec.specs.UpdateRules.{is_watched, has_watch, refers_in, is_of_profile, profile_call_flaw, is_weight, is_invalid, set_flaw, natural, weighted_call};

use crate::{actions, matches};
use list_types::NoMemory;
use p4_types::code::Code;
use p4_types::info::{ActionProfile, Table};
use p4_types::messages::{Action, ActionProfileAction, TableAction};
use p4_types::shared::Shared;
use p4_types::table::WeightedCall;
use p4_types::weights::WeightedList;
use p4info_model::P4Info;
use std::alloc::Global;

/// Whether a member or an action is to be watched, by a port's number or by its bytes.
pub(crate) fn is_watched(watch: u32, port: &[u8]) -> bool
    ensures { result ≡ is_watched watch port.now }
{
    watch != 0 || !matches::all_zero(port)
}

fn any_watched(list: &[ActionProfileAction]) -> bool
    ensures { result ≡ list_any (λ action. is_watched action.watch action.watch_port) list.now }
{
    for action in list {
        if is_watched(action.watch, action.watch_port.as_slice()) {
            return true;
        }
    }
    false
}

/// Whether an action of the one-shot set that is given, if one is, is to be watched.
pub(crate) fn has_watch(action: &Option<Option<TableAction>>) -> bool
    ensures { result ≡ has_watch action.now }
{
    match action {
        Some(Some(TableAction::ActionProfileActionSet(set))) => {
            any_watched(set.action_profile_actions.as_slice())
        }
        _ => false,
    }
}

fn refers(table: &Table, id: u32) -> bool
    ensures { result ≡ refers_in id (Some table.now) }
{
    for reference in table.action_refs.as_slice() {
        if reference.id == id {
            return true;
        }
    }
    false
}

fn refers_in(info: &P4Info, table: u32, id: u32) -> bool
    ensures { result ≡ refers_in id (table_of table info.now) }
{
    match info.table(table) {
        Some(table) => refers(table, id),
        None => false,
    }
}

// Whether every table of a profile has the action.
fn is_of_profile(info: &P4Info, profile: &ActionProfile, id: u32) -> bool
    ensures { result ≡ is_of_profile info.now profile.now id }
{
    for table in profile.table_ids.as_slice() {
        if !refers_in(info, *table, id) {
            return false;
        }
    }
    true
}

/// What is wrong with the action of a member or of a one-shot set.
pub(crate) fn profile_call_flaw(
    info: &P4Info,
    profile: &ActionProfile,
    action: &Option<Action>,
) -> Option<Code>
    ensures { result ≡ profile_call_flaw info.now profile.now action.now }
{
    let Some(call) = action else {
        return Some(Code::InvalidArgument);
    };
    if !is_of_profile(info, profile, call.action_id) {
        return Some(Code::InvalidArgument);
    }
    match info.action(call.action_id) {
        Some(action) => actions::argument_flaw(action, call.params.as_slice()),
        None => Some(Code::InvalidArgument),
    }
}

/// A weight from 1 to 65,535.
pub(crate) fn is_weight(weight: i32) -> bool
    ensures { result ≡ is_weight weight }
{
    weight >= 1 && weight <= 65_535
}

fn all_weighted(list: &[ActionProfileAction]) -> bool
    ensures { result ≡ list_all (λ action. is_weight action.weight) list.now }
{
    for action in list {
        if !is_weight(action.weight) {
            return false;
        }
    }
    true
}

fn is_invalid(flaw: Option<Code>) -> bool
    ensures { result ≡ is_invalid flaw }
{
    match flaw {
        Some(Code::InvalidArgument) => true,
        _ => false,
    }
}

fn any_invalid(info: &P4Info, profile: &ActionProfile, list: &[ActionProfileAction]) -> bool
    ensures { result ≡ list_any (λ action. is_invalid (profile_call_flaw info.now profile.now action.action)) list.now }
{
    for action in list {
        if is_invalid(profile_call_flaw(info, profile, &action.action)) {
            return true;
        }
    }
    false
}

fn any_flaw(info: &P4Info, profile: &ActionProfile, list: &[ActionProfileAction]) -> bool
    ensures { result ≡ list_any (λ action. is_some (profile_call_flaw info.now profile.now action.action)) list.now }
{
    for action in list {
        if profile_call_flaw(info, profile, &action.action).is_some() {
            return true;
        }
    }
    false
}

/// What is wrong with a one-shot set.
pub(crate) fn set_flaw(
    info: &P4Info,
    profile: &ActionProfile,
    list: &[ActionProfileAction],
) -> Option<Code>
    ensures { result ≡ set_flaw info.now profile.now list.now }
{
    if list.is_empty() || list.len() > 256 {
        return Some(Code::InvalidArgument);
    }
    if !all_weighted(list) || any_invalid(info, profile, list) {
        return Some(Code::InvalidArgument);
    }
    if any_flaw(info, profile, list) {
        Some(Code::OutOfRange)
    } else {
        None
    }
}

/// A number that is not negative, or 0.
pub(crate) fn natural(number: i32) -> u32
    ensures { result ≡ natural number }
{
    if number < 0 { 0 } else { number as u32 }
}

fn weighted_call(info: &P4Info, action: &ActionProfileAction) -> WeightedCall
    ensures { result ≡ weighted_call info.now action.now }
{
    WeightedCall {
        call: actions::call_by(info, &action.action),
        weight: natural(action.weight),
    }
}

fn weighted_calls(
    alloc: Global,
    info: &P4Info,
    list: &[ActionProfileAction],
) -> Result<WeightedList<WeightedCall>, NoMemory>
    ensures { IfOk result (λ calls. calls ≡ map (weighted_call info.now) list.now) }
{
    let mut calls = WeightedList::new(alloc);
    for action in list {
        calls.push(weighted_call(info, action))?;
    }
    Ok(calls)
}

/// The calls of a one-shot set.
pub(crate) fn calls_of(
    alloc: Global,
    info: &P4Info,
    list: &[ActionProfileAction],
) -> Result<Shared<WeightedList<WeightedCall>>, NoMemory>
    ensures { IfOk result (λ calls. calls ≡ map (weighted_call info.now) list.now) }
{
    Shared::new(alloc, weighted_calls(alloc, info, list)?)
}
