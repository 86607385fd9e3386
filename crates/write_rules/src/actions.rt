//! The action that an entry gives, against its table and the program.
ghost use Rattle.std.specs.Prelude.{◌≡◌, ◌==◌, ◌&&◌, ◌^◌, not, nat_lt, length, map, All, Some, ◌≤◌};
ghost use Rattle.std.specs.Option.{option_map};
ghost use Rattle.std.specs.List.{list_any, list_all};
ghost use Rattle.p4_types.specs.declared.info.Param as info_params;
ghost use Rattle.plane_spec.specs.UpdateRules.{repeats, is_empty, is_allowed, has_action, are_complete, argument_of, arguments_fit, argument_flaw, number_in, call_in, no_call, call_by};
ghost use Rattle.p4info_model.specs.Valid.{IsWidth};
ghost use Rattle.write_rules.specs.Widths.{HasParamWidths};

use crate::numbers;
use p4_types::code::Code;
use p4_types::info;
use p4_types::info::{Scope, Table};
use p4_types::keys::Arguments;
use p4_types::messages::{Action, Param};
use p4_types::table::ActionCall;
use p4info_model::P4Info;

fn is_allowed(default: bool, scope: Scope) -> bool
    ensures { result ≡ is_allowed default scope }
{
    match scope {
        Scope::TableAndDefault => true,
        Scope::TableOnly => !default,
        Scope::DefaultOnly => default,
    }
}

/// Whether the table has the action, with a scope that allows it in an entry or as the default.
pub(crate) fn has_action(table: &Table, default: bool, id: u32) -> bool
    ensures { result ≡ has_action table.now default id }
{
    for reference in table.action_refs.as_slice() {
        if reference.id == id && is_allowed(default, reference.scope) {
            return true;
        }
    }
    false
}

// Whether a parameter is given.
fn gives(arguments: &[Param], id: u32) -> bool
    ensures { result ≡ list_any (λ given. given == id) (map (λ argument. argument.param_id) arguments.now) }
{
    for argument in arguments {
        if argument.param_id == id {
            return true;
        }
    }
    false
}

// Whether a parameter is given twice.
fn gives_twice(arguments: &[Param]) -> bool
    ensures { result ≡ repeats (map (λ argument. argument.param_id) arguments.now) }
{
    match arguments {
        [] => false,
        [first, others @ ..] => gives(others, first.param_id) || gives_twice(others),
    }
}

// Whether the action has a parameter.
fn has_param(params: &[info::Param], id: u32) -> bool
    ensures { result ≡ list_any (λ param. param.id == id) params.now }
{
    for param in params {
        if param.id == id {
            return true;
        }
    }
    false
}

fn all_known(params: &[info::Param], arguments: &[Param]) -> bool
    ensures { result ≡ list_all (λ id. list_any (λ param. param.id == id) params.now) (map (λ argument. argument.param_id) arguments.now) }
{
    for argument in arguments {
        if !has_param(params, argument.param_id) {
            return false;
        }
    }
    true
}

fn all_given(params: &[info::Param], arguments: &[Param]) -> bool
    ensures { result ≡ list_all (λ param. list_any (λ id. id == param.id) (map (λ argument. argument.param_id) arguments.now)) params.now }
{
    for param in params {
        if !gives(arguments, param.id) {
            return false;
        }
    }
    true
}

fn some_empty(arguments: &[Param]) -> bool
    ensures { result ≡ list_any (λ argument. is_empty argument.value) arguments.now }
{
    for argument in arguments {
        if argument.value.is_empty() {
            return true;
        }
    }
    false
}

fn are_complete(params: &[info::Param], arguments: &[Param]) -> bool
    ensures { result ≡ are_complete params.now arguments.now }
{
    arguments.len() <= params.len()
        && !gives_twice(arguments)
        && all_known(params, arguments)
        && all_given(params, arguments)
        && !some_empty(arguments)
}

// The bytes that are given for a parameter, or none.
fn argument_of(arguments: &[Param], id: u32) -> &[u8]
    ensures { result.now ≡ argument_of arguments.now id }
{
    for argument in arguments {
        if argument.param_id == id {
            return argument.value.as_slice();
        }
    }
    &[]
}

fn arguments_fit(params: &[info::Param], arguments: &[Param]) -> bool
    requires { All (λ param. IsWidth param.bitwidth) params.now }
    ensures { result ≡ arguments_fit params.now arguments.now }
{
    for param in params {
        if !numbers::fits(argument_of(arguments, param.id), param.bitwidth) {
            return false;
        }
    }
    true
}

/// What is wrong with the arguments of an action of the program.
pub(crate) fn argument_flaw(action: &info::Action, arguments: &[Param]) -> Option<Code>
    requires { HasParamWidths action.now }
    ensures { result ≡ argument_flaw (Some action.now) arguments.now }
{
    let params = action.params.as_slice();
    if !are_complete(params, arguments) {
        return Some(Code::InvalidArgument);
    }
    if arguments_fit(params, arguments) {
        None
    } else {
        Some(Code::OutOfRange)
    }
}

/// The arguments in the order of the action's parameters.
pub(crate) fn arguments(params: &[info::Param], given: &[Param]) -> Arguments
    requires widths { All (λ param. IsWidth param.bitwidth) params.now }
    requires few { length params.now ≤ 8 }
    ensures { result ≡ map (λ param. number_in param.bitwidth (argument_of given.now param.id)) params.now }
{
    let mut arguments = Arguments::new();
    for param in params {
        arguments.push(numbers::number(argument_of(given, param.id), param.bitwidth));
    }
    arguments
}

/// The call of an action of the program.
pub(crate) fn call_in(info: &P4Info, call: &Action) -> ActionCall
    ensures { result ≡ call_in info.now call.now }
{
    let arguments = match info.action(call.action_id) {
        Some(action) => arguments(action.params.as_slice(), call.params.as_slice()),
        None => Arguments::new(),
    };
    ActionCall {
        action: call.action_id,
        arguments,
    }
}

/// What stands for an action that is not given.
pub(crate) fn no_call() -> ActionCall
    ensures { result ≡ no_call }
{
    ActionCall {
        action: 0,
        arguments: Arguments::new(),
    }
}

/// The call of an action that is given, or what stands for it.
pub(crate) fn call_by(info: &P4Info, action: &Option<Action>) -> ActionCall
    ensures { result ≡ call_by info.now action.now }
{
    match action {
        None => no_call(),
        Some(call) => call_in(info, call),
    }
}
