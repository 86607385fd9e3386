//! Weights, and the one-shot sets that bear them, as they are answered.
ghost use Rattle.std.specs.Prelude.{◌≡◌, map, IfOk};
ghost use Rattle.plane_spec.specs.Shown.{weight_number, shown_weighted};

use crate::entries::shown_action;
use list_types::{ByteList, List, NoMemory};
use p4_types::messages::{ActionProfileAction, ActionProfileActionSet};
use p4_types::table::WeightedCall;
use p4info_model::P4Info;
use std::alloc::Global;

/// A weight as a number of its type (int32).
pub(crate) fn weight_number(weight: u32) -> i32
    ensures { result ≡ weight_number weight }
{
    weight.min(i32::MAX as u32) as i32
}

fn shown_weighted(
    alloc: Global,
    info: &P4Info,
    action: &WeightedCall,
) -> Result<ActionProfileAction, NoMemory>
    ensures { IfOk result (λ shown. shown ≡ shown_weighted info.now action.now) }
{
    let call = shown_action(alloc, info, &action.call)?;
    Ok(ActionProfileAction {
        action: Some(call),
        weight: weight_number(action.weight),
        watch: 0,
        watch_port: ByteList::new(alloc),
    })
}

/// A one-shot set as it is answered: its actions in the order in which they were given.
pub(crate) fn shown_set(
    alloc: Global,
    info: &P4Info,
    calls: &[WeightedCall],
) -> Result<ActionProfileActionSet, NoMemory>
    ensures { IfOk result (λ set. set.action_profile_actions ≡ map (shown_weighted info.now) calls.now) }
{
    let mut shown = List::new(alloc);
    for call in calls {
        shown.push(shown_weighted(alloc, info, call)?)?;
    }
    Ok(ActionProfileActionSet {
        action_profile_actions: shown,
    })
}
