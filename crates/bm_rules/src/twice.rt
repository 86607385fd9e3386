//! Names and ids that occur twice in their kinds: L4.
ghost use Rattle.std.specs.Prelude.{◌≡◌, map, nat_eq, IfOk};
ghost use Rattle.std.specs.List.{list_any};
ghost use Rattle.bm_rules.specs.Names.{names_repeat, repeats};
ghost use Rattle.bm_rules.specs.References.{packet_names_repeat, object_names_repeat, pipeline_names_repeat};
ghost use Rattle.bm_rules.specs.Flaw.{names_clash};

use crate::names;
use bm_records::raw::{Action, HeaderType, RawProgram};
use list_types::NoMemory;
use std::alloc::Global;

fn type_repeats(alloc: Global, header_type: &HeaderType) -> Result<bool, NoMemory>
    ensures { IfOk result (λ answer. answer ≡ names_repeat (map (λ x. x.name) header_type.now.fields)) }
{
    names::names_repeat(alloc, header_type.fields.as_slice())
}

fn any_type_repeats(alloc: Global, types: &[HeaderType]) -> Result<bool, NoMemory>
    ensures { IfOk result (λ answer. answer ≡ list_any (λ x. names_repeat (map (λ x. x.name) x.fields)) types.now) }
{
    for header_type in types {
        if type_repeats(alloc, header_type)? {
            return Ok(true);
        }
    }
    Ok(false)
}

fn ids_of(alloc: Global, actions: &[Action]) -> Result<Vec<u64>, NoMemory>
    ensures { IfOk result (λ ids. ids.items ≡ map (λ x. x.id) actions.now) }
{
    let mut ids = Vec::with_capacity(alloc, actions.len())?;
    for action in actions {
        ids.push(action.id)?;
    }
    Ok(ids)
}

fn ids_repeat(alloc: Global, actions: &[Action]) -> Result<bool, NoMemory>
    ensures { IfOk result (λ answer. answer ≡ repeats nat_eq (map (λ x. x.id) actions.now)) }
{
    let mut ids = ids_of(alloc, actions)?;
    Ok(names::numbers_repeat(ids.as_mut_slice()))
}

fn packet_names_repeat(alloc: Global, raw: &RawProgram) -> Result<bool, NoMemory>
    ensures { IfOk result (λ answer. answer ≡ packet_names_repeat raw.now) }
{
    Ok(
        names::names_repeat(alloc, raw.header_types.as_slice())?
            || any_type_repeats(alloc, raw.header_types.as_slice())?
            || names::names_repeat(alloc, raw.headers.as_slice())?
            || names::names_repeat(alloc, raw.errors.as_slice())?
            || names::names_repeat(alloc, raw.parser.parse_states.as_slice())?,
    )
}

fn object_names_repeat(alloc: Global, raw: &RawProgram) -> Result<bool, NoMemory>
    ensures { IfOk result (λ answer. answer ≡ object_names_repeat raw.now) }
{
    Ok(
        names::names_repeat(alloc, raw.counter_arrays.as_slice())?
            || names::names_repeat(alloc, raw.calculations.as_slice())?
            || names::names_repeat(alloc, raw.checksums.as_slice())?
            || names::names_repeat(alloc, raw.learn_lists.as_slice())?
            || ids_repeat(alloc, raw.actions.as_slice())?,
    )
}

fn pipeline_names_repeat(alloc: Global, raw: &RawProgram) -> Result<bool, NoMemory>
    ensures { IfOk result (λ answer. answer ≡ pipeline_names_repeat raw.now) }
{
    let ingress = &raw.pipelines.ingress;
    let egress = &raw.pipelines.egress;
    Ok(
        names::both_repeat(alloc, ingress.tables.as_slice(), egress.tables.as_slice())?
            || names::both_repeat(
                alloc,
                ingress.action_profiles.as_slice(),
                egress.action_profiles.as_slice(),
            )?
            || names::both_repeat(
                alloc,
                ingress.conditionals.as_slice(),
                egress.conditionals.as_slice(),
            )?,
    )
}

/// Whether a name or an action's id occurs twice in its kind.
#[tactic(auto, unfolding(crate::specs::Flaw::names_clash))]
pub(crate) fn names_clash(alloc: Global, raw: &RawProgram) -> Result<bool, NoMemory>
    ensures { IfOk result (λ answer. answer ≡ names_clash raw.now) }
{
    Ok(
        packet_names_repeat(alloc, raw)?
            || object_names_repeat(alloc, raw)?
            || pipeline_names_repeat(alloc, raw)?,
    )
}
