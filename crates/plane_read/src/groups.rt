//! The groups of action profiles that a Read selects.
ghost use Rattle.std.specs.Prelude.{◌≡◌, ◌++◌, ◌&&◌, ◌∷◌, [], filter, map, IfOk, OnOk};
ghost use Rattle.p4_types.specs.declared.messages.Entity.TheVariants as entities;
ghost use Rattle.plane_read.specs.Answered.{selects_group, answered_groups};
ghost use Rattle.switch_spec.specs.Reading.{selected_groups};

use crate::members::is_asked_id;
use entity_messages::shown_group;
use list_types::{List, NoMemory};
use p4_types::messages::{ActionProfileGroup, Entity};
use p4_types::profiles::Group;
use plane_state::Plane;
use profile_store::GroupRow;
use std::alloc::Global;

fn selects_group(asked: &ActionProfileGroup, group: &Group) -> bool
    ensures { result ≡ selects_group asked.now group.now }
{
    is_asked_id(asked.action_profile_id, group.profile) && is_asked_id(asked.group_id, group.id)
}

fn push_group(alloc: Global, group: &Group, answer: &mut List<Entity>) -> Result<(), NoMemory>
    ensures { OnOk result (answer.new ≡ answer.old ++ answered_groups (group.now ∷ [])) }
{
    let shown = shown_group(alloc, group)?;
    answer.push(Entity::ActionProfileGroup(shown))?;
    Ok(())
}

fn push_rows(
    alloc: Global,
    asked: &ActionProfileGroup,
    rows: &[GroupRow],
    answer: &mut List<Entity>,
) -> Result<(), NoMemory>
    ensures { OnOk result (answer.new ≡ answer.old ++ answered_groups (filter (selects_group asked.now) (map (λ row. row.group) rows.now))) }
{
    for row in rows {
        if selects_group(asked, &row.group) {
            push_group(alloc, &row.group, answer)?;
        }
    }
    Ok(())
}

/// Adds the groups that are asked for, by rising profile and id.
pub(crate) fn push_groups(
    alloc: Global,
    plane: &Plane,
    asked: &ActionProfileGroup,
    answer: &mut List<Entity>,
) -> Result<(), NoMemory>
    ensures { OnOk result (answer.new ≡ answer.old ++ map entities.ActionProfileGroup (selected_groups plane.now.now asked.now)) }
{
    let rows = plane.profiles().groups();
    push_rows(alloc, asked, rows, answer)
}
