//! The multicast groups that a Read selects.
ghost use Rattle.std.specs.Prelude.{◌≡◌, ◌++◌, ◌∷◌, [], filter, map, OnOk};
ghost use Rattle.p4_types.specs.declared.messages.Entity.TheVariants as entities;
ghost use Rattle.plane_read.specs.Answered.{answered_multicast};
ghost use Rattle.switch_spec.specs.Reading.{is_asked_id, selected_multicast};

use crate::members::is_asked_id;
use entity_messages::shown_multicast;
use list_types::{List, NoMemory};
use p4_types::messages::{Entity, PacketReplicationEngineEntry};
use p4_types::multicast::MulticastGroup;
use plane_state::Plane;
use std::alloc::Global;

fn push_one(
    alloc: Global,
    group: &MulticastGroup,
    answer: &mut List<Entity>,
) -> Result<(), NoMemory>
    ensures { OnOk result (answer.new ≡ answer.old ++ answered_multicast (group.now ∷ [])) }
{
    let shown = shown_multicast(alloc, group)?;
    answer.push(Entity::PacketReplicationEngineEntry(shown))?;
    Ok(())
}

fn push_each(
    alloc: Global,
    asked: u32,
    groups: &[MulticastGroup],
    answer: &mut List<Entity>,
) -> Result<(), NoMemory>
    ensures { OnOk result (answer.new ≡ answer.old ++ answered_multicast (filter (λ group. is_asked_id asked group.id) groups.now)) }
{
    for group in groups {
        if is_asked_id(asked, group.id) {
            push_one(alloc, group, answer)?;
        }
    }
    Ok(())
}

/// Adds the multicast groups that are asked for, by rising id.
pub(crate) fn push_multicast(
    alloc: Global,
    plane: &Plane,
    asked: &PacketReplicationEngineEntry,
    answer: &mut List<Entity>,
) -> Result<(), NoMemory>
    ensures { OnOk result (answer.new ≡ answer.old ++ map entities.PacketReplicationEngineEntry (selected_multicast plane.now.now asked.now.multicast_group_entry)) }
{
    match &asked.multicast_group_entry {
        None => Ok(()),
        Some(entry) => {
            push_each(
                alloc,
                entry.multicast_group_id,
                plane.multicast_groups(),
                answer,
            )
        }
    }
}
