//! The answer to a Read.
ghost use Rattle.std.specs.Prelude.{◌≡◌, ◌≤◌, ◌+◌, ◌++◌, map, IfOk, OnOk};
ghost use Rattle.std.specs.List.{flat_map};
ghost use Rattle.p4_types.specs.declared.messages.Entity.TheVariants as entities;
ghost use Rattle.plane_spec.specs.Config.{cells_in};
ghost use Rattle.plane_spec.specs.Entries.{slot_numbers};
ghost use Rattle.switch_spec.specs.Reading.{read_unless, first_of, entity_refusal, selected, selected_entries};

use crate::counts::Counts;
use crate::{cells, defaults, digests, groups, members, messages, multicast, refusals, selecting};
use list_types::{ByteList, List, NoMemory};
use p4_types::code::Code;
use p4_types::messages::{Entity, TableEntry};
use plane_state::Plane;
use std::alloc::Global;

fn push_asked<C: Counts>(
    alloc: Global,
    plane: &Plane,
    counts: &C,
    asked: &TableEntry,
    answer: &mut List<Entity>,
) -> Result<(), NoMemory>
    ensures { OnOk result (answer.new ≡ answer.old ++ map entities.TableEntry (selected_entries plane.now.now asked.now)) }
{
    if asked.is_default_action {
        defaults::push_defaults(alloc, plane, asked, answer)
    } else {
        selecting::push_asked(alloc, plane, counts, asked, answer)
    }
}

fn push_selected<C: Counts>(
    alloc: Global,
    plane: &Plane,
    counts: &C,
    entity: &Option<Entity>,
    answer: &mut List<Entity>,
) -> Result<(), NoMemory>
    requires cells { plane.now.now.cells + cells_in plane.now.now.config ≤ slot_numbers }
    ensures { OnOk result (answer.new ≡ answer.old ++ selected (C.figures counts.now) plane.now.now entity.now) }
{
    match entity {
        Some(Entity::TableEntry(asked)) => push_asked(alloc, plane, counts, asked, answer),
        Some(Entity::CounterEntry(asked)) => {
            cells::push_counters(alloc, plane, counts, asked, answer)
        }
        Some(Entity::DirectCounterEntry(asked)) => {
            selecting::push_counters(alloc, plane, counts, asked, answer)
        }
        Some(Entity::ActionProfileMember(asked)) => {
            members::push_members(alloc, plane, asked, answer)
        }
        Some(Entity::ActionProfileGroup(asked)) => groups::push_groups(alloc, plane, asked, answer),
        Some(Entity::PacketReplicationEngineEntry(asked)) => {
            multicast::push_multicast(alloc, plane, asked, answer)
        }
        Some(Entity::DigestEntry(asked)) => digests::push_digests(plane, asked, answer),
        _ => Ok(()),
    }
}

fn selected<C: Counts>(
    alloc: Global,
    plane: &Plane,
    counts: &C,
    entities: &[Option<Entity>],
) -> Result<List<Entity>, NoMemory>
    requires cells { plane.now.now.cells + cells_in plane.now.now.config ≤ slot_numbers }
    ensures { IfOk result (λ list. list ≡ flat_map (selected (C.figures counts.now) plane.now.now) entities.now) }
{
    let mut answer = List::new(alloc);
    for entity in entities {
        push_selected(alloc, plane, counts, entity, &mut answer)?;
    }
    Ok(answer)
}

/// The messages that answer a Read of these entities, each with at most 1,024 of what is selected (P4Runtime 1.3.0,
/// "Read RPC"); or the code of the first entity asked for that is refused. Entries come by rising table id, those of
/// one table in the order in which they were inserted; members and groups by rising profile and id, multicast groups
/// and digest entries by rising id, cells of counters by rising id and index. The cells of the plane have slots that there are.
pub fn read<C: Counts>(
    alloc: Global,
    plane: &Plane,
    counts: &C,
    entities: &[Option<Entity>],
) -> Result<Result<List<ByteList>, Code>, NoMemory>
    requires cells { plane.now.now.cells + cells_in plane.now.now.config ≤ slot_numbers }
    ensures { IfOk result (λ answer. answer ≡ read_unless (first_of (map (entity_refusal plane.now.now.config.info) entities.now)) (C.figures counts.now) plane.now.now entities.now) }
{
    if let Some(code) = refusals::refusal(plane.config().info(), entities) {
        return Ok(Err(code));
    }
    let answer = selected(alloc, plane, counts, entities)?;
    Ok(Ok(messages::messages(alloc, answer)?))
}
