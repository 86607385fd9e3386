//! The default actions that a Read selects.
ghost use Rattle.std.specs.Prelude.{◌≡◌, ◌∷◌, [], ◌++◌, filter, IfOk, OnOk, map, if◌then◌else◌};
ghost use Rattle.p4_types.specs.declared.messages.Entity.TheVariants as entities;
ghost use Rattle.switch_spec.specs.Reading.{is_asked, table_ids, selected_defaults};
ghost use Rattle.plane_read.specs.Answered.{answered_defaults};

use entity_messages::order::place;
use entity_messages::shown_default;
use list_types::{List, NoMemory};
use p4_types::messages::{Entity, TableEntry};
use p4info_model::P4Info;
use plane_state::Plane;
use std::alloc::Global;

// The ids of the tables, in rising order.
fn table_ids(alloc: Global, info: &P4Info) -> Result<Vec<u32>, NoMemory>
    ensures { IfOk result (λ ids. ids.items ≡ table_ids info.now) }
{
    let mut ids = Vec::new(alloc);
    for table in info.info().tables.as_slice() {
        place(&mut ids, table.preamble.id)?;
    }
    Ok(ids)
}

fn is_asked(asked: &TableEntry, table: u32) -> bool
    ensures { result ≡ is_asked asked.now table }
{
    asked.table_id == 0 || table == asked.table_id
}

fn push_default(
    alloc: Global,
    plane: &Plane,
    table: u32,
    answer: &mut List<Entity>,
) -> Result<(), NoMemory>
    ensures { OnOk result (answer.new ≡ answer.old ++ answered_defaults plane.now.now (table ∷ [])) }
{
    if let Some(default) = plane.default_entry(table) {
        let shown = shown_default(alloc, plane.config().info(), default)?;
        answer.push(Entity::TableEntry(shown))?;
    }
    Ok(())
}

fn push_each(
    alloc: Global,
    plane: &Plane,
    asked: &TableEntry,
    tables: &[u32],
    answer: &mut List<Entity>,
) -> Result<(), NoMemory>
    ensures { OnOk result (answer.new ≡ answer.old ++ answered_defaults plane.now.now (filter (is_asked asked.now) tables.now)) }
{
    for table in tables {
        if is_asked(asked, *table) {
            push_default(alloc, plane, *table, answer)?;
        }
    }
    Ok(())
}

/// Adds the default actions that are asked for.
pub(crate) fn push_defaults(
    alloc: Global,
    plane: &Plane,
    asked: &TableEntry,
    answer: &mut List<Entity>,
) -> Result<(), NoMemory>
    ensures { OnOk result (answer.new ≡ answer.old ++ map entities.TableEntry (selected_defaults plane.now.now asked.now)) }
{
    if asked.priority != 0 {
        return Ok(());
    }
    let tables = table_ids(alloc, plane.config().info())?;
    push_each(alloc, plane, asked, tables.as_slice(), answer)
}
