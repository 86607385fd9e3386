//! Which entry a table takes, and which action it runs.
ghost use Rattle.std.specs.Prelude.{◌≡◌, ◌≤◌, All, IfSome, length, find};
ghost use Rattle.std.specs.Option.{option_map};
ghost use Rattle.pkt_codec.specs.Room.{IsInStore};
ghost use Rattle.packet_spec.specs.Choosing as spec;
ghost use Rattle.pkt_walk.specs.Calls.{called_of, TakesCall};

use crate::entries::entry_call;
use crate::key::Key;
use bm_expr::Store;
use bm_pipeline::actions::Action;
use bm_pipeline::program::Program;
use bm_pipeline::tables::{DefaultEntry, Table, TableAction};
use p4_types::table::{ActionCall, Entry};
use plane_state::Plane;

/// An action that a table runs, with its data.
#[derive(Clone, Copy)]
pub struct Call<'a> {
    pub action: TableAction,
    pub args: &'a [u128],
}

/// The entry that a table takes, if it takes one.
#[tactic(auto, unfolding(packet_spec::specs::Choosing::found))]
pub(crate) fn found<'a>(plane: &'a Plane, table: &Table, store: &Store) -> Option<&'a Entry>
    requires few { length table.now.key ≤ 16 }
    requires in_store { All (IsInStore store.now) table.now.key }
    ensures { option_map (λ entry. entry.now) result ≡ spec.found plane.now.now table.now store.now }
{
    match table.id {
        None => None,
        Some(id) => {
            let key = Key::of(table.key.as_slice(), store);
            plane.store().best(id, key.as_slice())
        }
    }
}

fn is_of_id(id: u32, reference: Option<u32>) -> bool
    ensures { result ≡ spec.is_of_id id reference }
{
    match reference {
        None => false,
        Some(other) => other == id,
    }
}

fn takes(number: usize, action: Option<&Action>) -> bool
    ensures { result ≡ spec.takes number (option_map (λ a. a.now) action.entry) }
{
    match action {
        None => false,
        Some(action) => action.runtime_data.len() == number,
    }
}

fn called_with<'a>(plane: &Plane, args: &'a [u128], action: Option<TableAction>) -> Option<Call<'a>>
    ensures called { called_of result ≡ spec.called_with plane.now.now args.now action }
    ensures taken { IfSome result (TakesCall plane.now.now) }
{
    let action = action?;
    let actions = plane.config().pipeline().program().actions.as_slice();
    if takes(args.len(), actions.get(action.action)) {
        Some(Call { action, args })
    } else {
        None
    }
}

fn action_of_id(table: &Table, id: u32) -> Option<TableAction>
    ensures { result ≡ find (λ action. spec.is_of_id id action.reference) table.now.actions }
{
    table
        .actions
        .as_slice()
        .iter()
        .copied()
        .find(|action| is_of_id(id, action.reference))
}

fn called<'a>(plane: &Plane, table: &Table, call: &'a ActionCall) -> Option<Call<'a>>
    ensures called { called_of result ≡ spec.called plane.now.now table.now call.now }
    ensures taken { IfSome result (TakesCall plane.now.now) }
{
    called_with(
        plane,
        call.arguments.as_slice(),
        action_of_id(table, call.action),
    )
}

fn default_called<'a>(plane: &Plane, default: &'a Option<DefaultEntry>) -> Option<Call<'a>>
    ensures called { called_of result ≡ spec.default_called plane.now.now default.now }
    ensures taken { IfSome result (TakesCall plane.now.now) }
{
    match default {
        None => None,
        Some(default) => called_with(plane, default.action_data.as_slice(), Some(default.action)),
    }
}

// What a table runs on a miss: what a controller made its default action, else the program's own.
fn miss_called<'a>(plane: &'a Plane, table: &'a Table) -> Option<Call<'a>>
    ensures called { called_of result ≡ spec.miss_called plane.now.now table.now table.now.id }
    ensures taken { IfSome result (TakesCall plane.now.now) }
{
    let Some(id) = table.id else {
        return default_called(plane, &table.default_entry);
    };
    match plane.changed_default(id) {
        None => default_called(plane, &table.default_entry),
        Some(changed) => called(plane, table, &changed.action),
    }
}

// What an entry runs.
fn entry_called<'a>(
    plane: &'a Plane,
    table: &Table,
    entry: &'a Entry,
    store: &Store,
) -> Option<Call<'a>>
    requires in_store { All (IsInStore store.now) table.now.selector }
    ensures called { called_of result ≡ spec.called_if plane.now.now table.now (spec.entry_call plane.now.now (spec.fnv (spec.selector_bytes store.now table.now.selector)) entry.now.action) }
    ensures taken { IfSome result (TakesCall plane.now.now) }
{
    let call = entry_call(plane, table.selector.as_slice(), &entry.action, store)?;
    called(plane, table, call)
}

/// What a table runs, with what it found.
#[tactic(auto, unfolding(packet_spec::specs::Choosing::acts))]
pub(crate) fn acts<'a>(
    plane: &'a Plane,
    table: &'a Table,
    entry: Option<&'a Entry>,
    store: &Store,
) -> Option<Call<'a>>
    requires in_store { All (IsInStore store.now) table.now.selector }
    ensures called { called_of result ≡ spec.acts plane.now.now table.now (option_map (λ e. e.now) entry.entry) store.now }
    ensures taken { IfSome result (TakesCall plane.now.now) }
{
    match entry {
        None => miss_called(plane, table),
        Some(entry) => entry_called(plane, table, entry, store),
    }
}
