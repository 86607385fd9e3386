//! Changes of the default actions that were changed, by rising table id.
ghost use Rattle.std.specs.Prelude.{◌≡◌, Some, None, IfOk, IfErr, OnOk, OnErr};
ghost use Rattle.std.specs.Option.{option_map};
ghost use Rattle.plane_spec.specs.Planes.{default_in, with_default};
ghost use Rattle.table_store.specs.Rising.{AreRising, StandsAt, WouldStandAt};

use list_types::NoMemory;
use p4_types::table::{ActionCall, DefaultAction};
use undo_vec::UndoVec;

// Where the default action of a table stands, or where it would stand.
fn place_of(defaults: &[DefaultAction], table: u32) -> Result<usize, usize>
    requires { AreRising (λ d. d.table) defaults.now }
    ensures found { IfOk result (StandsAt (λ d. d.table) defaults.now table) }
    ensures absent { IfErr result (WouldStandAt (λ d. d.table) defaults.now table) }
{
    defaults.binary_search_by_key(&table, |default| default.table)
}

// Puts a default action in the place of that of its table.
fn put(defaults: &mut UndoVec<DefaultAction>, default: DefaultAction) -> Result<(), NoMemory>
    requires { AreRising (λ d. d.table) defaults.old.items }
    ensures ok { OnOk result (defaults.new.items ≡ with_default default.table (Some default.action) defaults.old.items) }
    ensures err { OnErr result (defaults.new.items ≡ defaults.old.items) }
    ensures before { defaults.new.before ≡ defaults.old.before }
{
    let place = place_of(defaults.as_slice(), default.table);
    match place {
        Ok(place) => defaults.replace(place, default),
        Err(place) => defaults.insert(place, default),
    }
}

// Takes the default action of a table away.
fn take(defaults: &mut UndoVec<DefaultAction>, table: u32) -> Result<(), NoMemory>
    requires { AreRising (λ d. d.table) defaults.old.items }
    ensures ok { OnOk result (defaults.new.items ≡ with_default table None defaults.old.items) }
    ensures err { OnErr result (defaults.new.items ≡ defaults.old.items) }
    ensures before { defaults.new.before ≡ defaults.old.before }
{
    let place = place_of(defaults.as_slice(), table);
    match place {
        Ok(place) => defaults.remove(place),
        Err(_) => Ok(()),
    }
}

/// The default action of a table among these, if there is one.
pub(crate) fn default_in(defaults: &[DefaultAction], table: u32) -> Option<&DefaultAction>
    ensures { option_map (λ default. default.now) result ≡ default_in table defaults.now }
{
    defaults.iter().find(|default| default.table == table)
}

/// Changes the default action of a table; none restores the program's.
pub(crate) fn set(
    defaults: &mut UndoVec<DefaultAction>,
    table: u32,
    action: Option<ActionCall>,
) -> Result<(), NoMemory>
    requires { AreRising (λ d. d.table) defaults.old.items }
    ensures ok { OnOk result (defaults.new.items ≡ with_default table action defaults.old.items) }
    ensures err { OnErr result (defaults.new.items ≡ defaults.old.items) }
    ensures before { defaults.new.before ≡ defaults.old.before }
{
    match action {
        Some(action) => put(defaults, DefaultAction { table, action }),
        None => take(defaults, table),
    }
}
