//! The rules of an entry, one function each.
ghost use Rattle.std.specs.Prelude.{◌≡◌, ◌==◌, ◌&&◌, ◌||◌, not, Some, None};
ghost use Rattle.std.specs.Option.{option_map};
ghost use Rattle.std.specs.List.{list_any};
ghost use Rattle.plane_spec.specs.UpdateRules.{caused, caused_by, update_kind, brings, is_unserved, is_foreign, is_fixed, is_malformed, is_malformed_match, names_zero, is_too_wide, has_priorities, has_right_priority, is_canonical_match, is_inconsistent};
ghost use Rattle.write_rules.specs.Widths.{HasWidths};

use crate::{matches, sets};
use p4_types::code::{Cause, Code, Rule};
use p4_types::info::{MatchKind, Table};
use p4_types::messages::{TableAction, TableEntry};
use p4_types::table::UpdateKind;

/// The cause of a refusal by a rule.
pub(crate) fn refused(rule: Rule, code: Code) -> Option<Cause>
    ensures { result ≡ caused rule code }
{
    Some(Cause { rule, code })
}

/// The cause of a refusal by a rule, where there is a code of it.
pub(crate) fn refused_by(rule: Rule, code: Option<Code>) -> Option<Cause>
    ensures { result ≡ caused_by rule code }
{
    match code {
        None => None,
        Some(code) => refused(rule, code),
    }
}

/// INSERT, MODIFY or DELETE by its number in a message.
pub(crate) fn update_kind(number: i32) -> Option<UpdateKind>
    ensures { result ≡ update_kind number }
{
    match number {
        1 => Some(UpdateKind::Insert),
        2 => Some(UpdateKind::Modify),
        3 => Some(UpdateKind::Delete),
        _ => None,
    }
}

/// Whether an update of this kind brings something.
pub(crate) fn brings(kind: UpdateKind) -> bool
    ensures { result ≡ brings kind }
{
    match kind {
        UpdateKind::Insert | UpdateKind::Modify => true,
        UpdateKind::Delete => false,
    }
}

/// U2: an INSERT or MODIFY that gives what is not served.
pub(crate) fn is_unserved(kind: UpdateKind, entry: &TableEntry) -> bool
    ensures { result ≡ is_unserved kind entry.now }
{
    brings(kind)
        && (entry.meter_config
            || entry.counter_data.is_some()
            || entry.time_since_last_hit
            || entry.idle_timeout_ns != 0
            || sets::has_watch(&entry.action))
}

/// U4: the role's configuration has not this id.
pub(crate) fn is_foreign(scope: Option<&[u32]>, id: u32) -> bool
    ensures { result ≡ is_foreign (option_map (λ ids. ids.now) scope.entry) id }
{
    match scope {
        None => false,
        Some(ids) => !ids.contains(&id),
    }
}

/// U5: an entry of a const table, or a default entry that is not changed by a MODIFY, that never changes, or whose table has
/// an action profile.
pub(crate) fn is_fixed(table: &Table, kind: UpdateKind, entry: &TableEntry) -> bool
    ensures { result ≡ is_fixed table.now kind entry.now }
{
    let modifies = match kind {
        UpdateKind::Modify => true,
        UpdateKind::Insert | UpdateKind::Delete => false,
    };
    table.is_const_table
        || (entry.is_default_action
            && (!modifies
                || table.const_default_action.is_some()
                || table.action_profile.is_some()))
}

// Whether the action is a member or a group by the id 0.
fn names_zero(action: &Option<Option<TableAction>>) -> bool
    ensures { result ≡ names_zero action.now }
{
    match action {
        Some(Some(TableAction::ActionProfileMemberId(id))) => *id == 0,
        Some(Some(TableAction::ActionProfileGroupId(id))) => *id == 0,
        _ => false,
    }
}

/// Whether the match is not in the form of the table's key.
pub fn is_malformed_match(table: &Table, entry: &TableEntry) -> bool
    ensures { result ≡ is_malformed_match table.now entry.now }
{
    let asked = entry.matches.as_slice();
    table.match_fields.len() < asked.len()
        || (entry.is_default_action && !asked.is_empty())
        || !matches::all_formed(table, asked)
        || matches::name_twice(asked)
        || (!entry.is_default_action && matches::miss_exact(table, asked))
}

/// U6.
pub(crate) fn is_malformed(table: &Table, entry: &TableEntry) -> bool
    ensures { result ≡ is_malformed table.now entry.now }
{
    is_malformed_match(table, entry) || names_zero(&entry.action)
}

/// Whether a value, mask, low or high of the match is wider than its field, which breaks U7.
pub fn is_too_wide(table: &Table, entry: &TableEntry) -> bool
    requires { HasWidths table.now }
    ensures { result ≡ is_too_wide table.now entry.now }
{
    !matches::all_fit(table, entry.matches.as_slice())
}

fn has_priorities(table: &Table) -> bool
    ensures { result ≡ has_priorities table.now }
{
    for field in table.match_fields.as_slice() {
        match field.kind {
            MatchKind::Ternary | MatchKind::Range | MatchKind::Optional => return true,
            MatchKind::Exact | MatchKind::Lpm => {}
        }
    }
    false
}

fn has_right_priority(table: &Table, entry: &TableEntry) -> bool
    ensures { result ≡ has_right_priority table.now entry.now }
{
    if has_priorities(table) && !entry.is_default_action {
        entry.priority > 0
    } else {
        entry.priority == 0
    }
}

/// Whether the match is the canonical one of what it asks: no value bits outside the mask or the prefix, a range
/// that is one and not of all values.
pub fn is_canonical_match(table: &Table, entry: &TableEntry) -> bool
    requires { HasWidths table.now }
    ensures { result ≡ is_canonical_match table.now entry.now }
{
    matches::all_canonical(table, entry.matches.as_slice())
}

/// U8: a match that is not the canonical one, or a priority that the table does not allow.
pub(crate) fn is_inconsistent(table: &Table, entry: &TableEntry) -> bool
    requires { HasWidths table.now }
    ensures { result ≡ is_inconsistent table.now entry.now }
{
    !is_canonical_match(table, entry) || !has_right_priority(table, entry)
}
