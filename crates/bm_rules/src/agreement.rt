//! What a program must have for its P4Info: L10 to L15.
ghost use Rattle.std.specs.Prelude.{◌≡◌, is_some, option_copied, IfOk};
ghost use Rattle.std.specs.List.{list_all, zip};
ghost use Rattle.p4info_model.specs.Lookups.{action_at, profile_at};
ghost use Rattle.bm_rules.specs.Names.{named};
ghost use Rattle.bm_rules.specs.Agreement.{same_kind, field_agrees, datum_agrees, profile_has_own, keys_agree, key_agrees, table_named, tables_agree, data_agree, id_beside, action_agrees, id_agrees, reference_agrees, table_has_references, references_agree, selector_agrees, is_of_kind, is_name, has_profile, is_simple, profile_agrees, table_profile_agrees, profiles_agree, is_size, size_agrees, counters_agree, digests_agree, has_egress_spec};

use crate::scope::{Scope, Standing, all_stand};
use crate::{fields, names, references};
use bm_records::raw::{self, Datum, KeyField, RawProgram, TableKind};
use bm_values::literals::width_bits;
use list_types::NoMemory;
use name_index::{Index, Name};
use p4_types::info::{
    Action, ActionProfile, ActionRef, Counter, Digest, Info, MatchField, MatchKind, Param, Table,
};
use std::alloc::Global;

fn same_kind(kind: MatchKind, other: MatchKind) -> bool
    ensures { result ≡ same_kind kind other }
{
    match (kind, other) {
        (MatchKind::Exact, MatchKind::Exact) => true,
        (MatchKind::Lpm, MatchKind::Lpm) => true,
        (MatchKind::Ternary, MatchKind::Ternary) => true,
        (MatchKind::Range, MatchKind::Range) => true,
        (MatchKind::Optional, MatchKind::Optional) => true,
        _ => false,
    }
}

fn field_agrees(scope: &Scope, key: &KeyField, field: &MatchField) -> bool
    ensures { result ≡ field_agrees scope.now.raw.now key.now field.now }
{
    same_kind(key.kind, field.kind) && fields::read_width(scope, &key.target) == field.bitwidth
}

fn fields_agree(scope: &Scope, keys: &[KeyField], fields: &[MatchField]) -> bool
    ensures { result ≡ list_all (λ pair. field_agrees scope.now.raw.now pair.0 pair.1) (zip keys.now fields.now) }
{
    keys.iter()
        .zip(fields)
        .all(|(key, field)| field_agrees(scope, key, field))
}

fn keys_agree(scope: &Scope, keys: &[KeyField], fields: &[MatchField]) -> bool
    ensures { result ≡ keys_agree scope.now.raw.now keys.now fields.now }
{
    keys.len() == fields.len() && fields_agree(scope, keys, fields)
}

fn table_named<'p, 'a>(raw: &'p RawProgram<'a>, name: &str) -> Option<&'p raw::Table<'a>>
    ensures { option_copied result ≡ table_named raw.now name.now }
{
    names::named_in_both(
        raw.pipelines.ingress.tables.as_slice(),
        raw.pipelines.egress.tables.as_slice(),
        name,
    )
}

impl Standing for Table {
    ghost meaning = { λ raw table. key_agrees raw table.match_fields (table_named raw table.preamble.name) };

    fn stands(&self, scope: &Scope) -> bool {
        match table_named(scope.raw, self.preamble.name.as_str()) {
            None => false,
            Some(found) => keys_agree(scope, found.key.as_slice(), self.match_fields.as_slice()),
        }
    }
}

/// Whether each table of the P4Info has one of its name with its key: L10.
pub(crate) fn tables_agree(scope: &Scope, info: &Info) -> bool
    ensures { result ≡ tables_agree scope.now.raw.now info.now }
{
    all_stand(scope, info.tables.as_slice())
}

fn datum_agrees(datum: &Datum, param: &Param) -> bool
    ensures { result ≡ datum_agrees datum.now param.now }
{
    width_bits(&datum.width) == param.bitwidth
}

fn widths_agree(runtime_data: &[Datum], params: &[Param]) -> bool
    ensures { result ≡ list_all (λ pair. datum_agrees pair.0 pair.1) (zip runtime_data.now params.now) }
{
    runtime_data
        .iter()
        .zip(params)
        .all(|(datum, param)| datum_agrees(datum, param))
}

fn data_agree(runtime_data: &[Datum], params: &[Param]) -> bool
    ensures { result ≡ data_agree runtime_data.now params.now }
{
    runtime_data.len() == params.len() && widths_agree(runtime_data, params)
}

fn id_beside(wanted: &str, ids: &[u64], names: &Index<Name>) -> Option<u64>
    ensures { result ≡ id_beside wanted.now ids.now names.now }
{
    match names.place_at(wanted) {
        Some(place) => ids.get(place).copied(),
        None => None,
    }
}

fn id_agrees(raw: &RawProgram, params: &[Param], id: Option<u64>) -> bool
    ensures { result ≡ id_agrees raw.now params.now id }
{
    match id {
        None => false,
        Some(id) => match references::action_by_id(raw, id) {
            None => false,
            Some(action) => data_agree(action.runtime_data.as_slice(), params),
        },
    }
}

fn action_at<'a>(info: &'a Info, id: u32) -> Option<&'a Action>
    ensures { option_copied result ≡ action_at info.now id }
{
    info.actions
        .as_slice()
        .iter()
        .find(|action| action.preamble.id == id)
}

/// The actions of a table, found by their names.
#[derive(Drop)]
struct Actions<'p, 'a> {
    table: &'p raw::Table<'a>,
    names: Index<'p, Name<'a>>,
    ghost of_table: { names ≡ table.now.actions },
}

impl<'p, 'a> Actions<'p, 'a> {
    fn of(alloc: Global, table: &'p raw::Table<'a>) -> Result<Actions<'p, 'a>, NoMemory>
        ensures { IfOk result (λ actions. actions.table.now ≡ table.now) }
    {
        Ok(Actions {
            table,
            names: Index::of(alloc, table.actions.as_slice())?,
        })
    }
}

fn id_of(actions: &Actions, name: &str) -> Option<u64>
    ensures { result ≡ id_beside name.now actions.now.table.now.action_ids actions.now.table.now.actions }
{
    id_beside(name, actions.table.action_ids.as_slice(), &actions.names)
}

fn reference_agrees(raw: &RawProgram, info: &Info, actions: &Actions, id: u32) -> bool
    ensures { result ≡ reference_agrees raw.now actions.now.table.now (action_at info.now id) }
{
    match action_at(info, id) {
        None => false,
        Some(action) => {
            let id = id_of(actions, action.preamble.name.as_str());
            id_agrees(raw, action.params.as_slice(), id)
        }
    }
}

fn all_agree(raw: &RawProgram, info: &Info, actions: &Actions, refs: &[ActionRef]) -> bool
    ensures { result ≡ list_all (λ reference. reference_agrees raw.now actions.now.table.now (action_at info.now reference.id)) refs.now }
{
    refs.iter().all(|reference| reference_agrees(raw, info, actions, reference.id))
}

fn has_references(
    alloc: Global,
    raw: &RawProgram,
    info: &Info,
    table: &raw::Table,
    refs: &[ActionRef],
) -> Result<bool, NoMemory>
    ensures { IfOk result (λ answer. answer ≡ list_all (λ reference. reference_agrees raw.now table.now (action_at info.now reference.id)) refs.now) }
{
    let actions = Actions::of(alloc, table)?;
    Ok(all_agree(raw, info, &actions, refs))
}

fn table_has_references(
    alloc: Global,
    raw: &RawProgram,
    info: &Info,
    table: &Table,
) -> Result<bool, NoMemory>
    ensures { IfOk result (λ answer. answer ≡ table_has_references raw.now info.now table.now (table_named raw.now table.now.preamble.name)) }
{
    match table_named(raw, table.preamble.name.as_str()) {
        None => Ok(false),
        Some(found) => has_references(alloc, raw, info, found, table.action_refs.as_slice()),
    }
}

/// Whether each action reference has an action of its name with its widths in its table: L11.
pub(crate) fn references_agree(
    alloc: Global,
    raw: &RawProgram,
    info: &Info,
) -> Result<bool, NoMemory>
    ensures { IfOk result (λ answer. answer ≡ references_agree raw.now info.now) }
{
    for table in info.tables.as_slice() {
        if !table_has_references(alloc, raw, info, table)? {
            return Ok(false);
        }
    }
    Ok(true)
}

impl Standing for ActionProfile {
    ghost meaning = { profile_has_own };

    fn stands(&self, scope: &Scope) -> bool {
        let pipelines = &scope.raw.pipelines;
        let found = names::named_in_both(
            pipelines.ingress.action_profiles.as_slice(),
            pipelines.egress.action_profiles.as_slice(),
            self.preamble.name.as_str(),
        );
        match found {
            None => false,
            Some(found) => {
                if self.with_selector {
                    found.selector.is_some()
                } else {
                    found.selector.is_none()
                }
            }
        }
    }
}

fn is_of_kind(with_selector: bool, kind: TableKind) -> bool
    ensures { result ≡ is_of_kind with_selector kind }
{
    match kind {
        TableKind::Simple => false,
        TableKind::Indirect => !with_selector,
        TableKind::IndirectWithSelector => with_selector,
    }
}

fn is_name(name: &str, given: &Option<Name>) -> bool
    ensures { result ≡ is_name name.now given.now }
{
    match given {
        None => false,
        Some(given) => given.as_str() == name,
    }
}

fn profile_at<'a>(info: &'a Info, id: u32) -> Option<&'a ActionProfile>
    ensures { option_copied result ≡ profile_at info.now id }
{
    info.action_profiles
        .as_slice()
        .iter()
        .find(|profile| profile.preamble.id == id)
}

fn profile_agrees(info: &Info, id: Option<u32>, table: &raw::Table) -> bool
    ensures { result ≡ profile_agrees info.now id table.now }
{
    match id {
        None => matches!(table.kind, TableKind::Simple),
        Some(id) => match profile_at(info, id) {
            None => false,
            Some(profile) => {
                is_of_kind(profile.with_selector, table.kind)
                    && is_name(profile.preamble.name.as_str(), &table.action_profile)
            }
        },
    }
}

fn table_profile_agrees(raw: &RawProgram, info: &Info, table: &Table) -> bool
    ensures { result ≡ table_profile_agrees info.now table.now.action_profile (table_named raw.now table.now.preamble.name) }
{
    match table_named(raw, table.preamble.name.as_str()) {
        None => false,
        Some(found) => profile_agrees(info, table.action_profile, found),
    }
}

fn all_tables_agree(raw: &RawProgram, info: &Info) -> bool
    ensures { result ≡ list_all (λ table. table_profile_agrees info.now table.action_profile (table_named raw.now table.preamble.name)) info.now.tables }
{
    let tables = info.tables.as_slice();
    tables
        .iter()
        .all(|table| table_profile_agrees(raw, info, table))
}

/// Whether each action profile of the P4Info has one of its name and kind, and each table has its own: L12.
pub(crate) fn profiles_agree(scope: &Scope, info: &Info) -> bool
    ensures { result ≡ profiles_agree scope.now.raw.now info.now }
{
    all_stand(scope, info.action_profiles.as_slice()) && all_tables_agree(scope.raw, info)
}

fn is_size(size: u64, given: Option<u64>) -> bool
    ensures { result ≡ is_size size given }
{
    match given {
        None => false,
        Some(given) => given == size,
    }
}

impl Standing for Counter {
    ghost meaning = { λ raw counter. size_agrees counter.size (named (λ x. x.name) counter.preamble.name raw.counter_arrays) };

    fn stands(&self, scope: &Scope) -> bool {
        match names::named(
            scope.raw.counter_arrays.as_slice(),
            self.preamble.name.as_str(),
        ) {
            None => false,
            Some(found) => !found.is_direct && is_size(self.size, found.size),
        }
    }
}

/// Whether each indirect counter of the P4Info has an array of its name and size: L13.
pub(crate) fn counters_agree(scope: &Scope, info: &Info) -> bool
    ensures { result ≡ counters_agree scope.now.raw.now info.now }
{
    all_stand(scope, info.counters.as_slice())
}

impl Standing for Digest {
    ghost meaning = { λ raw digest. is_some (named (λ x. x.name) digest.preamble.name raw.learn_lists) };

    fn stands(&self, scope: &Scope) -> bool {
        names::named(
            scope.raw.learn_lists.as_slice(),
            self.preamble.name.as_str(),
        )
        .is_some()
    }
}

/// Whether each digest of the P4Info has a learn list of its name: L14.
pub(crate) fn digests_agree(scope: &Scope, info: &Info) -> bool
    ensures { result ≡ digests_agree scope.now.raw.now info.now }
{
    all_stand(scope, info.digests.as_slice())
}

/// Whether `standard_metadata.egress_spec` is there and has 9 bits: L15.
pub(crate) fn has_egress_spec(scope: &Scope) -> bool
    ensures { result ≡ has_egress_spec scope.now.raw.now }
{
    fields::bits_of_names(scope, "standard_metadata", "egress_spec") == 9
}
