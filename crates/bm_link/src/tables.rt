//! Tables and conditionals of a pipeline, by places.
ghost use Rattle.std.specs.Prelude.{◌≡◌, ◌==◌, ◌+◌, ◌<◌, if◌then◌else◌, [], ◌++◌, codes, length, map, min, take, option_map, option_copied, unwrap_or, IfOk, OnOk};
ghost use Rattle.std.specs.List.{find, zip};
ghost use Rattle.p4info_model.specs.Lookups.{ArePlaces};
ghost use Rattle.link_spec.specs.Fields.{field_ref, of_part};
ghost use Rattle.link_spec.specs.Expressions.{truth_of};
ghost use Rattle.bm_rules.specs.Names.{named};
ghost use Rattle.bm_rules.specs.References.{profiles};
ghost use Rattle.link_spec.specs.Tables.{next_by, reference_in, action_place, is_among, table_actions, action_name, default_action, default_of, selector_in, selector_of, table_with, table_of, conditional_of};
ghost use Rattle.bm_link.specs.Sides.{side_of};
ghost use Rattle.bm_link.specs.Places.{Takes};
ghost use Rattle.name_index.specs.Places.{at_name};
ghost use Rattle.bm_link.specs.References.{AddsReference, AreReferences, AreLeft, behind};
ghost use Rattle.bm_pipeline.specs.declared.tables.Next.TheVariants as following;

use crate::nodes::{next_on, node_of};
use crate::objects::bits;
use crate::scope::{Link, Scope, all};
use crate::sides::Side;
use crate::{expressions, fields};
use bm_pipeline::headers::FieldRef;
use bm_pipeline::tables::{Conditional, DefaultEntry, Next, Table, TableAction};
use bm_records::raw::{self, ActionProfile, KeyField, NextTable, RawLiteral, Selector};
use list_types::{List, NoMemory};
use name_index::{Index, Name, put_first};
use p4_types::info::{self, ActionRef};
use p4_types::keys::{Arguments, PARAM_LIMIT};
use p4info_model::P4Info;
use std::alloc::Global;
use std::collections::BTreeMap;

fn add_reference<'a>(
    ids: &mut BTreeMap<&'a str, u32>,
    info: &'a P4Info,
    reference: &ActionRef,
) -> Result<(), NoMemory>
    ensures { OnOk result (AddsReference info.now ids.old ids.new reference.now.id) }
{
    match info.action(reference.id) {
        Some(action) => put_first(ids, action.preamble.name.as_str(), reference.id),
        None => Ok(()),
    }
}

// The ids of references by the names of their actions.
fn references<'a>(
    alloc: Global,
    info: &'a P4Info,
    references: &[ActionRef],
) -> Result<BTreeMap<&'a str, u32>, NoMemory>
    ensures { IfOk result (λ ids. AreReferences info.now references.now ids) }
{
    let mut ids = BTreeMap::new(alloc);
    for reference in references {
        add_reference(&mut ids, info, reference)?;
    }
    Ok(ids)
}

// The same of a table, where one is given.
fn references_of<'a>(
    alloc: Global,
    info: &'a P4Info,
    given: Option<&info::Table>,
) -> Result<BTreeMap<&'a str, u32>, NoMemory>
    ensures { IfOk result (λ ids. AreLeft info.now (option_copied given.entry) [] ids) }
{
    match given {
        Some(table) => references(alloc, info, table.action_refs.as_slice()),
        None => Ok(BTreeMap::new(alloc)),
    }
}

fn action_place(scope: &Scope, id: u64) -> usize
    ensures { result ≡ action_place scope.now.fields.raw.now id }
{
    scope.action_places.get(&id).copied().unwrap_or(0)
}

fn name_of<'p, 'a>(action: Option<&'p raw::Action<'a>>) -> &'a str
    ensures { result.now ≡ unwrap_or (option_map (λ action. action.name) (option_copied action.entry)) [] }
{
    match action {
        Some(action) => action.name.as_str(),
        None => "",
    }
}

fn action_at<'p, 'a>(
    places: &BTreeMap<u64, usize>,
    actions: &'p [raw::Action<'a>],
    id: u64,
) -> Option<&'p raw::Action<'a>>
    requires { ArePlaces (λ action. action.id) actions.now places.now }
    ensures { option_copied result ≡ find (λ action. action.id == id) actions.now }
{
    match places.get(&id) {
        Some(place) => actions.get(*place),
        None => None,
    }
}

fn action_name<'a>(scope: &Scope<'_, 'a>, id: u64) -> &'a str
    ensures { result.now ≡ action_name scope.now.fields.raw.now id }
{
    let actions = scope.fields.raw.actions.as_slice();
    name_of(action_at(&scope.action_places, actions, id))
}

fn is_among(names: &[Name], name: &str) -> bool
    ensures { result ≡ is_among names.now name.now }
{
    names.iter().any(|other| other.as_str() == name)
}

fn next_after(side: &Side, nexts: &Index<NextTable>, names: &[Name], name: &str) -> Next
    ensures { result ≡ (if is_among names.now name.now then next_by (side_of side.now) (named (λ next. next.outcome) name.now nexts.now) else following.NotNamed) }
{
    if is_among(names, name) {
        next_on(side, nexts, name)
    } else {
        Next::NotNamed
    }
}

// An action of a table, whose reference is left to no other.
fn table_action(
    scope: &Scope,
    side: &Side,
    nexts: &Index<NextTable>,
    ids: &mut BTreeMap<&str, u32>,
    id: u64,
    name: &str,
) -> TableAction
    ensures action { result ≡ record { action = action_place scope.now.fields.raw.now id; reference = at_name ids.old name.now; next = next_by (side_of side.now) (named (λ next. next.outcome) name.now nexts.now) } }
    ensures taken { Takes ids.old ids.new name.now }
{
    TableAction {
        action: action_place(scope, id),
        reference: ids.remove(name),
        next: next_on(side, nexts, name),
    }
}

// The action at a place of a table, and the references that are left behind it.
fn push_action(
    actions: &mut List<TableAction>,
    scope: &Scope,
    side: &Side,
    nexts: &Index<NextTable>,
    ids: &mut BTreeMap<&str, u32>,
    table: &raw::Table,
    given: Option<&info::Table>,
    place: usize,
) -> Result<(), NoMemory>
    requires nexts { nexts.now ≡ table.now.next_tables }
    requires inside { place < min (length table.now.action_ids) (length table.now.actions) }
    requires before { actions.old ≡ table_actions scope.now.fields.raw.now scope.now.info.now (side_of side.now) table.now (option_copied given) [] (take place (zip table.now.action_ids table.now.actions)) }
    requires left { AreLeft scope.now.info.now (option_copied given) (behind [] (take place (zip table.now.action_ids table.now.actions))) ids.old }
    ensures { OnOk result (actions.new ≡ table_actions scope.now.fields.raw.now scope.now.info.now (side_of side.now) table.now (option_copied given.entry) [] (take (place + 1) (zip table.now.action_ids table.now.actions)) × AreLeft scope.now.info.now (option_copied given.entry) (behind [] (take (place + 1) (zip table.now.action_ids table.now.actions))) ids.new) }
{
    let action_ids = table.action_ids.as_slice();
    let names = table.actions.as_slice();
    let name = names[place].as_str();
    let action = table_action(scope, side, nexts, ids, action_ids[place], name);
    actions.push(action)?;
    Ok(())
}

#[tactic(auto, using(crate::proofs::Pushes::all_pairs))]
fn table_actions(
    alloc: Global,
    scope: &Scope,
    side: &Side,
    nexts: &Index<NextTable>,
    ids: &mut BTreeMap<&str, u32>,
    table: &raw::Table,
    given: Option<&info::Table>,
) -> Result<List<TableAction>, NoMemory>
    requires nexts { nexts.now ≡ table.now.next_tables }
    requires left { AreLeft scope.now.info.now (option_copied given) [] ids.old }
    ensures { IfOk result (λ actions. actions ≡ table_actions scope.now.fields.raw.now scope.now.info.now (side_of side.now) table.now (option_copied given.entry) [] (zip table.now.action_ids table.now.actions)) }
{
    let mut actions = List::new(alloc);
    let count = table.action_ids.len().min(table.actions.len());
    for place in 0..count {
        push_action(&mut actions, scope, side, nexts, ids, table, given, place)?;
    }
    Ok(actions)
}

// More arguments than there is room for are refused as for want of memory.
fn arguments(literals: &[RawLiteral]) -> Result<Arguments, NoMemory>
    ensures { IfOk result (λ arguments. arguments ≡ map (of_part 0 (λ value. value)) literals.now) }
{
    if literals.len() > PARAM_LIMIT {
        return Err(NoMemory);
    }
    let mut arguments = Arguments::new();
    for literal in literals {
        arguments.push(bits(literal));
    }
    Ok(arguments)
}

fn default_action(
    scope: &Scope,
    side: &Side,
    nexts: &Index<NextTable>,
    ids: &BTreeMap<&str, u32>,
    table: &raw::Table,
    given: Option<&info::Table>,
    id: u64,
) -> TableAction
    requires nexts { nexts.now ≡ table.now.next_tables }
    requires left { AreLeft scope.now.info.now (option_copied given) [] ids.now }
    ensures { result ≡ default_action scope.now.fields.raw.now scope.now.info.now (side_of side.now) table.now (option_copied given.entry) id }
{
    let name = action_name(scope, id);
    TableAction {
        action: action_place(scope, id),
        reference: ids.get(name).copied(),
        next: next_after(side, nexts, table.actions.as_slice(), name),
    }
}

fn default_of(
    scope: &Scope,
    side: &Side,
    nexts: &Index<NextTable>,
    ids: &BTreeMap<&str, u32>,
    table: &raw::Table,
    given: Option<&info::Table>,
) -> Result<Option<DefaultEntry>, NoMemory>
    requires nexts { nexts.now ≡ table.now.next_tables }
    requires left { AreLeft scope.now.info.now (option_copied given) [] ids.now }
    ensures { IfOk result (λ entry. entry ≡ option_map (default_of scope.now.fields.raw.now scope.now.info.now (side_of side.now) table.now (option_copied given.entry)) table.now.default_entry) }
{
    match &table.default_entry {
        Some(entry) => Ok(Some(DefaultEntry {
            action: default_action(scope, side, nexts, ids, table, given, entry.action_id),
            action_data: arguments(entry.action_data.as_slice())?,
        })),
        None => Ok(None),
    }
}

fn selector_in(
    alloc: Global,
    scope: &Scope,
    selector: &Option<Selector>,
) -> Result<List<FieldRef>, NoMemory>
    ensures { IfOk result (λ fields. fields ≡ selector_in scope.now.fields.raw.now selector.now) }
{
    match selector {
        Some(selector) => all(alloc, scope, selector.input.as_slice()),
        None => Ok(List::new(alloc)),
    }
}

#[tactic(auto, using(bm_rules::proofs::Laid::find_in_both))]
fn profile_named<'p, 'a>(scope: &Scope<'p, 'a>, name: &Name) -> Option<&'p ActionProfile<'a>>
    ensures { option_copied result ≡ named (λ profile. profile.name) name.now (profiles scope.now.fields.raw.now) }
{
    match scope.ingress_profiles.named(name) {
        Some(profile) => Some(profile),
        None => scope.egress_profiles.named(name),
    }
}

fn selector_of(
    alloc: Global,
    scope: &Scope,
    profile: &Option<Name>,
) -> Result<List<FieldRef>, NoMemory>
    ensures { IfOk result (λ fields. fields ≡ selector_of scope.now.fields.raw.now profile.now) }
{
    let Some(name) = profile else {
        return Ok(List::new(alloc));
    };
    match profile_named(scope, name) {
        Some(profile) => selector_in(alloc, scope, &profile.selector),
        None => Ok(List::new(alloc)),
    }
}

impl<'a> Link<FieldRef> for KeyField<'a> {
    ghost meaning = { λ raw _ key. field_ref raw key.target };

    fn link(&self, _: Global, scope: &Scope) -> Result<FieldRef, NoMemory> {
        Ok(fields::field_ref(&scope.fields, &self.target))
    }
}

fn id_of(given: Option<&info::Table>) -> Option<u32>
    ensures { result ≡ option_map (λ table. table.preamble.id) (option_copied given.entry) }
{
    match given {
        Some(table) => Some(table.preamble.id),
        None => None,
    }
}

fn table_with(
    alloc: Global,
    scope: &Scope,
    side: &Side,
    table: &raw::Table,
    given: Option<&info::Table>,
) -> Result<Table, NoMemory>
    ensures { IfOk result (λ linked. linked ≡ table_with scope.now.fields.raw.now scope.now.info.now (side_of side.now) table.now (option_copied given.entry)) }
{
    let nexts = Index::of(alloc, table.next_tables.as_slice())?;
    let mut ids = references_of(alloc, scope.info, given)?;
    let default_entry = default_of(scope, side, &nexts, &ids, table, given)?;
    Ok(Table {
        id: id_of(given),
        key: all(alloc, scope, table.key.as_slice())?,
        actions: table_actions(alloc, scope, side, &nexts, &mut ids, table, given)?,
        hit: next_on(side, &nexts, "__HIT__"),
        miss: next_on(side, &nexts, "__MISS__"),
        base_default_next: node_of(side, &table.base_default_next),
        default_entry,
        selector: selector_of(alloc, scope, &table.action_profile)?,
    })
}

fn table_of(
    alloc: Global,
    scope: &Scope,
    side: &Side,
    table: &raw::Table,
) -> Result<Table, NoMemory>
    ensures { IfOk result (λ linked. linked ≡ table_of scope.now.fields.raw.now scope.now.info.now (side_of side.now) table.now) }
{
    table_with(alloc, scope, side, table, scope.tables.named(&table.name))
}

/// Adds the tables of a pipeline.
pub(crate) fn push_tables(
    alloc: Global,
    scope: &Scope,
    side: &Side,
    tables: &mut List<Table>,
) -> Result<(), NoMemory>
    ensures { OnOk result (tables.new ≡ tables.old ++ map (table_of scope.now.fields.raw.now scope.now.info.now (side_of side.now)) side.now.pipeline.now.tables) }
{
    for table in side.pipeline.tables.as_slice() {
        tables.push(table_of(alloc, scope, side, table)?)?;
    }
    Ok(())
}

fn conditional_of(
    alloc: Global,
    scope: &Scope,
    side: &Side,
    conditional: &raw::Conditional,
) -> Result<Conditional, NoMemory>
    ensures { IfOk result (λ linked. linked ≡ conditional_of scope.now.fields.raw.now (side_of side.now) conditional.now) }
{
    Ok(Conditional {
        expression: expressions::condition(alloc, &scope.fields, &conditional.expression)?,
        true_next: node_of(side, &conditional.true_next),
        false_next: node_of(side, &conditional.false_next),
    })
}

/// Adds the conditionals of a pipeline.
pub(crate) fn push_conditionals(
    alloc: Global,
    scope: &Scope,
    side: &Side,
    conditionals: &mut List<Conditional>,
) -> Result<(), NoMemory>
    ensures { OnOk result (conditionals.new ≡ conditionals.old ++ map (conditional_of scope.now.fields.raw.now (side_of side.now)) side.now.pipeline.now.conditionals) }
{
    for conditional in side.pipeline.conditionals.as_slice() {
        conditionals.push(conditional_of(alloc, scope, side, conditional)?)?;
    }
    Ok(())
}
