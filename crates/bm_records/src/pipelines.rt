//! Tables, action profiles, conditionals and pipelines.
ghost use Rattle.std.specs.Prelude.{◌≡◌, length, All, IfOk, IfErr};
ghost use Rattle.serde_json.specs.Data.{no_members};
ghost use Rattle.json_tree.specs.Nodes.{puts};
ghost use Rattle.json_tree.specs.View.{view, items_in};
ghost use Rattle.bm_records.specs.Firsts.{numbered, firsts};
ghost use Rattle.bm_records.specs.Members.{members_at, IsPlace};
ghost use Rattle.list_types.specs.declared.memory.Refusal.TheVariants as refusals;
ghost use Rattle.json_shapes.specs.Shapes.{ReadsExactly, Reads};
ghost use Rattle.bm_records.specs.Pipelines.{match_kind, key_field_of, table_kind, profile_by, next_table, each_next, next_tables_of, as_many, default_of, table_of, selector_of, profile_of, conditional_of, gress, pipeline_of, sides, pipelines_of};

use crate::operations::is;
use crate::raw::{
    ActionProfile, Conditional, DefaultEntry, Gress, KeyField, NextTable, Pipeline, Pipelines,
    Selector, Table, TableKind,
};
use json_shapes::shapes::{self, FromJson};
use json_shapes::{Name, OtherShape, arrays};
use json_tree::{Element, Items};
use list_types::{List, Refusal};
use p4_types::info::MatchKind;
use std::alloc::Global;

fn match_kind(text: &str) -> Result<MatchKind, OtherShape>
    ensures { ReadsExactly result (match_kind text.now) }
{
    if is(text, "exact") {
        Ok(MatchKind::Exact)
    } else if is(text, "lpm") {
        Ok(MatchKind::Lpm)
    } else if is(text, "ternary") {
        Ok(MatchKind::Ternary)
    } else if is(text, "range") {
        Ok(MatchKind::Range)
    } else if is(text, "optional") {
        Ok(MatchKind::Optional)
    } else {
        Err(OtherShape)
    }
}

impl<'a> FromJson<'a> for KeyField<'a> {
    ghost shape = { key_field_of };

    #[tactic(auto, unfolding(crate::specs::Pipelines::key_field_of))]
    fn from_json(alloc: Global, value: &Element<'a>) -> Result<KeyField<'a>, Refusal<OtherShape>> {
        let text: Name = shapes::required(alloc, value, "match_type")?;
        let kind = match_kind(text.as_str())?;
        let target = shapes::required(alloc, value, "target")?;
        let _mask: Option<()> = shapes::unless_absent(alloc, value, "mask")?;
        Ok(KeyField { kind, target })
    }

    fn may_be(value: &Element<'a>) -> bool {
        shapes::has(value, "match_type")
    }
}

fn table_kind(text: &str) -> Result<TableKind, OtherShape>
    ensures { ReadsExactly result (table_kind text.now) }
{
    if is(text, "simple") {
        Ok(TableKind::Simple)
    } else if is(text, "indirect") {
        Ok(TableKind::Indirect)
    } else if is(text, "indirect_ws") {
        Ok(TableKind::IndirectWithSelector)
    } else {
        Err(OtherShape)
    }
}

fn profile_by<'a>(
    alloc: Global,
    kind: TableKind,
    value: &Element<'a>,
) -> Result<Option<Name<'a>>, Refusal<OtherShape>>
    ensures { Reads result (profile_by kind (view value.now)) }
{
    match kind {
        TableKind::Simple => Ok(None),
        _ => {
            let name = shapes::required(alloc, value, "action_profile")?;
            Ok(Some(name))
        }
    }
}

fn next_table<'a>(
    alloc: Global,
    outcome: &'a str,
    node: &Element<'a>,
) -> Result<NextTable<'a>, Refusal<OtherShape>>
    ensures { Reads result (next_table outcome.now (view node.now)) }
{
    let node = FromJson::from_json(alloc, node)?;
    Ok(NextTable {
        outcome: Name::of(outcome),
        node,
    })
}

/// The names of the members, each beside what is left of the nodes where its value begins.
fn places<'a>(
    alloc: Global,
    members: &Items<'a>,
) -> Result<Vec<(&'a str, usize)>, Refusal<OtherShape>>
    ensures ok { IfOk result (λ found. members_at members.now.1 (firsts (numbered found.items)) ≡ puts (items_in members.now) no_members) }
    ensures within { IfOk result (λ found. All (λ p. IsPlace members.now.1 p.1) found.items) }
    ensures err { IfErr result (λ e. e ≡ refusals.NoMemory) }
{
    let mut rest = members.again();
    let mut found = Vec::with_capacity(alloc, members.len() / 2)?;
    'members: while let Some((name, member)) = rest.next_member() {
        found.push((name, member.left()))?;
    }
    Ok(found)
}

/// Each name once, by rising names, with the lowest of its numbers.
fn keep_firsts(pairs: &mut Vec<(&str, usize)>)
    ensures { numbered pairs.new.items ≡ firsts (numbered pairs.old.items) }
{
    pairs.sort_unstable();
    pairs.dedup_by(|later, first| later.0 == first.0);
}

/// The names of the members by rising names, each beside the place of its last value.
fn by_names<'a>(
    alloc: Global,
    members: &Items<'a>,
) -> Result<Vec<(&'a str, usize)>, Refusal<OtherShape>>
    ensures ok { IfOk result (λ found. members_at members.now.1 (numbered found.items) ≡ puts (items_in members.now) no_members) }
    ensures within { IfOk result (λ found. All (λ p. IsPlace members.now.1 p.1) found.items) }
    ensures err { IfErr result (λ e. e ≡ refusals.NoMemory) }
{
    let mut found = places(alloc, members)?;
    keep_firsts(&mut found);
    Ok(found)
}

fn each_next<'a>(
    alloc: Global,
    members: &Items<'a>,
    found: &[(&'a str, usize)],
) -> Result<List<NextTable<'a>>, Refusal<OtherShape>>
    requires { All (λ p. IsPlace members.now.1 p.1) found.now }
    ensures { Reads result (each_next (members_at members.now.1 (numbered found.now))) }
{
    let mut nexts = List::from_vec(Vec::with_capacity(alloc, found.len())?);
    for (name, left) in found.iter() {
        let node = members.element_at(*left);
        let next = next_table(alloc, *name, &node)?;
        nexts.push(next)?;
    }
    Ok(nexts)
}

fn nexts_of<'a>(
    alloc: Global,
    members: Items<'a>,
) -> Result<List<NextTable<'a>>, Refusal<OtherShape>>
    ensures { Reads result (each_next (puts (items_in members.entry) no_members)) }
{
    match by_names(alloc, &members) {
        Ok(found) => each_next(alloc, &members, found.as_slice()),
        Err(refusal) => Err(refusal),
    }
}

#[tactic(auto, unfolding(crate::specs::Pipelines::next_tables_of))]
fn next_tables<'a>(
    alloc: Global,
    value: &Element<'a>,
) -> Result<List<NextTable<'a>>, Refusal<OtherShape>>
    ensures { Reads result (next_tables_of (view value.now)) }
{
    let Some(nexts) = value.get("next_tables") else {
        return Ok(List::new(alloc));
    };
    if nexts.is_null() {
        return Ok(List::new(alloc));
    }
    match nexts.as_object() {
        Some(members) => nexts_of(alloc, members),
        None => Err(Refusal::For(OtherShape)),
    }
}

fn as_many(ids: &List<u64>, names: &List<Name<'_>>) -> Result<(), OtherShape>
    ensures { ReadsExactly result (as_many (length ids.now) (length names.now)) }
{
    if ids.len() == names.len() {
        Ok(())
    } else {
        Err(OtherShape)
    }
}

impl<'a> FromJson<'a> for DefaultEntry {
    ghost shape = { default_of };

    #[tactic(auto, unfolding(crate::specs::Pipelines::default_of))]
    fn from_json(alloc: Global, value: &Element<'a>) -> Result<DefaultEntry, Refusal<OtherShape>> {
        let action_id = shapes::required(alloc, value, "action_id")?;
        let action_data = shapes::required(alloc, value, "action_data")?;
        Ok(DefaultEntry {
            action_id,
            action_data,
        })
    }

    fn may_be(value: &Element<'a>) -> bool {
        shapes::has(value, "action_data")
    }
}

impl<'a> FromJson<'a> for Table<'a> {
    ghost shape = { table_of };

    #[tactic(auto, unfolding(crate::specs::Pipelines::table_of))]
    fn from_json(alloc: Global, value: &Element<'a>) -> Result<Table<'a>, Refusal<OtherShape>> {
        let name = shapes::required(alloc, value, "name")?;
        let key = shapes::required(alloc, value, "key")?;
        let text: Name = shapes::required(alloc, value, "type")?;
        let kind = table_kind(text.as_str())?;
        let action_profile = profile_by(alloc, kind, value)?;
        let action_ids = shapes::required(alloc, value, "action_ids")?;
        let actions = shapes::required(alloc, value, "actions")?;
        as_many(&action_ids, &actions)?;
        let next_tables = next_tables(alloc, value)?;
        let base_default_next = shapes::optional(alloc, value, "base_default_next")?;
        let default_entry = shapes::unless_absent(alloc, value, "default_entry")?;
        let has_entries = shapes::filled(value, "entries")?;
        Ok(Table {
            name,
            key,
            kind,
            action_profile,
            action_ids,
            actions,
            next_tables,
            base_default_next,
            default_entry,
            has_entries,
        })
    }

    fn may_be(value: &Element<'a>) -> bool {
        shapes::has(value, "action_ids")
            && shapes::has(value, "actions")
            && shapes::has(value, "key")
    }
}

impl<'a> FromJson<'a> for Selector<'a> {
    ghost shape = { selector_of };

    #[tactic(auto, unfolding(crate::specs::Pipelines::selector_of))]
    fn from_json(alloc: Global, value: &Element<'a>) -> Result<Selector<'a>, Refusal<OtherShape>> {
        let input = shapes::required(alloc, value, "input")?;
        Ok(Selector { input })
    }

    fn may_be(value: &Element<'a>) -> bool {
        shapes::has(value, "input")
    }
}

impl<'a> FromJson<'a> for ActionProfile<'a> {
    ghost shape = { profile_of };

    #[tactic(auto, unfolding(crate::specs::Pipelines::profile_of))]
    fn from_json(
        alloc: Global,
        value: &Element<'a>,
    ) -> Result<ActionProfile<'a>, Refusal<OtherShape>> {
        let name = shapes::required(alloc, value, "name")?;
        let selector = shapes::optional(alloc, value, "selector")?;
        Ok(ActionProfile { name, selector })
    }

    fn may_be(value: &Element<'a>) -> bool {
        shapes::has(value, "name")
    }
}

impl<'a> FromJson<'a> for Conditional<'a> {
    ghost shape = { conditional_of };

    #[tactic(auto, unfolding(crate::specs::Pipelines::conditional_of))]
    fn from_json(
        alloc: Global,
        value: &Element<'a>,
    ) -> Result<Conditional<'a>, Refusal<OtherShape>> {
        let name = shapes::required(alloc, value, "name")?;
        let expression = shapes::required(alloc, value, "expression")?;
        let true_next = shapes::required(alloc, value, "true_next")?;
        let false_next = shapes::required(alloc, value, "false_next")?;
        Ok(Conditional {
            name,
            expression,
            true_next,
            false_next,
        })
    }

    fn may_be(value: &Element<'a>) -> bool {
        shapes::has(value, "true_next") && shapes::has(value, "false_next")
    }
}

fn gress(text: &str) -> Result<Gress, OtherShape>
    ensures { ReadsExactly result (gress text.now) }
{
    if is(text, "ingress") {
        Ok(Gress::Ingress)
    } else if is(text, "egress") {
        Ok(Gress::Egress)
    } else {
        Err(OtherShape)
    }
}

impl<'a> FromJson<'a> for Pipeline<'a> {
    ghost shape = { pipeline_of };

    #[tactic(auto, unfolding(crate::specs::Pipelines::pipeline_of))]
    fn from_json(alloc: Global, value: &Element<'a>) -> Result<Pipeline<'a>, Refusal<OtherShape>> {
        let text: Name = shapes::required(alloc, value, "name")?;
        let gress = gress(text.as_str())?;
        let init_table = shapes::required(alloc, value, "init_table")?;
        let tables = shapes::required(alloc, value, "tables")?;
        let action_profiles = shapes::list_or_empty(alloc, value, "action_profiles")?;
        let conditionals = shapes::list_or_empty(alloc, value, "conditionals")?;
        shapes::nothing_in(value, "action_calls")?;
        Ok(Pipeline {
            gress,
            init_table,
            tables,
            action_profiles,
            conditionals,
        })
    }

    fn may_be(value: &Element<'a>) -> bool {
        shapes::has(value, "tables")
    }
}

fn sides<'a>(first: Pipeline<'a>, second: Pipeline<'a>) -> Result<Pipelines<'a>, OtherShape>
    ensures { ReadsExactly result (sides first.entry.gress second.entry.gress first.entry second.entry) }
{
    match (first.gress, second.gress) {
        (Gress::Ingress, Gress::Egress) => Ok(Pipelines {
            ingress: first,
            egress: second,
        }),
        (Gress::Egress, Gress::Ingress) => Ok(Pipelines {
            ingress: second,
            egress: first,
        }),
        _ => Err(OtherShape),
    }
}

impl<'a> FromJson<'a> for Pipelines<'a> {
    ghost shape = { pipelines_of };

    #[tactic(auto, unfolding(crate::specs::Pipelines::pipelines_of))]
    fn from_json(alloc: Global, value: &Element<'a>) -> Result<Pipelines<'a>, Refusal<OtherShape>> {
        let count = arrays::item_count(value)?;
        arrays::of_count(2, count)?;
        let first = arrays::item_at(alloc, value, 0)?;
        let second = arrays::item_at(alloc, value, 1)?;
        Ok(sides(first, second)?)
    }

    fn may_be(value: &Element<'a>) -> bool {
        value.is_array()
    }
}
