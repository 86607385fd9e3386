//! What a program is linked to.
ghost use Rattle.std.specs.Prelude.{◌≡◌, IfOk};
ghost use Rattle.link_spec.specs.Linked.{program_of};
ghost use Rattle.link_spec.specs.Tables.{ingress, egress, tables_of, conditionals_of};
ghost use Rattle.bm_link.specs.Sides.{side_of};

use crate::nodes::node_of;
use crate::scope::{Scope, all};
use crate::sides::Side;
use crate::{headers, objects, tables};
use bm_pipeline::program::Program;
use bm_pipeline::tables::{Conditional, Table};
use bm_records::raw::RawProgram;
use list_types::{List, NoMemory};
use p4info_model::P4Info;
use std::alloc::Global;

fn ingress<'p, 'a>(alloc: Global, raw: &'p RawProgram<'a>) -> Result<Side<'p, 'a>, NoMemory>
    ensures { IfOk result (λ side. side_of side ≡ ingress raw.now) }
{
    Side::of(alloc, &raw.pipelines.ingress, &[], &[])
}

fn egress<'p, 'a>(alloc: Global, raw: &'p RawProgram<'a>) -> Result<Side<'p, 'a>, NoMemory>
    ensures { IfOk result (λ side. side_of side ≡ egress raw.now) }
{
    let ingress = &raw.pipelines.ingress;
    Side::of(
        alloc,
        &raw.pipelines.egress,
        ingress.tables.as_slice(),
        ingress.conditionals.as_slice(),
    )
}

fn tables_of(
    alloc: Global,
    scope: &Scope,
    first: &Side,
    second: &Side,
) -> Result<List<Table>, NoMemory>
    requires first { side_of first.now ≡ ingress scope.now.fields.raw.now }
    requires second { side_of second.now ≡ egress scope.now.fields.raw.now }
    ensures { IfOk result (λ tables. tables ≡ tables_of scope.now.fields.raw.now scope.now.info.now) }
{
    let mut tables = List::new(alloc);
    tables::push_tables(alloc, scope, first, &mut tables)?;
    tables::push_tables(alloc, scope, second, &mut tables)?;
    Ok(tables)
}

fn conditionals_of(
    alloc: Global,
    scope: &Scope,
    first: &Side,
    second: &Side,
) -> Result<List<Conditional>, NoMemory>
    requires first { side_of first.now ≡ ingress scope.now.fields.raw.now }
    requires second { side_of second.now ≡ egress scope.now.fields.raw.now }
    ensures { IfOk result (λ conditionals. conditionals ≡ conditionals_of scope.now.fields.raw.now) }
{
    let mut conditionals = List::new(alloc);
    tables::push_conditionals(alloc, scope, first, &mut conditionals)?;
    tables::push_conditionals(alloc, scope, second, &mut conditionals)?;
    Ok(conditionals)
}

fn program_in(
    alloc: Global,
    scope: &Scope,
    first: &Side,
    second: &Side,
) -> Result<Program, NoMemory>
    requires first { side_of first.now ≡ ingress scope.now.fields.raw.now }
    requires second { side_of second.now ≡ egress scope.now.fields.raw.now }
    ensures { IfOk result (λ program. program ≡ program_of scope.now.fields.raw.now scope.now.info.now) }
{
    let raw = scope.fields.raw;
    Ok(Program {
        headers: headers::headers_of(alloc, &scope.fields)?,
        fields: scope.fields.firsts[raw.headers.len()],
        standard_metadata: headers::standard_metadata_of(&scope.fields),
        errors: objects::errors_of(raw),
        parser: objects::parser_of(alloc, scope)?,
        deparser: all(alloc, scope, raw.deparser.order.as_slice())?,
        calculations: all(alloc, scope, raw.calculations.as_slice())?,
        checksums: all(alloc, scope, raw.checksums.as_slice())?,
        learn_lists: all(alloc, scope, raw.learn_lists.as_slice())?,
        actions: all(alloc, scope, raw.actions.as_slice())?,
        tables: tables_of(alloc, scope, first, second)?,
        conditionals: conditionals_of(alloc, scope, first, second)?,
        ingress: node_of(first, &raw.pipelines.ingress.init_table),
        egress: node_of(second, &raw.pipelines.egress.init_table),
    })
}

/// The plain data of a pipeline, of the raw records of a program and its P4Info. What has no room in a pipeline (default
/// data of more than [`p4_types::keys::PARAM_LIMIT`] numbers, or fields and bits beyond 64 bits) is refused as for want of
/// memory; a program that breaks no rule has none of it.
pub fn program(alloc: Global, raw: &RawProgram, info: &P4Info) -> Result<Program, NoMemory>
    ensures { IfOk result (λ program. program ≡ program_of raw.now info.now) }
{
    let scope = Scope::of(alloc, raw, info)?;
    let first = ingress(alloc, raw)?;
    let second = egress(alloc, raw)?;
    program_in(alloc, &scope, &first, &second)
}
